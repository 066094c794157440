// The electrode sheet: a chemistry and ten numbers, and what is worked out from them.
// A changed translation of src/battery/p2d/electrode.rs (without its particle).
#![tactic(auto, unfolding(crate::specs::Numbers::sheet_of, crate::specs::Sheet::graphite_anode, crate::specs::Sheet::lfp_cathode, crate::specs::Sheet::nmc_cathode, crate::specs::Sheet::diffusivity_at, crate::specs::Sheet::specific_area, crate::specs::Curves::open_circuit, crate::specs::Curves::open_circuit_slope, crate::specs::Calls::sheet_refusal, crate::specs::Calls::theta_refusal, crate::specs::Calls::d_s_of, crate::specs::Calls::specific_area_call, crate::specs::Calls::ocp_call, crate::specs::Calls::slope_call, crate::specs::Calls::volume_call, refusal::specs::Numbers::refusal_unless, refusal::specs::Numbers::first_refusal, refusal::specs::Answers::outcome))]

ghost use Rattle.std.specs.Prelude.{◌≡◌};
ghost use Rattle.refusal.specs.Answers.{outcome_of};
ghost use Rattle.electrode.specs.Numbers.{sheet_of, sheet_numbers};
ghost use Rattle.electrode.specs.Sheet.{chemistry_fits, sheet_fits, graphite_anode, lfp_cathode, nmc_cathode, diffusivity_at, specific_area};
ghost use Rattle.electrode.specs.Curves.{open_circuit, open_circuit_slope};
ghost use Rattle.electrode.specs.Calls.{d_s_of, specific_area_call, ocp_call, slope_call, volume_call};

use refusal::{
    Refusal, answered, finite_or_refused, is_finite, refuse_unless, temperature_fits, within,
};

#[derive(Clone, Copy)]
pub struct ElectrodeParams {
    // The chemistry: 1 graphite, 2 LFP, 3 NMC. A number, as in C: an unknown one is refused with the sheet.
    pub electrode_type: u64,
    // Particle radius, m.
    pub r_particle: f64,
    // Diffusivity in the solid at t_ref, m^2/s.
    pub d_s_ref: f64,
    // Largest concentration of lithium in the solid, mol/m^3.
    pub c_s_max: f64,
    // Stoichiometry at the start.
    pub theta_init: f64,
    // Thickness, m.
    pub thickness: f64,
    // Volume fraction of active material.
    pub epsilon_s: f64,
    // Area, m^2.
    pub area: f64,
    // Activation energy of the diffusivity, J/mol.
    pub e_a_ds: f64,
    // Factor of the exchange current density.
    pub k_bv: f64,
    // Reference temperature: d_s_ref was measured at it, K.
    pub t_ref: f64,
}

// Whether a chemistry has the number.
fn is_chemistry(electrode_type: u64) -> bool
    ensures { result ≡ chemistry_fits electrode_type }
{
    matches!(electrode_type, 1..=3)
}

impl ElectrodeParams {
    // Graphite anode of a cell of about 3 Ah.
    // The three ready sheets stay three: docs/REFERENCE.md names each, with its numbers.
    pub fn graphite_anode() -> ElectrodeParams
        ensures { result ≡ graphite_anode }
    {
        ElectrodeParams {
            electrode_type: 1,
            r_particle: 12.5e-6,
            d_s_ref: 3.9e-14,
            c_s_max: 31833.0,
            theta_init: 0.80,
            thickness: 100e-6,
            epsilon_s: 0.60,
            area: 0.0626,
            e_a_ds: 35000.0,
            k_bv: 2.0e-11,
            t_ref: 298.15,
        }
    }

    // LiFePO4 cathode of a cell of about 3 Ah. WARNING: its curve rises with lithium, so that the voltage rises during a discharge.
    pub fn lfp_cathode() -> ElectrodeParams
        ensures { result ≡ lfp_cathode }
    {
        ElectrodeParams {
            electrode_type: 2,
            r_particle: 2.5e-6,
            d_s_ref: 1.0e-14,
            c_s_max: 22806.0,
            theta_init: 0.20,
            thickness: 80e-6,
            epsilon_s: 0.50,
            area: 0.0626,
            e_a_ds: 20000.0,
            k_bv: 2.0e-11,
            t_ref: 298.15,
        }
    }

    // NMC811 cathode.
    pub fn nmc_cathode() -> ElectrodeParams
        ensures { result ≡ nmc_cathode }
    {
        ElectrodeParams {
            electrode_type: 3,
            r_particle: 5.0e-6,
            d_s_ref: 1.5e-14,
            c_s_max: 49000.0,
            theta_init: 0.15,
            thickness: 90e-6,
            epsilon_s: 0.55,
            area: 0.0626,
            e_a_ds: 25000.0,
            k_bv: 2.0e-11,
            t_ref: 298.15,
        }
    }

    // The sheet of a chemistry and ten numbers, in the order of the record. No `From`: it would take the two as a pair without names.
    pub fn of_numbers(electrode_type: u64, x: &[f64; 10]) -> ElectrodeParams
        ensures { result ≡ sheet_of electrode_type x.now }
    {
        ElectrodeParams {
            electrode_type,
            r_particle: x[0],
            d_s_ref: x[1],
            c_s_max: x[2],
            theta_init: x[3],
            thickness: x[4],
            epsilon_s: x[5],
            area: x[6],
            e_a_ds: x[7],
            k_bv: x[8],
            t_ref: x[9],
        }
    }

    // Its ten numbers.
    pub fn numbers(self) -> [f64; 10]
        ensures { result ≡ sheet_numbers self }
    {
        [
            self.r_particle,
            self.d_s_ref,
            self.c_s_max,
            self.theta_init,
            self.thickness,
            self.epsilon_s,
            self.area,
            self.e_a_ds,
            self.k_bv,
            self.t_ref,
        ]
    }

    // Whether every field is in its range.
    pub fn fits(self) -> bool
        ensures { result ≡ sheet_fits self }
    {
        is_chemistry(self.electrode_type)
            & within(self.r_particle, 1e-8, 1e-3)
            & within(self.d_s_ref, 1e-20, 1e-8)
            & within(self.c_s_max, 1.0, 131072.0)
            & within(self.theta_init, 0.0, 1.0)
            & within(self.thickness, 1e-7, 1e-2)
            & within(self.epsilon_s, 0.01, 1.0)
            & within(self.area, 1e-6, 1e4)
            & within(self.e_a_ds, 0.0, 1e5)
            & within(self.k_bv, 1e-16, 1.0)
            & within(self.t_ref, 200.0, 400.0)
    }

    // The diffusivity at a temperature, by Arrhenius.
    pub fn diffusivity_at(self, temp_k: f64) -> f64
        ensures { result ≡ diffusivity_at self temp_k }
    {
        self.d_s_ref * elementary::arrhenius(self.e_a_ds, self.t_ref, temp_k)
    }

    // The interfacial area of a volume.
    pub fn area_per_volume(self) -> f64
        ensures { result ≡ specific_area self }
    {
        3.0 * self.epsilon_s / self.r_particle
    }

    // The open-circuit potential at a stoichiometry.
    pub fn open_circuit(self, theta: f64) -> f64
        ensures { result ≡ open_circuit self theta }
    {
        curves::open_circuit(self.electrode_type, theta)
    }

    // The slope of the open-circuit potential.
    pub fn open_circuit_slope(self, theta: f64) -> f64
        ensures { result ≡ open_circuit_slope self theta }
    {
        curves::open_circuit_slope(self.electrode_type, theta)
    }

    // The diffusivity corrected for the temperature, m^2/s.
    pub fn d_s(self, temp_k: f64) -> Result<f64, Refusal>
        ensures { outcome_of result ≡ d_s_of self temp_k }
    {
        refuse_unless(self.fits(), Refusal::Sheet)?;
        refuse_unless(temperature_fits(temp_k), Refusal::Temperature)?;
        finite_or_refused(self.diffusivity_at(temp_k))
    }

    // Interfacial area of a volume of electrode, 1/m.
    pub fn specific_area(self) -> Result<f64, Refusal>
        ensures { outcome_of result ≡ specific_area_call self }
    {
        answered(
            refuse_unless(self.fits(), Refusal::Sheet),
            self.area_per_volume(),
        )
    }

    // Open-circuit potential at a stoichiometry, V.
    pub fn ocp(self, theta: f64) -> Result<f64, Refusal>
        ensures { outcome_of result ≡ ocp_call self theta }
    {
        refuse_unless(self.fits() & is_finite(theta), Refusal::Sheet)?;
        finite_or_refused(self.open_circuit(theta))
    }

    // Slope of the open-circuit potential, V.
    pub fn docp_dtheta(self, theta: f64) -> Result<f64, Refusal>
        ensures { outcome_of result ≡ slope_call self theta }
    {
        refuse_unless(self.fits() & is_finite(theta), Refusal::Sheet)?;
        finite_or_refused(self.open_circuit_slope(theta))
    }
}

// Volume of a sphere of a particle's radius, m^3.
pub fn sphere_volume(r: f64) -> Result<f64, Refusal>
    ensures { outcome_of result ≡ volume_call r }
{
    refuse_unless(within(r, 1e-8, 1e-3), Refusal::Sheet)?;
    finite_or_refused(4.0 / 3.0 * 3.141592653589793 * r * r * r)
}
