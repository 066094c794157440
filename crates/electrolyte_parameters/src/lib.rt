// The electrolyte's eight numbers and the rates that are worked out from them. A changed translation of src/battery/p2d/electrolyte.rs
// (`ElectrolyteParams`).
#![tactic(auto, unfolding(crate::specs::Params::lipf6_ec_dmc, crate::specs::Params::at_temperature, crate::specs::Params::diffusivity_eff, crate::specs::Params::conductivity_eff, crate::specs::Calls::rate_refusal, crate::specs::Calls::d_e_of, crate::specs::Calls::kappa_call, crate::specs::Calls::d_e_eff_of, crate::specs::Calls::kappa_eff_of, refusal::specs::Numbers::refusal_unless, refusal::specs::Numbers::first_refusal, refusal::specs::Answers::outcome))]

ghost use Rattle.std.specs.Prelude.{◌≡◌};
ghost use Rattle.refusal.specs.Answers.{outcome_of};
ghost use Rattle.refusal.specs.Refusals.{refusal_of};
ghost use Rattle.electrolyte_parameters.specs.Params.{params_fit, lipf6_ec_dmc, at_temperature, diffusivity_eff, conductivity_eff};
ghost use Rattle.electrolyte_parameters.specs.Calls.{rate_refusal, d_e_of, kappa_call, d_e_eff_of, kappa_eff_of};

use refusal::{Refusal, finite_or_refused, refuse_unless, temperature_fits, within};

#[derive(Clone, Copy)]
pub struct ElectrolyteParams {
    // Diffusivity of the salt at t_ref, m^2/s.
    pub d_e_ref: f64,
    // Conductivity at t_ref, S/m.
    pub kappa_ref: f64,
    // Transference number of the lithium ion.
    pub t_plus: f64,
    // Bruggeman exponent of transport through a porous medium.
    pub bruggeman: f64,
    // Concentration at the start, the same everywhere, mol/m^3.
    pub c_e_init: f64,
    // Activation energy of the diffusivity, J/mol.
    pub e_a_de: f64,
    // Activation energy of the conductivity, J/mol.
    pub e_a_kappa: f64,
    // Reference temperature: d_e_ref and kappa_ref were measured at it, K.
    pub t_ref: f64,
}

// The diffusivity or the conductivity at a temperature, by Arrhenius.
fn at_temperature(at_ref: f64, e_a: f64, t_ref: f64, temp_k: f64) -> f64
    ensures { result ≡ at_temperature at_ref e_a t_ref temp_k }
{
    at_ref * elementary::arrhenius(e_a, t_ref, temp_k)
}

// Refuses a rate: by 2 where the numbers that it is worked out from do not fit, then by 5.
fn check_rate(fits: bool, temp_k: f64) -> Result<(), Refusal>
    ensures { refusal_of result ≡ rate_refusal fits temp_k }
{
    refuse_unless(fits, Refusal::Sheet)?;
    refuse_unless(temperature_fits(temp_k), Refusal::Temperature)
}

impl ElectrolyteParams {
    // 1 mol/l of LiPF6 in EC and DMC.
    pub fn lipf6_ec_dmc() -> ElectrolyteParams
        ensures { result ≡ lipf6_ec_dmc }
    {
        ElectrolyteParams {
            d_e_ref: 7.5e-11,
            kappa_ref: 1.1,
            t_plus: 0.364,
            bruggeman: 1.5,
            c_e_init: 1000.0,
            e_a_de: 17000.0,
            e_a_kappa: 12000.0,
            t_ref: 298.15,
        }
    }

    // Whether every field is in its range.
    pub fn fits(self) -> bool
        ensures { result ≡ params_fit self }
    {
        within(self.d_e_ref, 1e-16, 1e-6)
            & within(self.kappa_ref, 1e-6, 100.0)
            & within(self.t_plus, 0.0, 1.0)
            & within(self.bruggeman, 0.0, 4.0)
            & within(self.c_e_init, 1.0, 1e5)
            & within(self.e_a_de, 0.0, 1e5)
            & within(self.e_a_kappa, 0.0, 1e5)
            & within(self.t_ref, 200.0, 400.0)
    }

    // The rates of diffusion and conduction read different fields, and docs/REFERENCE.md names each: so each is a method.
    // The diffusivity in a medium of that porosity.
    pub fn diffusivity_eff(self, porosity: f64, temp_k: f64) -> f64
        ensures { result ≡ diffusivity_eff self porosity temp_k }
    {
        at_temperature(self.d_e_ref, self.e_a_de, self.t_ref, temp_k)
            * elementary::powf(porosity, self.bruggeman)
    }

    // The conductivity in a medium of that porosity.
    fn conductivity_eff(self, porosity: f64, temp_k: f64) -> f64
        ensures { result ≡ conductivity_eff self porosity temp_k }
    {
        at_temperature(self.kappa_ref, self.e_a_kappa, self.t_ref, temp_k)
            * elementary::powf(porosity, self.bruggeman)
    }

    // The diffusivity corrected for the temperature, m^2/s.
    pub fn d_e(self, temp_k: f64) -> Result<f64, Refusal>
        ensures { outcome_of result ≡ d_e_of self temp_k }
    {
        check_rate(self.fits(), temp_k)?;
        finite_or_refused(at_temperature(self.d_e_ref, self.e_a_de, self.t_ref, temp_k))
    }

    // The conductivity corrected for the temperature, S/m.
    pub fn kappa(self, temp_k: f64) -> Result<f64, Refusal>
        ensures { outcome_of result ≡ kappa_call self temp_k }
    {
        check_rate(self.fits(), temp_k)?;
        finite_or_refused(at_temperature(self.kappa_ref, self.e_a_kappa, self.t_ref, temp_k))
    }

    // The effective diffusivity in a porous medium, m^2/s.
    pub fn d_e_eff(self, porosity: f64, temp_k: f64) -> Result<f64, Refusal>
        ensures { outcome_of result ≡ d_e_eff_of self porosity temp_k }
    {
        check_rate(self.fits() & within(porosity, 0.01, 1.0), temp_k)?;
        finite_or_refused(self.diffusivity_eff(porosity, temp_k))
    }

    // The effective conductivity in a porous medium, S/m.
    pub fn kappa_eff(self, porosity: f64, temp_k: f64) -> Result<f64, Refusal>
        ensures { outcome_of result ≡ kappa_eff_of self porosity temp_k }
    {
        check_rate(self.fits() & within(porosity, 0.01, 1.0), temp_k)?;
        finite_or_refused(self.conductivity_eff(porosity, temp_k))
    }
}
