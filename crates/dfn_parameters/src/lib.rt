// The parameters and the grid of the Doyle-Fuller-Newman cell. A changed translation of src/battery/p2d/dfn.rs (`DfnParams`, `DfnConfig`);
// the Newton settings are left out, and a polynomial's coefficients stand in an array with their count beside it.
#![tactic(auto)]

pub mod fit;

ghost use Rattle.std.specs.Prelude.{◌≡◌, ◌≤◌, IfOk};
ghost use Rattle.refusal.specs.Numbers.{refusal_unless, sheet};
ghost use Rattle.refusal.specs.Refusals.{refusal_of};
ghost use Rattle.dfn_parameters.specs.Ranges.{side_fits, numbers_fit, coefficients_fit, parameters_fit, grid_fits, limits_fit};
ghost use Rattle.dfn_parameters.specs.Ready.{nmc_graphite, lfp_graphite};
ghost use Rattle.dfn_parameters.specs.Sides.{anode_of, cathode_of, area_of, pore_flux, horner};

pub use fit::FitParams;
use refusal::{Refusal, count_within, refuse_unless, within};

#[derive(Clone, Copy)]
pub struct DfnParams {
    // Thickness of the anode, the separator and the cathode, m; area of the plates, m^2.
    pub l_neg: f64,
    pub l_sep: f64,
    pub l_pos: f64,
    pub area: f64,
    // Anode: particle radius, m; diffusivity in the solid, m^2/s; largest concentration, mol/m^3; volume fraction;
    // stoichiometry at the start; rate constant.
    pub r_neg: f64,
    pub d_s_neg_ref: f64,
    pub c_s_neg_max: f64,
    pub eps_neg: f64,
    pub theta_neg_0: f64,
    pub k_neg: f64,
    // Cathode, the same.
    pub r_pos: f64,
    pub d_s_pos_ref: f64,
    pub c_s_pos_max: f64,
    pub eps_pos: f64,
    pub theta_pos_0: f64,
    pub k_pos: f64,
    // Electrolyte: reference concentration, mol/m^3; diffusivity there, m^2/s; how fast that falls; transference number;
    // conductivity, S/m; volume fraction in the electrodes and in the separator; Bruggeman exponent.
    pub c_e0: f64,
    pub d_e0: f64,
    pub gamma_e: f64,
    pub t_plus: f64,
    pub kappa0: f64,
    pub eps_e_elec: f64,
    pub eps_e_sep: f64,
    pub brugg: f64,
    // Temperature, K.
    pub temperature_k: f64,
    // Coefficients of the open-circuit potentials, the highest power first; the places from the count on are +0.
    pub ocv_neg_count: usize,
    pub ocv_neg_coeffs: [f64; 16],
    pub ocv_pos_count: usize,
    pub ocv_pos_coeffs: [f64; 16],
}

#[derive(Clone, Copy)]
pub struct DfnConfig {
    // Nodes along the anode and the cathode, and along a particle's radius.
    pub n_x_neg: usize,
    pub n_x_pos: usize,
    pub n_r: usize,
    // Limits of the terminal voltage, V.
    pub v_min: f64,
    pub v_max: f64,
}

// One of the two electrodes.
#[derive(Clone, Copy)]
pub struct Side {
    pub l: f64,
    pub r: f64,
    pub d_s_ref: f64,
    pub c_s_max: f64,
    pub eps: f64,
    pub theta_0: f64,
    pub k: f64,
}

impl DfnParams {
    // A typical cell of graphite and NMC.
    pub fn nmc_graphite() -> DfnParams
        ensures { result ≡ nmc_graphite }
    {
        DfnParams {
            l_neg: 88e-6,
            l_sep: 25e-6,
            l_pos: 80e-6,
            area: 1.0,
            r_neg: 12.5e-6,
            d_s_neg_ref: 3.9e-14,
            c_s_neg_max: 31833.0,
            eps_neg: 0.3,
            theta_neg_0: 0.8,
            k_neg: 1e-5,
            r_pos: 8.5e-6,
            d_s_pos_ref: 1.0e-14,
            c_s_pos_max: 51218.0,
            eps_pos: 0.3,
            theta_pos_0: 0.5,
            k_pos: 3e-6,
            c_e0: 1200.0,
            d_e0: 2.6e-10,
            gamma_e: 0.5,
            t_plus: 0.38,
            kappa0: 1.0,
            eps_e_elec: 0.3,
            eps_e_sep: 0.4,
            brugg: 1.5,
            temperature_k: 298.15,
            ocv_neg_count: 2,
            ocv_neg_coeffs: [
                -1.5, 1.2, 0.0, 0.0, 0.0, 0.0, 0.0, 0.0, 0.0, 0.0, 0.0, 0.0, 0.0, 0.0, 0.0, 0.0,
            ],
            ocv_pos_count: 2,
            ocv_pos_coeffs: [
                -2.0, 4.5, 0.0, 0.0, 0.0, 0.0, 0.0, 0.0, 0.0, 0.0, 0.0, 0.0, 0.0, 0.0, 0.0, 0.0,
            ],
        }
    }

    // A cell of graphite and LFP: five fields differ. WARNING: see `DfnSolver::step`.
    pub fn lfp_graphite() -> DfnParams
        ensures { result ≡ lfp_graphite }
    {
        DfnParams {
            d_s_neg_ref: 2.0e-14,
            d_s_pos_ref: 5.9e-18,
            c_s_pos_max: 26390.0,
            k_pos: 1e-6,
            ocv_pos_coeffs: [
                -0.1, 3.45, 0.0, 0.0, 0.0, 0.0, 0.0, 0.0, 0.0, 0.0, 0.0, 0.0, 0.0, 0.0, 0.0, 0.0,
            ],
            ..DfnParams::nmc_graphite()
        }
    }

    // Whether each of the 25 numbers is in its range.
    pub fn numbers_fit(self) -> bool
        ensures { result ≡ numbers_fit self }
    {
        self.anode().fits()
            & self.cathode().fits()
            & within(self.l_sep, 1e-7, 1e-2)
            & within(self.area, 1e-6, 1e4)
            & within(self.c_e0, 1.0, 1e5)
            & within(self.d_e0, 1e-16, 1e-6)
            & within(self.gamma_e, 0.0, 1000.0)
            & within(self.t_plus, 0.0, 1.0)
            & within(self.kappa0, 1e-6, 100.0)
            & within(self.eps_e_elec, 0.01, 1.0)
            & within(self.eps_e_sep, 0.01, 1.0)
            & within(self.brugg, 0.0, 4.0)
            & refusal::temperature_fits(self.temperature_k)
    }

    // The set, or the refusal of one with a field out of its range.
    pub fn check(self) -> Result<FitParams, Refusal>
        ensures refused { refusal_of result ≡ refusal_unless (parameters_fit self) sheet }
        ensures same { IfOk result (λ f. f.params ≡ self) }
    {
        let neg = self.ocv_neg_coeffs;
        let pos = self.ocv_pos_coeffs;
        let fits = self.numbers_fit()
            & coefficients_fit(&neg, self.ocv_neg_count)
            & coefficients_fit(&pos, self.ocv_pos_count);
        refuse_unless(fits, Refusal::Sheet)?;
        Ok(FitParams { params: self })
    }

    // This and `cathode` stay two: each names seven fields of its own, which are flat as the images have them.
    pub fn anode(self) -> Side
        ensures { result ≡ anode_of self }
    {
        Side {
            l: self.l_neg,
            r: self.r_neg,
            d_s_ref: self.d_s_neg_ref,
            c_s_max: self.c_s_neg_max,
            eps: self.eps_neg,
            theta_0: self.theta_neg_0,
            k: self.k_neg,
        }
    }

    pub fn cathode(self) -> Side
        ensures { result ≡ cathode_of self }
    {
        Side {
            l: self.l_pos,
            r: self.r_pos,
            d_s_ref: self.d_s_pos_ref,
            c_s_max: self.c_s_pos_max,
            eps: self.eps_pos,
            theta_0: self.theta_pos_0,
            k: self.k_pos,
        }
    }
}

impl DfnConfig {
    // Whether the counts are in their limits.
    pub fn grid_fits(self) -> bool
        ensures { result ≡ grid_fits self }
    {
        count_within(self.n_x_neg as u64, 1, 16)
            & count_within(self.n_x_pos as u64, 1, 16)
            & count_within(self.n_r as u64, 2, 32)
    }

    // Whether the voltages are in their range.
    pub fn limits_fit(self) -> bool
        ensures { result ≡ limits_fit self }
    {
        within(self.v_min, -10.0, 10.0) & within(self.v_max, -10.0, 10.0)
    }
}

impl Side {
    // Whether each of the seven numbers is in its range.
    fn fits(self) -> bool
        ensures { result ≡ side_fits self }
    {
        within(self.l, 1e-7, 1e-2)
            & within(self.r, 1e-8, 1e-3)
            & within(self.d_s_ref, 1e-20, 1e-8)
            & within(self.c_s_max, 1.0, 131072.0)
            & within(self.eps, 0.01, 1.0)
            & within(self.theta_0, 0.0, 1.0)
            & within(self.k, 1e-16, 1.0)
    }

    // The interfacial area of a volume.
    pub fn specific_area(self) -> f64
        ensures { result ≡ area_of self }
    {
        3.0 * self.eps / self.r
    }

    // The flux through the particles' surfaces that a current asks for, over plates of an area.
    pub fn pore_flux(self, area: f64, current: f64) -> f64
        ensures { result ≡ pore_flux self area current }
    {
        current / (self.specific_area() * self.l * 96485.0 * area)
    }
}

// Whether a side has at most 16 coefficients, those used at most 1,000 in size and the other places +0.
pub fn coefficients_fit(coeffs: &[f64; 16], n: usize) -> bool
    ensures { result ≡ coefficients_fit coeffs.now n }
{
    arrays::places_fit(coeffs, n, -1000.0, 1000.0) & (n <= 16)
}

// The open-circuit potential at a stoichiometry: Horner's rule over the first n coefficients.
pub fn ocv(coeffs: &[f64; 16], n: usize, theta: f64) -> f64
    requires { n ≤ 16 }
    ensures { result ≡ horner coeffs.now theta n }
{
    let mut acc = 0.0;
    for c in &coeffs[..n] {
        acc = acc * theta + *c;
    }
    acc
}
