// The kinetics of a single-particle cell: its configuration, the flux at the particles' surfaces, the overpotential and the
// terminal voltage. A changed translation of src/battery/p2d/solver.rs.
#![tactic(auto, unfolding(crate::specs::Kinetics::surface_current, crate::specs::Kinetics::exchange, crate::specs::Kinetics::overpotential))]

ghost use Rattle.std.specs.Prelude.{◌≡◌};
ghost use Rattle.particle.specs.Particle.{particle_of};
ghost use Rattle.kinetics.specs.Kinetics.{config_fits, surface_current, exchange, overpotential, terminal_voltage};

use electrode::ElectrodeParams;
use particle::ParticleView;
use refusal::within;

#[derive(Clone, Copy)]
pub struct SpmConfig {
    // Radial nodes of each particle.
    pub n_nodes: usize,
    // Voltage limits, V, in either order.
    pub v_min: f64,
    pub v_max: f64,
    // Faraday constant, C/mol.
    pub faraday: f64,
    // Gas constant, J/(mol K).
    pub r_gas: f64,
    // Resistance of the electrolyte, ohm m^2.
    pub r_electrolyte_ohm_m2: f64,
}

impl SpmConfig {
    // Whether every field but the count of nodes is in its range.
    pub fn fits(self) -> bool
        ensures { result ≡ config_fits self }
    {
        within(self.v_min, -10.0, 10.0)
            & within(self.v_max, -10.0, 10.0)
            & within(self.faraday, 9e4, 1e5)
            & within(self.r_gas, 8.0, 9.0)
            & within(self.r_electrolyte_ohm_m2, 0.0, 1.0)
    }
}

// What a molar flux at the surfaces carries, as a current of the electrode's area: a_s * L * F.
pub fn surface_current(p: ElectrodeParams, faraday: f64) -> f64
    ensures { result ≡ surface_current p faraday }
{
    p.area_per_volume() * p.thickness * faraday
}

// The exchange current density at a particle's surface, mol/(m^2 s), with the electrolyte at 1,000 mol/m^3.
fn exchange_current(p: &ParticleView<'_>) -> f64
    ensures { result ≡ exchange (particle_of p.now.params p.now.n p.now.c.now) }
{
    let params = p.params;
    let theta_s = min_max::clamp(p.surface_theta(), 0.01, 0.99);
    let c_ss = theta_s * params.c_s_max;
    params.k_bv * square_root::sqrt(c_ss * (params.c_s_max - c_ss) * 1000.0)
}

// The Butler-Volmer overpotential at a flux, symmetric, V.
pub fn bv_overpotential(config: SpmConfig, j_n: f64, p: &ParticleView<'_>, temp_k: f64) -> f64
    ensures { result ≡ overpotential config j_n (particle_of p.now.params p.now.n p.now.c.now) temp_k }
{
    let i_0_mol = exchange_current(p);
    if i_0_mol < 1e-30 {
        return 0.0;
    }
    let arg = j_n / (2.0 * i_0_mol);
    2.0 * config.r_gas * temp_k / config.faraday * elementary::asinh(arg)
}

// The terminal voltage from the potentials and the drop in the electrolyte, which has the current's sign: it lowers the voltage on
// discharge and raises it on charge.
pub fn terminal_voltage(u_neg: f64, u_pos: f64, eta_neg: f64, eta_pos: f64, v_ohm: f64) -> f64
    ensures { result ≡ terminal_voltage u_neg u_pos eta_neg eta_pos v_ohm }
{
    (u_pos + eta_pos) - (u_neg + eta_neg) - v_ohm
}
