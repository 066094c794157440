// The report of a step of the single-particle cell, from what both particles show at their surfaces. Of oxigrid's
// src/battery/p2d/solver.rs (`step`), changed.
ghost use Rattle.std.specs.Prelude.{◌≡◌};
ghost use Rattle.particle.specs.Particle.{particle_of};
ghost use Rattle.solver_step.specs.Report.{surface_state, report_with, finite_with, no_state};

use kinetics::{SpmConfig, bv_overpotential, terminal_voltage};
use particle::ParticleView;

// What a step reports.
#[derive(Clone, Copy)]
pub struct SpmState {
    // Terminal voltage, V.
    pub voltage: f64,
    // Current, A, positive on discharge.
    pub current: f64,
    // Stoichiometries at the surfaces, then averages.
    pub theta_neg: f64,
    pub theta_pos: f64,
    pub theta_neg_avg: f64,
    pub theta_pos_avg: f64,
    // Clock, s.
    pub time_s: f64,
    // Whether the voltage left its limits.
    pub cutoff: bool,
}

// What a particle shows at its surface: see `surface_state`.
#[derive(Clone, Copy)]
pub struct SurfaceState {
    pub theta: f64,
    pub theta_avg: f64,
    pub potential: f64,
    pub overpotential: f64,
}

// The report of a cell that has made no step: every number +0.
#[tactic(auto, unfolding(crate::specs::Report::no_state))]
pub fn no_state() -> SpmState
    ensures { result ≡ no_state }
{
    SpmState {
        voltage: 0.0,
        current: 0.0,
        theta_neg: 0.0,
        theta_pos: 0.0,
        theta_neg_avg: 0.0,
        theta_pos_avg: 0.0,
        time_s: 0.0,
        cutoff: false,
    }
}

// What a particle after the sub-steps shows at its surface: its stoichiometries, there and on average, its open-circuit
// potential, and the overpotential of its flux.
pub fn surface_state(config: SpmConfig, p: &ParticleView<'_>, j_n: f64, temp_k: f64) -> SurfaceState
    ensures { result ≡ surface_state config (particle_of p.now.params p.now.n p.now.c.now) j_n temp_k }
{
    SurfaceState {
        theta: p.surface_theta(),
        potential: p.surface_potential(),
        overpotential: bv_overpotential(config, j_n, p, temp_k),
        theta_avg: p.average_theta(),
    }
}

// The report of a step, from both surfaces.
pub fn reported(
    config: SpmConfig,
    i_app: f64,
    neg: SurfaceState,
    pos: SurfaceState,
    current_a: f64,
    time_s: f64,
) -> SpmState
    ensures { result ≡ report_with config i_app neg pos current_a time_s }
{
    let eta_neg = -neg.overpotential;
    let eta_pos = -pos.overpotential;
    let v_ohm = i_app * config.r_electrolyte_ohm_m2;
    let voltage = terminal_voltage(neg.potential, pos.potential, eta_neg, eta_pos, v_ohm);
    SpmState {
        voltage,
        current: current_a,
        theta_neg: neg.theta,
        theta_pos: pos.theta,
        theta_neg_avg: neg.theta_avg,
        theta_pos_avg: pos.theta_avg,
        time_s,
        cutoff: (voltage < config.v_min) | (voltage > config.v_max),
    }
}

// Whether the profiles after the sub-steps, as tested, and the report hold numbers only; the current is the one that was given.
pub fn finite_with(profiles: bool, r: SpmState) -> bool
    ensures { result ≡ finite_with profiles r }
{
    profiles
        & refusal::is_finite(r.voltage)
        & refusal::is_finite(r.theta_neg)
        & refusal::is_finite(r.theta_pos)
        & refusal::is_finite(r.theta_neg_avg)
        & refusal::is_finite(r.theta_pos_avg)
        & refusal::is_finite(r.time_s)
}
