// What a step of the single-particle cell works with, and what is refused of it. A changed translation of
// src/battery/p2d/solver.rs (`step`).
ghost use Rattle.std.specs.Prelude.{◌≡◌};
ghost use Rattle.refusal.specs.Refusals.{refusal_of};
ghost use Rattle.solver_step.specs.Arguments.{argument_refusal};
ghost use Rattle.solver_step.specs.Plans.{plan_with, plan_refusal};

use crate::{SpmNodes, SpmParts};
use kinetics::surface_current;
use particle::stable_step;
use refusal::{Refusal, refuse_unless};

// What a step works with: diffusivities, fluxes, and the interval in units of the longest sub-step.
#[derive(Clone, Copy)]
pub struct Plan {
    pub d_neg: f64,
    pub d_pos: f64,
    pub j_neg: f64,
    pub j_pos: f64,
    pub q: f64,
}

// The plan for a current density, from the sheet and the count of nodes of each electrode. The anode's flux has the other
// sign.
pub fn plan_for(parts: SpmParts, n: &SpmNodes, i_app: f64, dt: f64, temp_k: f64) -> Plan
    ensures { result ≡ plan_with parts.neg n.now.neg parts.pos n.now.pos parts.config.faraday i_app dt temp_k }
{
    let neg = parts.neg;
    let pos = parts.pos;
    let faraday = parts.config.faraday;
    let d_neg = neg.diffusivity_at(temp_k);
    let d_pos = pos.diffusivity_at(temp_k);
    let dt_neg = stable_step(neg, n.neg, d_neg) * 0.30;
    let dt_pos = stable_step(pos, n.pos, d_pos) * 0.30;
    let dt_use = min_max::min(min_max::min(dt, dt_neg), dt_pos);
    Plan {
        d_neg,
        d_pos,
        j_neg: -i_app / surface_current(neg, faraday),
        j_pos: i_app / surface_current(pos, faraday),
        q: dt / dt_use,
    }
}

// Refuses a plan by 6, then 7.
#[tactic(auto, unfolding(crate::specs::Plans::plan_refusal, refusal::specs::Numbers::refusal_unless, refusal::specs::Numbers::first_refusal))]
pub fn check_plan(p: Plan) -> Result<(), Refusal>
    ensures { refusal_of result ≡ plan_refusal p }
{
    let within = refusal::within(p.d_neg, 1e-20, 1e-8) & refusal::within(p.d_pos, 1e-20, 1e-8);
    refuse_unless(within, Refusal::Diffusivity)?;
    refuse_unless(!(p.q > 4096.0), Refusal::SubSteps)
}

// Refuses a step by its arguments, 3 to 5.
#[tactic(auto, unfolding(refusal::specs::Numbers::refusal_unless, refusal::specs::Numbers::first_refusal))]
pub fn check_arguments(current_a: f64, dt: f64, temp_k: f64) -> Result<(), Refusal>
    ensures { refusal_of result ≡ argument_refusal current_a dt temp_k }
{
    refuse_unless(refusal::load_fits(current_a, 1e6), Refusal::Load)?;
    refuse_unless(refusal::interval_fits(dt), Refusal::Interval)?;
    refuse_unless(refusal::temperature_fits(temp_k), Refusal::Temperature)
}
