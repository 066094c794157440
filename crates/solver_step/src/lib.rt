// A step of the single-particle cell: it is planned (`plan`), followed here by the sub-steps on lent profiles, and reported (`report`). Of
// oxigrid's src/battery/p2d/solver.rs, changed. The area is the anode's; what does not change within a step is worked out once.
#![tactic(auto)]

pub mod plan;
pub mod report;

ghost use Rattle.std.specs.Prelude.{◌≡◌};
ghost use Rattle.solver_step.specs.Answers.{reported_by};
ghost use Rattle.solver_step.specs.Moves.{counted, step_in_place, followed_on};

use electrode::ElectrodeParams;
use kinetics::SpmConfig;
use particle::{ParticleView, advance};
use plan::Plan;
use profile::{Nodes, profile_finite};
use refusal::{Refusal, refuse_unless};
use report::{SpmState, finite_with, reported, surface_state};

// A cell without its profiles.
#[derive(Clone, Copy)]
pub struct SpmParts {
    pub config: SpmConfig,
    pub neg: ElectrodeParams,
    pub n_neg: usize,
    pub pos: ElectrodeParams,
    pub n_pos: usize,
    pub time_s: f64,
}

// The counts of both particles' nodes, in their limits.
#[derive(Clone, Copy)]
pub struct SpmNodes {
    pub neg: Nodes,
    pub pos: Nodes,
}

// What a step on lent profiles reports.
#[derive(Clone, Copy)]
pub struct SpmReport {
    pub state: SpmState,
    pub sub_steps: u64,
}

// The sub-steps of a plan and the report after them; the profiles stay as they were where a number is not finite.
#[tactic(auto, unfolding(crate::specs::Moves::followed_on, crate::specs::Moves::finished_on, crate::specs::Moves::finite_on, crate::specs::Moves::report_on, crate::specs::Moves::profile_after, refusal::specs::Numbers::refusal_unless))]
pub fn follow(
    q: SpmParts,
    n: &SpmNodes,
    p: Plan,
    c_neg: &mut [f64; 64],
    c_pos: &mut [f64; 64],
    current_a: f64,
    dt: f64,
    temp_k: f64,
) -> Result<SpmReport, Refusal>
    ensures { step_in_place (reported_by result) c_neg.new c_pos.new ≡ followed_on (counted q n.now) p c_neg.old c_pos.old current_a dt temp_k }
{
    let sub_steps = min_max::ceil_count(p.q);
    let k = sub_steps as usize;
    let h = dt / std::num::nearest_u64_to_f64(sub_steps);
    let neg = advance(q.neg, n.neg, *c_neg, p.d_neg, p.j_neg, h, k);
    let pos = advance(q.pos, n.pos, *c_pos, p.d_pos, p.j_pos, h, k);
    let new_neg = ParticleView {
        params: q.neg,
        n: n.neg,
        c: &neg,
    };
    let new_pos = ParticleView {
        params: q.pos,
        n: n.pos,
        c: &pos,
    };
    let anode = surface_state(q.config, &new_neg, p.j_neg, temp_k);
    let cathode = surface_state(q.config, &new_pos, p.j_pos, temp_k);
    let i_app = current_a / q.neg.area;
    let state = reported(q.config, i_app, anode, cathode, current_a, q.time_s + dt);
    let finite = finite_with(profile_finite(&neg) & profile_finite(&pos), state);
    refuse_unless(finite, Refusal::NotFinite)?;
    *c_neg = neg;
    *c_pos = pos;
    Ok(SpmReport { state, sub_steps })
}
