// A charger's phases on the single-particle cell, one row a step, into a lent slice: a list of phases, repeated, under a budget of steps.
#![tactic(auto, unfolding(crate::specs::Counters::over_by, crate::specs::Counters::started_at, crate::specs::Counters::AcceptedAt, crate::specs::Counters::refused_at, crate::specs::Counters::followed_at, crate::specs::Counters::turned_at))]

pub mod phases;

ghost use Rattle.std.specs.Prelude.{◌≡◌, ◌<◌, ◌≤◌, ◌^◌, ◌*◌, length};
ghost use Rattle.refusal.specs.Refusals.{refusal_of};
ghost use Rattle.runs.specs.Endings.{over_number};
ghost use Rattle.discharge_run.specs.Discharge.{run_outcome};
ghost use Rattle.cycle_run.specs.States.{state_of};
ghost use Rattle.cycle_run.specs.States as States;
ghost use Rattle.cycle_run.specs.Walk.{keeps};
ghost use Rattle.cycle_run.specs.Cycle.{counts_refusal, cycle_refusal, cycled, cycled_rows, cycle_settings};
ghost use Rattle.cycle_run.specs.Counters.{Inside, first_position, moved_on, next_position, over_at, row_at, over_by, started_at, turned_at, finished_at};

use discharge_run::{CellRun, row_of};
use phases::{Phase, current_of, loads_fit, phase_over, times_fit};
use refusal::{Refusal, interval_fits, refuse_unless, temperature_fits};
use runs::Ending;
use runs::turns::{Turns, run_turns};
use solver::SpmSolver;
use solver_step::report::SpmState;

// How many of the eight phases are meant, how often they are repeated, the most steps, and what every step is given.
#[derive(Clone, Copy)]
pub struct CycleSettings {
    pub count: usize,
    pub repeats: usize,
    pub budget: usize,
    pub dt: f64,
    pub temp_k: f64,
}

// The eight phases, and how they are gone through.
// Eight, of which `count` are meant: C lends as many, and no heap holds them.
#[derive(Clone, Copy)]
pub struct Charger {
    pub phases: [Phase; 8],
    pub settings: CycleSettings,
}

// Where a cycle stands: the place of the phase under way, the repeats that are left with this one, 0 where the last phase has ended, and the phase's clock.
#[derive(Clone, Copy)]
pub struct Position {
    pub place: usize,
    pub repeats_left: usize,
    pub clock: f64,
}

// A cycle on its way: the cell, where it stands, the rows so far, what has ended it, full where nothing has, the last report.
#[derive(Clone, Copy)]
pub struct CycleState {
    pub solver: SpmSolver,
    pub position: Position,
    pub rows: usize,
    pub ending: Ending,
    pub state: SpmState,
}

// The first phase of the first repeat.
pub fn first_position(g: CycleSettings) -> Position
    ensures { result ≡ first_position g }
{
    Position {
        place: 0,
        repeats_left: g.repeats,
        clock: 0.0,
    }
}

// The position where the next phase begins: the next place, or the first of the next repeat.
fn moved_on(g: CycleSettings, q: Position) -> Position
    requires { Inside g q }
    ensures { result ≡ moved_on g q }
{
    let clock = 0.0;
    let next = q.place + 1;
    if next < g.count {
        return Position {
            place: next,
            repeats_left: q.repeats_left,
            clock,
        };
    }
    Position {
        place: 0,
        repeats_left: q.repeats_left - 1,
        clock,
    }
}

// The position after a step with this cutoff: the phase goes on, or the next one begins.
// It takes what it always took: docs/DECISIONS.md names it.
pub fn next_position(phases: [Phase; 8], g: CycleSettings, q: Position, cutoff: bool) -> Position
    requires { Inside g q }
    ensures { result ≡ next_position phases g q cutoff }
{
    let place = q.place;
    let clock = q.clock + g.dt;
    if phase_over(phases[place], cutoff, clock) {
        return moved_on(g, q);
    }
    Position {
        place,
        repeats_left: q.repeats_left,
        clock,
    }
}

// What ends the cycle after a row: done, then spent.
fn ending_after(g: CycleSettings, q: Position, rows: usize) -> Ending
    ensures { over_number result ≡ over_by g q rows }
{
    if q.repeats_left == 0 {
        return Ending::Done;
    }
    if g.budget <= rows {
        return Ending::Spent;
    }
    Ending::Full
}

// The cycle before its first step.
fn start(g: CycleSettings, s: SpmSolver) -> CycleState
    ensures { state_of result ≡ started_at g s }
{
    CycleState {
        solver: s,
        position: first_position(g),
        rows: 0,
        ending: Ending::Full,
        state: solver_step::report::no_state(),
    }
}

impl Turns for Charger {
    type State = CycleState;

    ghost View = { States.CycleState };

    ghost see = { state_of };

    ghost over = { over_at };

    ghost turned = { λ w. turned_at w.phases w.settings };

    ghost row_of = { row_at };

    ghost ready = { λ w i r. (r.rows ≡ i) × Inside w.settings r.position };

    ghost keeps = { λ w i r h z. keeps w.phases w.settings i r h z };

    // A step with the current of the phase under way.
    fn turn(&self, s: CycleState) -> CycleState {
        let g = self.settings;
        let phase = self.phases[s.position.place];
        match s.solver.step(current_of(phase), g.dt, g.temp_k) {
            Ok(t) => {
                let position = next_position(self.phases, g, s.position, t.state.cutoff);
                let rows = s.rows + 1;
                CycleState {
                    solver: t.solver,
                    position,
                    rows,
                    ending: ending_after(g, position, rows),
                    state: t.state,
                }
            }
            Err(e) => CycleState {
                ending: Ending::Refused(e),
                ..s
            },
        }
    }

    fn row(&self, s: &CycleState) -> [f64; 8] {
        row_of(s.state)
    }

    fn ending(&self, s: &CycleState) -> Ending {
        s.ending
    }
}

// What a cycle that has stopped gives.
// Each kind of run has its own: a trait for the three fields is no plainer.
fn finished(s: CycleState) -> CellRun
    ensures { run_outcome result ≡ finished_at (state_of s) }
{
    CellRun {
        ending: s.ending,
        rows: s.rows,
        solver: s.solver,
    }
}

// 1 for the cell's grid and the three counts, then 10 for a slice with fewer than eight places for each step of the budget.
#[tactic(auto, unfolding(refusal::specs::Numbers::refusal_unless, refusal::specs::Numbers::first_refusal, crate::specs::Cycle::counts_refusal))]
pub fn check_counts(g: CycleSettings, s: SpmSolver, places: usize) -> Result<(), Refusal>
    ensures { refusal_of result ≡ counts_refusal g s places }
{
    let counts = (1 <= g.count)
        & (g.count <= 8)
        & ((1 <= g.repeats) & (g.repeats <= 1000))
        & ((1 <= g.budget) & (g.budget <= 100000));
    refuse_unless(s.grid_fits() & counts, Refusal::Grid)?;
    refuse_unless(g.budget <= places / 8, Refusal::Length)
}

// What refuses the whole cycle: 1, 10, 2, 3, 4, 5.
#[tactic(auto, unfolding(refusal::specs::Numbers::refusal_unless, refusal::specs::Numbers::first_refusal, solver::specs::Cell::cell_refusal, crate::specs::Cycle::counts_refusal, crate::specs::Cycle::cycle_refusal))]
fn check_cycle(
    phases: [Phase; 8],
    g: CycleSettings,
    s: SpmSolver,
    places: usize,
) -> Result<(), Refusal>
    ensures { refusal_of result ≡ cycle_refusal phases g s places }
{
    check_counts(g, s, places)?;
    s.check()?;
    refuse_unless(loads_fit(phases, g.count), Refusal::Load)?;
    let times = interval_fits(g.dt) & times_fit(phases, g.count);
    refuse_unless(times, Refusal::Interval)?;
    refuse_unless(temperature_fits(g.temp_k), Refusal::Temperature)
}

// The first `count` phases, `repeats` times: a charge or a discharge until its first row beyond the voltage window, a rest for its time. It ends as done when the last
// phase has ended, as spent when the budget of steps is made before, or refused.
// WARNING: see `SpmSolver::step`; a discharge may sit at one voltage until the budget is spent.
pub fn cycle(
    s: SpmSolver,
    phases: [Phase; 8],
    count: usize,
    repeats: usize,
    budget: usize,
    dt: f64,
    temp_k: f64,
    out: &mut [f64],
) -> CellRun
    ensures result { run_outcome result ≡ cycled phases (cycle_settings count repeats budget dt temp_k) s (length out.old) }
    ensures rows { out.new ≡ cycled_rows phases (cycle_settings count repeats budget dt temp_k) s out.old }
{
    let g = CycleSettings {
        count,
        repeats,
        budget,
        dt,
        temp_k,
    };
    if let Err(e) = check_cycle(phases, g, s, out.len()) {
        return CellRun {
            ending: Ending::Refused(e),
            rows: 0,
            solver: s,
        };
    }
    let charger = Charger {
        phases,
        settings: g,
    };
    let mut run = start(g, s);
    run_turns(&charger, &mut run, budget, out);
    finished(run)
}
