// A constant-current run of the single-particle cell into a lent slice. A changed translation of src/battery/p2d/solver.rs
// (`SpmSolver::simulate_discharge`).
#![tactic(auto, unfolding(crate::specs::Discharge::over_after, crate::specs::Discharge::started, crate::specs::Discharge::followed, crate::specs::Discharge::turned, crate::specs::Discharge::finished_run))]

ghost use Rattle.std.specs.Prelude.{◌≡◌, ◌<◌, ◌≤◌, ◌^◌, ◌*◌, length};
ghost use Rattle.refusal.specs.Refusals.{refusal_of};
ghost use Rattle.runs.specs.Endings.{over_number};
ghost use Rattle.runs.specs.Lowest.{group_count, summary, room_of};
ghost use Rattle.discharge_run.specs.States.{state_of};
ghost use Rattle.discharge_run.specs.Discharge.{time_over, over_after, started, turned, row_of, run_outcome, finished_run, all_turns, all_rows, run_refusal, discharged, discharged_rows, discharged_lowest, run_settings};

use refusal::{Refusal, interval_fits, is_finite, load_fits, refuse_unless, temperature_fits};
use runs::lowest::{room_fits, update_lowest};
use runs::{Ending, put_row};
use solver::SpmSolver;
use solver_step::report::SpmState;

// What each step of a run is given, and the run's time limit.
#[derive(Clone, Copy)]
pub struct RunSettings {
    pub current_a: f64,
    pub dt: f64,
    pub temp_k: f64,
    pub max_time_s: f64,
}

// A run on its way: the cell, the run's own clock, the rows so far, what has ended it, full where nothing has, the last report.
#[derive(Clone, Copy)]
pub struct RunState {
    pub solver: SpmSolver,
    pub clock: f64,
    pub rows: usize,
    pub ending: Ending,
    pub state: SpmState,
}

// What a run of the cell gives: how it ended, how many rows it wrote, and the cell after them.
#[derive(Clone, Copy)]
pub struct CellRun {
    pub ending: Ending,
    pub rows: usize,
    pub solver: SpmSolver,
}

// Whether the time is over.
fn time_over(w: RunSettings, clock: f64) -> bool
    ensures { result ≡ time_over w clock }
{
    !(clock < w.max_time_s)
}

// What ends the run after a row: the voltage, then the time.
fn ending_after(w: RunSettings, cutoff: bool, clock: f64) -> Ending
    ensures { over_number result ≡ over_after w cutoff clock }
{
    if cutoff {
        return Ending::Voltage;
    }
    if time_over(w, clock) {
        return Ending::Time;
    }
    Ending::Full
}

// The run before its first step.
fn start(w: RunSettings, s: SpmSolver) -> RunState
    ensures { state_of result ≡ started w s }
{
    RunState {
        solver: s,
        clock: 0.0,
        rows: 0,
        ending: ending_after(w, false, 0.0),
        state: solver_step::report::no_state(),
    }
}

// One turn of a run that goes on.
fn turn(w: RunSettings, s: RunState) -> RunState
    requires { s.rows < 2 ^ 61 }
    ensures { state_of result ≡ turned w (state_of s) }
{
    match s.solver.step(w.current_a, w.dt, w.temp_k) {
        Ok(t) => {
            let clock = s.clock + w.dt;
            RunState {
                solver: t.solver,
                clock,
                rows: s.rows + 1,
                ending: ending_after(w, t.state.cutoff, clock),
                state: t.state,
            }
        }
        Err(e) => RunState {
            ending: Ending::Refused(e),
            ..s
        },
    }
}

// The row of a report: its eight fields, the cutoff as 1 or 0.
pub fn row_of(s: SpmState) -> [f64; 8]
    ensures { result ≡ row_of s }
{
    [
        s.voltage,
        s.current,
        s.theta_neg,
        s.theta_pos,
        s.theta_neg_avg,
        s.theta_pos_avg,
        s.time_s,
        f64::from(s.cutoff),
    ]
}

// What a run that has stopped gives.
// Each kind of run has its own: a trait for the three fields is no plainer.
fn finished(s: RunState) -> CellRun
    ensures { run_outcome result ≡ finished_run (state_of s) }
{
    CellRun {
        ending: s.ending,
        rows: s.rows,
        solver: s.solver,
    }
}

// What refuses the whole run: 1, 10, 2, 3, 4, 5.
#[tactic(auto, unfolding(refusal::specs::Numbers::refusal_unless, refusal::specs::Numbers::first_refusal, solver::specs::Cell::cell_refusal, crate::specs::Discharge::run_refusal))]
fn check_run(w: RunSettings, s: SpmSolver, rows: usize, lowest: usize) -> Result<(), Refusal>
    ensures { refusal_of result ≡ run_refusal w s (room_of rows lowest) }
{
    refuse_unless(s.grid_fits(), Refusal::Grid)?;
    refuse_unless(room_fits(rows, lowest), Refusal::Length)?;
    s.check()?;
    refuse_unless(load_fits(w.current_a, 1e6), Refusal::Load)?;
    let times = interval_fits(w.dt) & is_finite(w.max_time_s);
    refuse_unless(times, Refusal::Interval)?;
    refuse_unless(temperature_fits(w.temp_k), Refusal::Temperature)
}

// At most `total` turns of a run, each step with its row and the lowest voltage of its group.
// A loop of its own, and not `runs::turns::run_turns`: the paper has the summary updated as each row is written.
fn run_rows(
    w: RunSettings,
    first: RunState,
    out: &mut [f64],
    lowest: &mut [f64],
    total: usize,
) -> CellRun
    requires { (first.rows ≡ 0) × ((total < 2 ^ 61) × ((total * 8 ≤ length out.old) × (group_count total ≤ length lowest.old))) }
    ensures result { run_outcome result ≡ all_turns w (state_of first) total }
    ensures rows { out.new ≡ all_rows w (state_of first) total out.old }
    ensures lowest { lowest.new ≡ summary (all_turns w (state_of first) total).rows (all_rows w (state_of first) total out.old) lowest.old }
{
    let mut run = first;
    if !run.ending.goes_on() {
        return finished(run);
    }
    for i in 0..total {
        run = turn(w, run);
        if run.ending.is_refused() {
            return finished(run);
        }
        let row = row_of(run.state);
        put_row(out, i * 8, row);
        update_lowest(lowest, i, row[0]);
        if !run.ending.goes_on() {
            return finished(run);
        }
    }
    finished(run)
}

// Discharges, or charges at a negative current, until the voltage, the time or a refusal ends the run or the slice is full. `lowest` is kept beside the
// rows: the lowest voltage of each group of 64.
// WARNING: see `SpmSolver::step`; a run may sit at one voltage until its time is over.
pub fn simulate_discharge(
    s: SpmSolver,
    current_a: f64,
    dt: f64,
    temp_k: f64,
    max_time_s: f64,
    out: &mut [f64],
    lowest: &mut [f64],
) -> CellRun
    ensures result { run_outcome result ≡ discharged (run_settings current_a dt temp_k max_time_s) s (room_of (length out.old) (length lowest.old)) }
    ensures rows { out.new ≡ discharged_rows (run_settings current_a dt temp_k max_time_s) s out.old lowest.old }
    ensures lowest { lowest.new ≡ discharged_lowest (run_settings current_a dt temp_k max_time_s) s out.old lowest.old }
{
    let w = RunSettings {
        current_a,
        dt,
        temp_k,
        max_time_s,
    };
    if let Err(e) = check_run(w, s, out.len(), lowest.len()) {
        return CellRun {
            ending: Ending::Refused(e),
            rows: 0,
            solver: s,
        };
    }
    let total = out.len() / 8;
    run_rows(w, start(w, s), out, lowest, total)
}
