// A run of the Doyle-Fuller-Newman cell at one current, with a row of eight places for each step in a lent slice. A changed translation of
// src/battery/p2d/dfn.rs (`run_galvanostatic`).
#![tactic(auto, unfolding(crate::specs::Galvanostatic::over_after, crate::specs::Galvanostatic::started, crate::specs::Galvanostatic::followed, crate::specs::Galvanostatic::turned))]

ghost use Rattle.std.specs.Prelude.{◌≡◌, ◌*◌, ◌^◌, ◌≤◌, ◌<◌, length};
ghost use Rattle.refusal.specs.Refusals.{refusal_of};
ghost use Rattle.runs.specs.Endings.{over_number, going_on_of};
ghost use Rattle.runs.specs.Lowest.{group_count, summary, room_of};
ghost use Rattle.galvanostatic_run.specs.States.{state_of};
ghost use Rattle.galvanostatic_run.specs.Galvanostatic.{over_after, row_of, turned, started, run_outcome, finished_run, all_turns, all_rows, run_refusal, galvanostatic, galvanostatic_rows, galvanostatic_lowest};

use dfn::{DfnSolver, DfnStep};
use refusal::{Refusal, is_finite, refuse_unless};
use runs::lowest::{room_fits, update_lowest};
use runs::{Ending, put_row};

// The current, A, the interval and the time limit, s.
#[derive(Clone, Copy)]
pub struct RunSettings {
    pub current: f64,
    pub dt: f64,
    pub limit: f64,
}

// A run on its way: the cell, the last row, how many rows there are, what has ended it, full where nothing has.
#[derive(Clone, Copy)]
pub struct RunState {
    pub cell: DfnSolver,
    pub row: [f64; 8],
    pub rows: usize,
    pub ending: Ending,
}

// What a run answers: how it ended, how many rows it wrote, and the cell after them.
#[derive(Clone, Copy)]
pub struct DfnRun {
    pub ending: Ending,
    pub rows: usize,
    pub cell: DfnSolver,
}

// The ending that holds after a step: voltage, then time, else full.
fn ending_after(limit: f64, r: DfnStep) -> Ending
    ensures { over_number result ≡ over_after limit r }
{
    if r.cutoff {
        return Ending::Voltage;
    }
    if r.time_s >= limit {
        return Ending::Time;
    }
    Ending::Full
}

// The row of a step. The last place is the report's newton_iter, always 1.
fn row_of(r: DfnStep) -> [f64; 8]
    ensures { result ≡ row_of r }
{
    [
        r.voltage,
        r.current,
        r.time_s,
        r.theta_neg,
        r.theta_pos,
        r.delta_c_e_max,
        f64::from(r.cutoff),
        1.0,
    ]
}

// One turn of a run that is not over.
// In place, for the stack of a run from C (docs/DECISIONS.md, 68).
fn turn(w: RunSettings, run: &mut RunState)
    requires { run.old.rows < 2 ^ 61 }
    ensures { state_of run.new ≡ turned w (state_of run.old) }
{
    match run.cell.step(w.current, w.dt) {
        Ok(t) => {
            run.cell = t.cell;
            run.row = row_of(t.report);
            run.rows += 1;
            run.ending = ending_after(w.limit, t.report);
        }
        Err(e) => run.ending = Ending::Refused(e),
    }
}

// The run before its first step.
// This and `finished` are inlined and `check_run` is not for the stack of a run from C (docs/DECISIONS.md, 68).
#[inline(always)]
fn start(cell: DfnSolver) -> RunState
    ensures { state_of result ≡ started cell }
{
    RunState {
        cell,
        row: [0.0; 8],
        rows: 0,
        ending: Ending::Full,
    }
}

// What a run that has stopped answers.
#[inline(always)]
fn finished(s: RunState) -> DfnRun
    ensures { run_outcome result ≡ finished_run (state_of s) }
{
    DfnRun {
        ending: s.ending,
        rows: s.rows,
        cell: s.cell,
    }
}

// At most `total` turns of a run, each step with its row and the lowest voltage of its group.
// A loop of its own, and not `runs::turns::run_turns`: the paper has the summary updated as each row is written.
fn run_rows(
    w: RunSettings,
    first: RunState,
    out: &mut [f64],
    lowest: &mut [f64],
    total: usize,
) -> DfnRun
    requires { (over_number first.ending ≡ going_on_of) × ((first.rows ≡ 0) × ((total < 2 ^ 61) × ((total * 8 ≤ length out.old) × (group_count total ≤ length lowest.old)))) }
    ensures answer { run_outcome result ≡ all_turns w (state_of first) total }
    ensures rows { out.new ≡ all_rows w (state_of first) total out.old }
    ensures lowest { lowest.new ≡ summary (all_turns w (state_of first) total).rows (all_rows w (state_of first) total out.old) lowest.old }
{
    let mut run = first;
    for i in 0..total {
        turn(w, &mut run);
        if run.ending.is_refused() {
            return finished(run);
        }
        put_row(out, i * 8, run.row);
        update_lowest(lowest, i, run.row[0]);
        if !run.ending.goes_on() {
            return finished(run);
        }
    }
    finished(run)
}

// What refuses the whole run: 1, 10, 2, 3, 4.
#[inline(never)]
#[tactic(auto, unfolding(refusal::specs::Numbers::refusal_unless, refusal::specs::Numbers::first_refusal, crate::specs::Galvanostatic::run_refusal))]
fn check_run(cell: DfnSolver, w: RunSettings, rows: usize, lowest: usize) -> Result<(), Refusal>
    ensures { refusal_of result ≡ run_refusal cell w (room_of rows lowest) }
{
    refuse_unless(cell.config.grid_fits(), Refusal::Grid)?;
    refuse_unless(room_fits(rows, lowest), Refusal::Length)?;
    cell.check_step(w.current, w.dt)?;
    refuse_unless(is_finite(w.limit), Refusal::Interval)
}

// Runs the cell at a current, A, by intervals of dt_s, until a voltage outside the limits, the cell's clock at max_time_s, or the end of the rows. `lowest` is
// kept beside the rows: the lowest voltage of each group of 64.
// WARNING: see `DfnSolver::step`.
pub fn run_galvanostatic(
    cell: DfnSolver,
    current_a: f64,
    dt_s: f64,
    max_time_s: f64,
    rows: &mut [f64],
    lowest: &mut [f64],
) -> DfnRun
    ensures answer { run_outcome result ≡ galvanostatic cell current_a dt_s max_time_s (room_of (length rows.old) (length lowest.old)) }
    ensures rows { rows.new ≡ galvanostatic_rows cell current_a dt_s max_time_s rows.old lowest.old }
    ensures lowest { lowest.new ≡ galvanostatic_lowest cell current_a dt_s max_time_s rows.old lowest.old }
{
    let w = RunSettings {
        current: current_a,
        dt: dt_s,
        limit: max_time_s,
    };
    if let Err(e) = check_run(cell, w, rows.len(), lowest.len()) {
        return DfnRun {
            ending: Ending::Refused(e),
            rows: 0,
            cell,
        };
    }
    let total = rows.len() / 8;
    run_rows(w, start(cell), rows, lowest, total)
}
