// A recorded load replayed on the single-particle cell, one row a line, into a lent slice. A line is the interval and the current, each as the sixteen
// upper-case hexadecimal digits of its bits, with a tab between them and a line feed at the end.
#![tactic(auto, unfolding(crate::specs::Replay::over_after, crate::specs::Replay::started, crate::specs::Replay::refused_line, crate::specs::Replay::followed, crate::specs::Replay::line_turned, crate::specs::Replay::turned, crate::specs::Reads::line_read))]

pub mod lines;

ghost use Rattle.std.specs.Prelude.{◌≡◌, ◌<◌, ◌≤◌, ◌^◌, ◌*◌, length};
ghost use Rattle.refusal.specs.Refusals.{number_of, refusal_of};
ghost use Rattle.runs.specs.Endings.{over_number};
ghost use Rattle.discharge_run.specs.Discharge.{run_outcome};
ghost use Rattle.replay_run.specs.Answers.{state_of};
ghost use Rattle.replay_run.specs.Answers as Answers;
ghost use Rattle.replay_run.specs.Laws.{keeps};
ghost use Rattle.replay_run.specs.Replay.{over_after, over_of, last_row_of, started, refused_line, turned, finished_replay, text_fits, replay_refusal, replayed, replayed_rows};

use discharge_run::{CellRun, row_of};
use lines::{line_at, none_left};
use refusal::{Refusal, refuse_unless, temperature_fits};
use runs::Ending;
use runs::turns::{Turns, run_turns};
use solver::SpmSolver;
use solver_step::report::SpmState;

// A replay on its way: the cell, the rows so far, which are the lines read, what has ended it, full where nothing has, the last report.
#[derive(Clone, Copy)]
pub struct ReplayState {
    pub solver: SpmSolver,
    pub rows: usize,
    pub ending: Ending,
    pub state: SpmState,
}

// A recorded load, replayed at a temperature.
#[derive(Clone, Copy)]
pub struct Recorded<'a> {
    pub text: &'a [u8],
    pub temp_k: f64,
}

// What ends the replay after a row, with so many lines read: the voltage, then done.
fn ending_after(text: &[u8], cutoff: bool, lines: usize) -> Ending
    ensures { over_number result ≡ over_after text.now cutoff lines }
{
    if cutoff {
        return Ending::Voltage;
    }
    if none_left(text, lines) {
        return Ending::Done;
    }
    Ending::Full
}

// The replay before its first line.
fn start(text: &[u8], s: SpmSolver) -> ReplayState
    ensures { state_of result ≡ started text.now s }
{
    ReplayState {
        solver: s,
        rows: 0,
        ending: ending_after(text, false, 0),
        state: solver_step::report::no_state(),
    }
}

// The replay that a refused line ends.
fn refused_line(s: ReplayState, refusal: Refusal) -> ReplayState
    ensures { state_of result ≡ refused_line (state_of s) (number_of refusal) }
{
    ReplayState {
        ending: Ending::Refused(refusal),
        ..s
    }
}

impl Turns for Recorded<'_> {
    type State = ReplayState;

    ghost View = { Answers.ReplayState };

    ghost see = { state_of };

    ghost over = { over_of };

    ghost turned = { λ w. turned w.text.now w.temp_k };

    ghost row_of = { last_row_of };

    ghost ready = { λ w i r. r.rows ≡ i };

    ghost keeps = { λ w i r h z. keeps w.text.now w.temp_k i r h z };

    // The line of a turn is that of the count of rows.
    fn turn(&self, s: ReplayState) -> ReplayState {
        let Ok(line) = line_at(self.text, s.rows) else {
            return refused_line(s, Refusal::Line);
        };
        match s.solver.step(line.current_a, line.dt, self.temp_k) {
            Ok(t) => {
                let rows = s.rows + 1;
                ReplayState {
                    solver: t.solver,
                    rows,
                    ending: ending_after(self.text, t.state.cutoff, rows),
                    state: t.state,
                }
            }
            Err(e) => refused_line(s, e),
        }
    }

    fn row(&self, s: &ReplayState) -> [f64; 8] {
        row_of(s.state)
    }

    fn ending(&self, s: &ReplayState) -> Ending {
        s.ending
    }
}

// What a replay that has stopped gives.
// Each kind of run has its own: a trait for the three fields is no plainer.
fn finished(s: ReplayState) -> CellRun
    ensures { run_outcome result ≡ finished_replay (state_of s) }
{
    CellRun {
        ending: s.ending,
        rows: s.rows,
        solver: s.solver,
    }
}

// Whether a text has at most 65,536 bytes.
pub fn text_fits(text: &[u8]) -> bool
    ensures { result ≡ text_fits text.now }
{
    text.len() <= 65536
}

// What refuses the whole replay: 12, 1, 10, 2, 5.
#[tactic(auto, unfolding(refusal::specs::Numbers::refusal_unless, refusal::specs::Numbers::first_refusal, solver::specs::Cell::cell_refusal, crate::specs::Replay::replay_refusal))]
fn check_replay(text: &[u8], s: SpmSolver, temp_k: f64, places: usize) -> Result<(), Refusal>
    ensures { refusal_of result ≡ replay_refusal text.now s temp_k places }
{
    refuse_unless(text_fits(text), Refusal::File)?;
    refuse_unless(s.grid_fits(), Refusal::Grid)?;
    refuse_unless(8 <= places, Refusal::Length)?;
    s.check()?;
    refuse_unless(temperature_fits(temp_k), Refusal::Temperature)
}

// Replays a text of lines, one step and one row each, until the voltage, the last line or a refusal ends it or the slice is full.
// WARNING: see `SpmSolver::step`.
pub fn replay(s: SpmSolver, text: &[u8], temp_k: f64, out: &mut [f64]) -> CellRun
    ensures result { run_outcome result ≡ replayed text.now temp_k s (length out.old) }
    ensures rows { out.new ≡ replayed_rows text.now temp_k s out.old }
{
    if let Err(e) = check_replay(text, s, temp_k, out.len()) {
        return CellRun {
            ending: Ending::Refused(e),
            rows: 0,
            solver: s,
        };
    }
    let total = out.len() / 8;
    let mut run = start(text, s);
    run_turns(&Recorded { text, temp_k }, &mut run, total, out);
    finished(run)
}
