// A run in turns, as a replay and a cycle are: its state, and the loop that makes its turns and writes their rows.
ghost use Rattle.std.specs.Prelude.{◌≡◌, ℕ, ◌+◌, ◌*◌, ◌^◌, ◌<◌, ◌≤◌, List, Float, length};
ghost use Rattle.runs.specs.Endings.{over_number};
ghost use Rattle.runs.specs.Rows.{run_after, rows_after};

use crate::{Ending, put_row};

// What a run does with its state. The definitions see of a state what `see` gives: what has ended the run, what a turn makes of it, and the row of the last step.
// `ready` is what holds while the run goes on, after so many turns.
pub trait Turns {
    type State: Copy;

    ghost View: { Type 0 };

    ghost see: { Self.State → View };

    ghost over: { View → ℕ };

    ghost turned: { Self → View → View };

    ghost row_of: { View → List Float };

    ghost ready: { Self → ℕ → View → Type 0 };

    // One turn of a run that goes on.
    fn turn(&self, s: Self::State) -> Self::State
        requires { (i : ℕ) × ((i < 2 ^ 61) × ready self.now i (see s)) }
        ensures { see result ≡ turned self.now (see s) };

    // The row of the last step.
    fn row(&self, s: &Self::State) -> [f64; 8]
        ensures { result ≡ row_of (see s.now) };

    // What has ended the run, full where nothing has.
    fn ending(&self, s: &Self::State) -> Ending
        ensures { over_number result ≡ over (see s.now) };

    ghost keeps: { (t : Self) (i : ℕ) (v : View) → ready t i v → over (turned t v) ≡ 0 → ready t (i + 1) (turned t v) };
}

// At most `total` turns of a run, each step with its row.
// By number: turn i writes the row at i * 8.
pub fn run_turns<T: Turns>(t: &T, run: &mut T::State, total: usize, out: &mut [f64])
    requires ready { T.ready t.now 0 (T.see run.old) }
    requires room { (total < 2 ^ 61) × (total * 8 ≤ length out.old) }
    ensures state { T.see run.new ≡ run_after T.over (T.turned t.now) T.row_of total (T.see run.old) }
    ensures rows { out.new ≡ rows_after T.over (T.turned t.now) T.row_of total (T.see run.old) out.old }
{
    if !t.ending(run).goes_on() {
        return;
    }
    for i in 0..total {
        *run = t.turn(*run);
        let ending = t.ending(run);
        if ending.is_refused() {
            return;
        }
        put_row(out, i * 8, t.row(run));
        if !ending.goes_on() {
            return;
        }
    }
}
