// Runs into a lent slice, eight places a step: how a run ends, a row in its place, the lowest voltage of each group of rows
// (`lowest`), and the loop of replay and cycle (`turns`).
#![tactic(auto)]

pub mod lowest;
pub mod turns;

ghost use Rattle.std.specs.Prelude.{◌≡◌, ◌+◌, ◌≤◌, eqb, length, get_or};
ghost use Rattle.std.specs.Float.{nan};
ghost use Rattle.refusal.specs.Refusals.{refusal_of};
ghost use Rattle.array_update.specs.ArrayUpdate.{places_by};
ghost use Rattle.runs.specs.Endings.{ended_by, over_number, going_on_of, by_refusal};

use refusal::{Refusal, number_or_0};

// How a run ends: by the voltage, by the time, with every whole row written, by a refusal, with nothing left to do, or with what it was allowed spent.
// A run that nothing has ended yet is full: it ends so where its last row is written.
#[derive(Clone, Copy, Debug, PartialEq, Eq, Hash)]
pub enum Ending {
    Voltage,
    Time,
    Full,
    Refused(Refusal),
    Done,
    Spent,
}

impl Ending {
    // Whether nothing has ended the run.
    pub fn goes_on(self) -> bool
        ensures { result ≡ eqb (over_number self) going_on_of }
    {
        matches!(self, Ending::Full)
    }

    // Whether a refusal has ended the run.
    pub fn is_refused(self) -> bool
        ensures { result ≡ eqb (over_number self) by_refusal }
    {
        matches!(self, Ending::Refused(_))
    }

    // The refusal that ended the run, where one did.
    pub fn check(self) -> Result<(), Refusal>
        ensures { refusal_of result ≡ (ended_by self).refusal }
    {
        match self {
            Ending::Refused(refusal) => Err(refusal),
            _ => Ok(()),
        }
    }
}

// The number of an ending: 1 voltage, 2 time, 3 full, 4 refused, 5 done, 6 spent.
pub fn ending_number(e: Ending) -> u64
    ensures { result ≡ (ended_by e).ending }
{
    match e {
        Ending::Voltage => 1,
        Ending::Time => 2,
        Ending::Full => 3,
        Ending::Refused(_) => 4,
        Ending::Done => 5,
        Ending::Spent => 6,
    }
}

// The number of the refusal that ended a run, 0 for none.
// A number, as a run's answer to C has it.
pub fn ending_refusal(e: Ending) -> u64
    ensures { result ≡ (ended_by e).refusal }
{
    number_or_0(e.check())
}

// Writes a row of eight places at `at`.
pub fn put_row(out: &mut [f64], at: usize, row: [f64; 8])
    requires { at + 8 ≤ length out.old }
    ensures { out.new ≡ places_by at 8 (λ k. get_or row k nan) out.old }
{
    out[at..at + 8].copy_from_slice(&row);
}
