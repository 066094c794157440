// The command line of a program that runs a cell: the numbers that its arguments set, the cell that they make, and, in words, what was run and how it ended.
// What arguments and files hold, and what is written, no contract can say.
#![tactic(auto)]

pub mod arguments;
pub mod ending;
mod reading;

ghost use Rattle.std.specs.Prelude.{◌≡◌};
ghost use Rattle.solver.specs.Answers.{build_answered};
ghost use Rattle.solver.specs.Cell.{no_solver};
ghost use Rattle.command_line.specs.Arguments.{built_from};

use cell_file::records::{config_of, sheet_at};
use refusal::Refusal;
use setting_table::names::{ANODE, CATHODE, NONE};
use solver::SpmSolver;

// The cell that a run's numbers make; where it is refused, it says so.
#[tactic(auto, unfolding(crate::specs::Arguments::built_from))]
pub fn build(v: &[f64; NONE]) -> Result<SpmSolver, Refusal>
    ensures { build_answered no_solver result ≡ built_from v.now }
{
    let config = config_of(v);
    let anode = sheet_at(v, ANODE);
    let cathode = sheet_at(v, CATHODE);
    let answer = SpmSolver::new(config, anode, cathode);
    if let Err(e) = answer {
        ending::not_built(e.number());
    }
    answer
}
