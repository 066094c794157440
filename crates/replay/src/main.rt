// Replays a recorded load on a cell and writes the rows as CSV. README.md has the arguments and the form of a load file, and `help` lists them. The first line names
// the columns with their units, the last two, after '#', say what was run and how it ended, with the line that was refused. What is wrong with the arguments goes to
// standard error instead.
#![tactic(auto)]

mod arguments;
mod help;

ghost use Rattle.std.specs.Prelude.{◌≡◌, length};

use command_line::ending;
use csv_rows::OUT;
use refusal::Refusal;
use runs::Ending;
use setting_messages::{ERR, say};
use setting_table::names::{NONE, TEMPERATURE};
use solver::SpmSolver;
use std::env::Env;
use std::rt::Files;

// Room for a load file and for one byte more, which shows that it is too long.
fn load_buffer() -> [u8; 65537]
    ensures { 65537 ≡ length result }
{
    [0; 65537]
}

// Whether a line was refused; the other refusals come before a replay's first line.
fn of_a_line(e: Ending) -> bool {
    matches!(
        e,
        Ending::Refused(
            Refusal::Load
                | Refusal::Interval
                | Refusal::Diffusivity
                | Refusal::SubSteps
                | Refusal::NotFinite
                | Refusal::Line
        )
    )
}

fn write_ending(e: Ending, rows: usize) {
    ending::write_ending(e);
    if of_a_line(e) {
        say(OUT, b" at line ");
        io::print_decimal(OUT, rows.wrapping_add(1) as u64);
    }
    ending::write_count(rows);
}

// Replays the file at a path. It has at most 1,927 lines, so that 10,000 rows always have room.
fn replay(rt: &impl Files, v: &[f64; NONE], cell: SpmSolver, named: &[u8], path: &[u8]) {
    let mut text = load_buffer();
    let Ok(load) = command_line::arguments::read_file(rt, path, &mut text) else {
        return;
    };
    let mut rows = [0.0; 80000];
    let r = replay_run::replay(cell, load, v[TEMPERATURE], &mut rows);
    csv_rows::write_rows(&rows, r.rows);
    ending::write_cell(named);
    say(OUT, b" load=");
    say(OUT, path);
    ending::write_limits(v);
    write_ending(r.ending, r.rows);
}

// Builds the cell and replays the file that argument i names, load=FILE.
fn run(rt: &(impl Env + Files), v: &[f64; NONE], named: &[u8], i: usize) {
    let mut text = io::buffer();
    let word = command_line::arguments::argument(rt, i, &mut text);
    if let (Ok(cell), Some(path)) = (command_line::build(v), word.strip_prefix(b"load=")) {
        replay(rt, v, cell, named, path);
    }
}

fn main(rt: HostRuntime) {
    let mut text = io::buffer();
    let first = command_line::arguments::argument(&rt, 1, &mut text);
    if command_line::arguments::asks_help(first) {
        help::write_help();
        return;
    }
    let Ok(g) = arguments::given(&rt, first) else {
        return;
    };
    let Some(i) = g.load else {
        say(ERR, b"no load: expected load=FILE\n");
        return;
    };
    run(&rt, &g.settings.values, first, i);
}
