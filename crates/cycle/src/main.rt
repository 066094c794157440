// Takes a cell through the phases of a charger and writes the rows as CSV. README.md has the arguments, and `help` lists them. The first line names the columns with their
// units, the last two, after '#', say what was run and how it ended, with the phase at which a budget was spent. What is wrong with the arguments goes to standard error instead.
#![tactic(auto)]

mod arguments;
mod help;
mod lines;

use arguments::Arguments;
use command_line::ending;
use csv_rows::OUT;
use cycle_run::phases::Phase;
use cycle_run::{CycleSettings, Position};
use runs::Ending;
use setting_messages::{ERR, say};
use setting_table::names::{DT, Place, TEMPERATURE};
use solver::SpmSolver;

fn settings_of(g: &Arguments) -> CycleSettings {
    CycleSettings {
        count: g.count,
        repeats: g.repeats.unwrap_or(1),
        budget: g.budget.unwrap_or(10000),
        dt: g.settings.values[DT],
        temp_k: g.settings.values[TEMPERATURE],
    }
}

// What was run, after the cell and before the limits.
fn write_settings(phases: &[Phase; 8], g: CycleSettings) {
    for p in phases.iter().take(g.count) {
        lines::write_phase(*p);
    }
    say(OUT, b" repeat=");
    io::print_decimal(OUT, g.repeats as u64);
    ending::write_setting(Some(Place::at(DT)), g.dt);
    say(OUT, b" budget=");
    io::print_decimal(OUT, g.budget as u64);
}

// How it ended; where the budget was spent, with the phase that is unfinished or still to come. A refused step is always the first: the numbers that refuse it are the same
// in every phase.
fn write_ending(e: Ending, g: CycleSettings, q: Position, rows: usize) {
    ending::write_ending(e);
    if e == Ending::Spent {
        say(OUT, b" at phase ");
        io::print_decimal(OUT, lines::phase_number(q));
        say(OUT, b" of repeat ");
        io::print_decimal(OUT, lines::repeat_number(g, q));
    }
    ending::write_count(rows);
}

// Cycles the cell into rows that are lent, and writes them. Their length is known from the type: the prover cannot count so many zeros.
fn cycle_into(g: &Arguments, cell: SpmSolver, named: &[u8], rows: &mut [f64; 800000]) {
    let s = settings_of(g);
    let r = cycle_run::cycle(
        cell, g.phases, s.count, s.repeats, s.budget, s.dt, s.temp_k, rows,
    );
    let q = lines::write_rows(&g.phases, s, rows, r.rows);
    ending::write_cell(named);
    write_settings(&g.phases, s);
    ending::write_limits(&g.settings.values);
    write_ending(r.ending, s, q, r.rows);
}

// Builds the cell and cycles it; the rows have room for the largest budget, 6.4 MB on the stack.
fn run(g: &Arguments, named: &[u8]) {
    if let Ok(cell) = command_line::build(&g.settings.values) {
        let mut rows = [0.0; 800000];
        cycle_into(g, cell, named, &mut rows);
    }
}

fn main(rt: HostRuntime) {
    let mut text = io::buffer();
    let first = command_line::arguments::argument(&rt, 1, &mut text);
    if command_line::arguments::asks_help(first) {
        help::write_help();
        return;
    }
    let Ok(g) = arguments::given(&rt, first) else {
        return;
    };
    if g.count == 0 {
        say(
            ERR,
            b"no phase: expected charge=AMPERES, rest=SECONDS or discharge=AMPERES\n",
        );
        return;
    }
    run(&g, first);
}
