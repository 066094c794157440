// Discharges a cell at a constant current and writes the rows as CSV. README.md has the arguments, and `help` lists them. The first line names the columns
// with their units, the last two, after '#', say what was run and how it ended. What is wrong with the arguments goes to standard error instead. A run has at most
// 10,000 rows.
#![tactic(auto)]

mod help;

use cell_file::Settings;
use command_line::arguments::Said;
use command_line::{arguments, ending};
use setting_table::names::{CURRENT, DT, NONE, Place, TEMPERATURE, TIME};
use solver::SpmSolver;
use std::env::Env;
use std::rt::Files;

fn take(rt: &impl Env, st: Settings, i: usize, program: &[u8]) -> Result<Settings, Said> {
    let mut text = io::buffer();
    arguments::take_argument(Ok(st), i, arguments::argument(rt, i, &mut text), program)
}

// The numbers after all arguments, of which the first is at hand.
fn given(rt: &(impl Env + Files), first: &[u8], program: &[u8]) -> Result<Settings, Said> {
    let mut st = arguments::first_settings(rt, first, program)?;
    for i in arguments::first_place(first)..arguments::argument_count(rt) {
        st = take(rt, st, i, program)?;
    }
    Ok(st)
}

fn run(v: &[f64; NONE], cell: SpmSolver, named: &[u8]) {
    let mut rows = [0.0; 80000];
    let mut lowest = [0.0; 157];
    let r = discharge_run::simulate_discharge(
        cell,
        v[CURRENT],
        v[DT],
        v[TEMPERATURE],
        v[TIME],
        &mut rows,
        &mut lowest,
    );
    csv_rows::write_rows(&rows, r.rows);
    ending::write_cell(named);
    ending::write_setting(Some(Place::at(CURRENT)), v[CURRENT]);
    ending::write_limits(v);
    ending::write_ending(r.ending);
    ending::write_count(r.rows);
}

fn main(rt: HostRuntime) {
    let mut text = io::buffer();
    let first = arguments::argument(&rt, 1, &mut text);
    if arguments::asks_help(first) {
        help::write_help();
        return;
    }
    let Ok(st) = given(&rt, first, b"discharge") else {
        return;
    };
    if let Ok(cell) = command_line::build(&st.values) {
        run(&st.values, cell, first);
    }
}
