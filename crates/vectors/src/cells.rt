// The lists of the single-particle cell's calls.
use crate::line::{Line, are_listed, is_array, same, same_answer, same_arrays};
use crate::particles::{next_particle, same_make, same_particle};
use crate::sheets::next_sheet;
use kinetics::SpmConfig;
use refusal::Refusal;
use solver::{SpmSolver, SpmStepped};

fn next_config(line: &mut Line<'_>) -> SpmConfig {
    let n_nodes = line.next_usize();
    let [v_min, v_max, faraday, r_gas, r_electrolyte_ohm_m2] = line.next_f64s::<5>();
    SpmConfig {
        n_nodes,
        v_min,
        v_max,
        faraday,
        r_gas,
        r_electrolyte_ohm_m2,
    }
}

fn config_numbers(c: SpmConfig) -> [f64; 5] {
    [c.v_min, c.v_max, c.faraday, c.r_gas, c.r_electrolyte_ohm_m2]
}

fn same_config(a: SpmConfig, b: SpmConfig) -> bool {
    a.n_nodes == b.n_nodes && same_arrays(&config_numbers(a), &config_numbers(b))
}

pub(crate) fn next_solver(line: &mut Line<'_>) -> SpmSolver {
    let config = next_config(line);
    let anode = next_particle(line);
    let cathode = next_particle(line);
    let time_s = line.next_f64();
    SpmSolver {
        config,
        anode,
        cathode,
        time_s,
    }
}

pub(crate) fn same_solver(a: SpmSolver, b: SpmSolver) -> bool {
    same_config(a.config, b.config)
        && same_particle(a.anode, b.anode)
        && same_particle(a.cathode, b.cathode)
        && same(a.time_s, b.time_s)
}

// What an answer lists of a cell: the words of both profiles and of the clock.
#[derive(Clone, Copy)]
struct Changed {
    anode: Option<[u64; 64]>,
    cathode: Option<[u64; 64]>,
    time_s: u64,
}

fn next_changed(line: &mut Line<'_>) -> Changed {
    let anode = line.next_array();
    let cathode = line.next_array();
    let time_s = line.next_u64();
    Changed {
        anode,
        cathode,
        time_s,
    }
}

fn is_changed(s: SpmSolver, listed: Changed) -> bool {
    is_array(&s.anode.c_s, listed.anode)
        && is_array(&s.cathode.c_s, listed.cathode)
        && words::to_bits(s.time_s) == listed.time_s
}

// Whether config, sheets and counts of nodes are those of the cell before.
fn kept(before: SpmSolver, after: SpmSolver) -> bool {
    same_config(before.config, after.config)
        && same_make(before.anode, after.anode)
        && same_make(before.cathode, after.cathode)
}

// Whether the cell before has become `after`: config, sheets and counts of nodes are as they were, the rest is the next words.
pub(crate) fn is_moved(line: &mut Line<'_>, before: SpmSolver, after: SpmSolver) -> bool {
    let listed = next_changed(line);
    kept(before, after) && is_changed(after, listed)
}

// A built cell: its number, then all of it.
fn is_built(line: &mut Line<'_>, a: Result<SpmSolver, Refusal>) -> bool {
    same_answer(a, line.next_answer(next_solver), same_solver)
}

pub(crate) fn ready_line(line: &mut Line<'_>) -> bool {
    let config = next_config(line);
    is_built(line, SpmSolver::graphite_lfp(config))
        & is_built(line, SpmSolver::graphite_nmc(config))
}

pub(crate) fn new_line(line: &mut Line<'_>) -> bool {
    let config = next_config(line);
    let anode = next_sheet(line);
    let cathode = next_sheet(line);
    let listed = line.next_answer(next_changed);
    let a = SpmSolver::new(config, anode, cathode);
    same_answer(a, listed, |s, changed| {
        same_config(s.config, config) && is_changed(s, changed)
    })
}

// What an answer lists of a step: the words of the report, then what of the cell has changed.
#[derive(Clone, Copy)]
struct Stepped {
    numbers: [u64; 7],
    cutoff: u64,
    sub_steps: u64,
    changed: Changed,
}

fn next_stepped(line: &mut Line<'_>) -> Stepped {
    let numbers = line.next_u64s();
    let cutoff = line.next_u64();
    let sub_steps = line.next_u64();
    let changed = next_changed(line);
    Stepped {
        numbers,
        cutoff,
        sub_steps,
        changed,
    }
}

fn is_stepped(r: SpmStepped, listed: Stepped) -> bool {
    let s = r.state;
    let numbers = [
        s.voltage,
        s.current,
        s.theta_neg,
        s.theta_pos,
        s.theta_neg_avg,
        s.theta_pos_avg,
        s.time_s,
    ];
    are_listed(&numbers, &listed.numbers)
        && u64::from(s.cutoff) == listed.cutoff
        && r.sub_steps == listed.sub_steps
        && is_changed(r.solver, listed.changed)
}

pub(crate) fn step_line(line: &mut Line<'_>) -> bool {
    let s = next_solver(line);
    let [current_a, dt, temp_k] = line.next_f64s::<3>();
    let listed = line.next_answer(next_stepped);
    same_answer(s.step(current_a, dt, temp_k), listed, |r, stepped| {
        kept(s, r.solver) && is_stepped(r, stepped)
    })
}

pub(crate) fn number_line(line: &mut Line<'_>) -> bool {
    let s = next_solver(line);
    line.is_answer(s.ocv()) & line.is_answer(s.soc_estimate())
}
