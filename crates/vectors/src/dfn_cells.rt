// The lists of the Doyle-Fuller-Newman cell's calls.
use crate::electrolytes;
use crate::line::{Line, are_listed, is_array, same, same_answer, same_arrays};
use crate::rows::{is_ending, is_rows, is_summary, mark_all};
use dfn::{DfnSolver, DfnStep};
use dfn_parameters::{DfnConfig, DfnParams};
use galvanostatic_run::{DfnRun, run_galvanostatic};

// ---- records

// The parameters with no coefficient.
fn next_numbers(line: &mut Line<'_>) -> DfnParams {
    let [
        l_neg,
        l_sep,
        l_pos,
        area,
        r_neg,
        d_s_neg_ref,
        c_s_neg_max,
        eps_neg,
        theta_neg_0,
        k_neg,
        r_pos,
        d_s_pos_ref,
        c_s_pos_max,
        eps_pos,
        theta_pos_0,
        k_pos,
        c_e0,
        d_e0,
        gamma_e,
        t_plus,
        kappa0,
        eps_e_elec,
        eps_e_sep,
        brugg,
        temperature_k,
    ] = line.next_f64s::<25>();
    DfnParams {
        l_neg,
        l_sep,
        l_pos,
        area,
        r_neg,
        d_s_neg_ref,
        c_s_neg_max,
        eps_neg,
        theta_neg_0,
        k_neg,
        r_pos,
        d_s_pos_ref,
        c_s_pos_max,
        eps_pos,
        theta_pos_0,
        k_pos,
        c_e0,
        d_e0,
        gamma_e,
        t_plus,
        kappa0,
        eps_e_elec,
        eps_e_sep,
        brugg,
        temperature_k,
        ocv_neg_count: 0,
        ocv_neg_coeffs: [0.0; 16],
        ocv_pos_count: 0,
        ocv_pos_coeffs: [0.0; 16],
    }
}

fn next_parameters(line: &mut Line<'_>) -> DfnParams {
    let mut p = next_numbers(line);
    p.ocv_neg_count = line.next_usize();
    p.ocv_neg_coeffs = line.next_places();
    p.ocv_pos_count = line.next_usize();
    p.ocv_pos_coeffs = line.next_places();
    p
}

fn numbers(p: DfnParams) -> [f64; 25] {
    [
        p.l_neg,
        p.l_sep,
        p.l_pos,
        p.area,
        p.r_neg,
        p.d_s_neg_ref,
        p.c_s_neg_max,
        p.eps_neg,
        p.theta_neg_0,
        p.k_neg,
        p.r_pos,
        p.d_s_pos_ref,
        p.c_s_pos_max,
        p.eps_pos,
        p.theta_pos_0,
        p.k_pos,
        p.c_e0,
        p.d_e0,
        p.gamma_e,
        p.t_plus,
        p.kappa0,
        p.eps_e_elec,
        p.eps_e_sep,
        p.brugg,
        p.temperature_k,
    ]
}

fn same_parameters(a: DfnParams, b: DfnParams) -> bool {
    same_arrays(&numbers(a), &numbers(b))
        && a.ocv_neg_count == b.ocv_neg_count
        && same_arrays(&a.ocv_neg_coeffs, &b.ocv_neg_coeffs)
        && a.ocv_pos_count == b.ocv_pos_count
        && same_arrays(&a.ocv_pos_coeffs, &b.ocv_pos_coeffs)
}

fn next_config(line: &mut Line<'_>) -> DfnConfig {
    let n_x_neg = line.next_usize();
    let n_x_pos = line.next_usize();
    let n_r = line.next_usize();
    let [v_min, v_max] = line.next_f64s::<2>();
    DfnConfig {
        n_x_neg,
        n_x_pos,
        n_r,
        v_min,
        v_max,
    }
}

fn same_config(a: DfnConfig, b: DfnConfig) -> bool {
    a.n_x_neg == b.n_x_neg
        && a.n_x_pos == b.n_x_pos
        && a.n_r == b.n_r
        && same(a.v_min, b.v_min)
        && same(a.v_max, b.v_max)
}

fn next_cell(line: &mut Line<'_>) -> DfnSolver {
    let params = next_parameters(line);
    let config = next_config(line);
    let c_s_neg = line.next_places();
    let c_s_pos = line.next_places();
    let c_e = line.next_places();
    let [time_s, voltage, current, theta_neg_surf, theta_pos_surf] = line.next_f64s::<5>();
    DfnSolver {
        params,
        config,
        c_s_neg,
        c_s_pos,
        c_e,
        time_s,
        voltage,
        current,
        theta_neg_surf,
        theta_pos_surf,
    }
}

fn cell_numbers(cell: DfnSolver) -> [f64; 5] {
    [
        cell.time_s,
        cell.voltage,
        cell.current,
        cell.theta_neg_surf,
        cell.theta_pos_surf,
    ]
}

// What an answer lists of a cell: the words of its profiles and of its numbers.
#[derive(Clone, Copy)]
struct State {
    c_s_neg: Option<[u64; 512]>,
    c_s_pos: Option<[u64; 512]>,
    c_e: Option<[u64; 33]>,
    numbers: [u64; 5],
}

fn next_state(line: &mut Line<'_>) -> State {
    let c_s_neg = line.next_array();
    let c_s_pos = line.next_array();
    let c_e = line.next_array();
    let numbers = line.next_u64s();
    State {
        c_s_neg,
        c_s_pos,
        c_e,
        numbers,
    }
}

fn is_state(cell: DfnSolver, listed: State) -> bool {
    is_array(&cell.c_s_neg, listed.c_s_neg)
        && is_array(&cell.c_s_pos, listed.c_s_pos)
        && is_array(&cell.c_e, listed.c_e)
        && are_listed(&cell_numbers(cell), &listed.numbers)
}

// Whether two cells have the same parameters and grid.
fn same_make(a: DfnSolver, b: DfnSolver) -> bool {
    same_parameters(a.params, b.params) && same_config(a.config, b.config)
}

fn same_cell(a: DfnSolver, b: DfnSolver) -> bool {
    same_make(a, b)
        && same_arrays(&a.c_s_neg, &b.c_s_neg)
        && same_arrays(&a.c_s_pos, &b.c_s_pos)
        && same_arrays(&a.c_e, &b.c_e)
        && same_arrays(&cell_numbers(a), &cell_numbers(b))
}

// What an answer lists of a step: the words of the report, then the cell's.
#[derive(Clone, Copy)]
struct Stepped {
    numbers: [u64; 6],
    cutoff: u64,
    newton_iter: usize,
    state: State,
}

fn next_stepped(line: &mut Line<'_>) -> Stepped {
    let numbers = line.next_u64s();
    let cutoff = line.next_u64();
    let newton_iter = line.next_usize();
    let state = next_state(line);
    Stepped {
        numbers,
        cutoff,
        newton_iter,
        state,
    }
}

fn is_report(r: DfnStep, listed: Stepped) -> bool {
    let numbers = [
        r.voltage,
        r.current,
        r.time_s,
        r.theta_neg,
        r.theta_pos,
        r.delta_c_e_max,
    ];
    are_listed(&numbers, &listed.numbers)
        && u64::from(r.cutoff) == listed.cutoff
        && r.newton_iter == listed.newton_iter
}

// ---- lines

// lipf6_ec_dmc, nmc_graphite and lfp_graphite.
pub(crate) fn ready_line(line: &mut Line<'_>) -> bool {
    electrolytes::is_ready(line)
        & same_parameters(next_parameters(line), DfnParams::nmc_graphite())
        & same_parameters(next_parameters(line), DfnParams::lfp_graphite())
}

pub(crate) fn new_line(line: &mut Line<'_>) -> bool {
    let params = next_parameters(line);
    let config = next_config(line);
    let listed = line.next_answer(next_state);
    same_answer(DfnSolver::new(params, config), listed, |cell, state| {
        same_parameters(cell.params, params)
            && same_config(cell.config, config)
            && is_state(cell, state)
    })
}

pub(crate) fn step_line(line: &mut Line<'_>) -> bool {
    let cell = next_cell(line);
    let [current, dt] = line.next_f64s::<2>();
    let listed = line.next_answer(next_stepped);
    same_answer(cell.step(current, dt), listed, |r, stepped| {
        same_make(cell, r.cell) && is_report(r.report, stepped) && is_state(r.cell, stepped.state)
    })
}

// ---- runs

// What a run is given but for the slices that it is lent, and how many places its rows have.
#[derive(Clone, Copy)]
pub(crate) struct Galvanostatic {
    pub cell: DfnSolver,
    pub current: f64,
    pub dt: f64,
    pub limit: f64,
    pub places: usize,
}

pub(crate) fn next_galvanostatic(line: &mut Line<'_>) -> Galvanostatic {
    let cell = next_cell(line);
    let [current, dt, limit] = line.next_f64s::<3>();
    Galvanostatic {
        cell,
        current,
        dt,
        limit,
        places: line.next_usize(),
    }
}

impl Galvanostatic {
    // The run into rows that are marked before it.
    pub fn run(self, rows: &mut [f64], lowest: &mut [f64]) -> DfnRun {
        mark_all(rows);
        run_galvanostatic(self.cell, self.current, self.dt, self.limit, rows, lowest)
    }
}

// Whether the next answer is r: the ending, the refusal, the rows, and the new state where there is a row.
fn is_run(line: &mut Line<'_>, before: DfnSolver, r: DfnRun, rows: &[f64]) -> bool {
    let written = is_ending(line, r.ending) & is_rows(line, rows, r.rows);
    if r.rows == 0 {
        return written && same_cell(before, r.cell);
    }
    let listed = next_state(line);
    written && same_make(before, r.cell) && is_state(r.cell, listed)
}

// No run of the list has more than 160 places, which are 20 rows and one group.
pub(crate) fn run_line(line: &mut Line<'_>) -> bool {
    let g = next_galvanostatic(line);
    if g.places > 160 {
        return false;
    }
    let mut room = [0.0; 160];
    let mut lowest = [0.0; 1];
    let rows = &mut room[..g.places];
    mark_all(&mut lowest);
    let r = g.run(rows, &mut lowest);
    is_run(line, g.cell, r, rows) && is_summary(&lowest, rows, r.rows)
}
