// The list of the single-particle cell's run.
use crate::cells::{is_moved, next_solver, same_solver};
use crate::line::Line;
use crate::rows::{is_ending, is_rows, is_summary, mark_all};
use discharge_run::{CellRun, simulate_discharge};
use solver::SpmSolver;

// What a run is given but for the slices that it is lent, and how many places its rows have.
#[derive(Clone, Copy)]
pub(crate) struct Discharge {
    pub solver: SpmSolver,
    pub current_a: f64,
    pub dt: f64,
    pub temp_k: f64,
    pub limit: f64,
    pub places: usize,
}

pub(crate) fn next_discharge(line: &mut Line<'_>) -> Discharge {
    let solver = next_solver(line);
    let [current_a, dt, temp_k, limit] = line.next_f64s::<4>();
    Discharge {
        solver,
        current_a,
        dt,
        temp_k,
        limit,
        places: line.next_usize(),
    }
}

impl Discharge {
    // The run into rows that are marked before it.
    pub fn run(self, rows: &mut [f64], lowest: &mut [f64]) -> CellRun {
        mark_all(rows);
        simulate_discharge(
            self.solver,
            self.current_a,
            self.dt,
            self.temp_k,
            self.limit,
            rows,
            lowest,
        )
    }
}

// Whether the next answer is r: the ending, the refusal, the rows; then, where there is a row, both profiles and the clock.
pub(crate) fn is_run(line: &mut Line<'_>, before: SpmSolver, r: CellRun, rows: &[f64]) -> bool {
    let written = is_ending(line, r.ending) & is_rows(line, rows, r.rows);
    if r.rows == 0 {
        return written && same_solver(before, r.solver);
    }
    written & is_moved(line, before, r.solver)
}

// No run of the list has more than 256 places, which are 32 rows and one group.
pub(crate) fn run_line(line: &mut Line<'_>) -> bool {
    let d = next_discharge(line);
    if d.places > 256 {
        return false;
    }
    let mut room = [0.0; 256];
    let mut lowest = [0.0; 1];
    let rows = &mut room[..d.places];
    mark_all(&mut lowest);
    let r = d.run(rows, &mut lowest);
    is_run(line, d.solver, r, rows) && is_summary(&lowest, rows, r.rows)
}
