// The list of a charger's phases on the single-particle cell.
use crate::cells::next_solver;
use crate::discharges::is_run;
use crate::line::Line;
use crate::rows::mark_all;
use cycle_run::cycle;
use cycle_run::phases::Phase;

// A phase of the list is of kind 1, 2 or 3.
fn next_phase(line: &mut Line<'_>) -> Phase {
    let kind = line.next_u64();
    let number = line.next_f64();
    match kind {
        1 => Phase::Charge(number),
        2 => Phase::Rest(number),
        _ => Phase::Discharge(number),
    }
}

fn next_phases(line: &mut Line<'_>) -> [Phase; 8] {
    let mut phases = [Phase::Rest(0.0); 8];
    for phase in phases.iter_mut() {
        *phase = next_phase(line);
    }
    phases
}

// No cycle of the list has more than 256 places.
pub(crate) fn run_line(line: &mut Line<'_>) -> bool {
    let s = next_solver(line);
    let phases = next_phases(line);
    let count = line.next_usize();
    let repeats = line.next_usize();
    let budget = line.next_usize();
    let [dt, temp_k] = line.next_f64s::<2>();
    let n = line.next_usize();
    if n > 256 {
        return false;
    }
    let mut room = [0.0; 256];
    let rows = &mut room[..n];
    mark_all(rows);
    let r = cycle(s, phases, count, repeats, budget, dt, temp_k, rows);
    is_run(line, s, r, rows)
}
