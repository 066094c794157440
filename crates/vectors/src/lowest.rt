// The lists of the lowest voltages of groups: what a run leaves in the summary, and the search by it. No slice of rows has more than 2,048
// places, and no summary more than 8.
use crate::dfn_cells::next_galvanostatic;
use crate::discharges::next_discharge;
use crate::line::{Line, same_answer};
use crate::rows::is_ending;
use row_search::first_below;
use runs::Ending;

// Whether the next answer is this: the ending, the refusal, the count of rows, and the summary as it is left.
fn is_left(line: &mut Line<'_>, ending: Ending, count: usize, summary: &[f64]) -> bool {
    is_ending(line, ending) & line.is_u64(count as u64) & line.is_places(summary)
}

pub(crate) fn discharge_line(line: &mut Line<'_>) -> bool {
    let d = next_discharge(line);
    if d.places > 2048 {
        return false;
    }
    let mut rows = [0.0; 2048];
    let mut room = [0.0; 8];
    let summary = line.read_slice(&mut room);
    let r = d.run(&mut rows[..d.places], summary);
    is_left(line, r.ending, r.rows, summary)
}

// Two kinds of run, two functions: a trait for `run` alone is no plainer.
pub(crate) fn galvanostatic_line(line: &mut Line<'_>) -> bool {
    let g = next_galvanostatic(line);
    if g.places > 2048 {
        return false;
    }
    let mut rows = [0.0; 2048];
    let mut room = [0.0; 8];
    let summary = line.read_slice(&mut room);
    let r = g.run(&mut rows[..g.places], summary);
    is_left(line, r.ending, r.rows, summary)
}

// ---- the search

// Reads the rows' voltages, each into the first place of its row; every other place is -infinity.
fn read_voltages(line: &mut Line<'_>, rows: &mut [f64]) {
    rows.fill(f64::NEG_INFINITY);
    let listed = line.next_usize();
    for row in rows.chunks_mut(8).take(listed) {
        for place in row.iter_mut().take(1) {
            *place = line.next_f64();
        }
    }
}

// Whether the next answer is what `first_below` finds in the rows: a refusal, or 0 with 1 and the row or 2 and 0.
// The run is the list's number: an unknown one is among them.
fn search_agrees(line: &mut Line<'_>, which: u64, rows: &mut [f64]) -> bool {
    let mut room = [0.0; 8];
    read_voltages(line, rows);
    let summary = line.read_slice(&mut room);
    let count = line.next_usize();
    let voltage = line.next_f64();
    let listed = line.next_answer(|line| line.next_u64s::<2>());
    let found = first_below(which, rows, summary, count, voltage);
    same_answer(found, listed, |row, [how, place]| match row {
        Some(j) => how == 1 && place == j as u64,
        None => how == 2 && place == 0,
    })
}

pub(crate) fn search_line(line: &mut Line<'_>) -> bool {
    let which = line.next_u64();
    let n = line.next_usize();
    if n > 2048 {
        return false;
    }
    let mut room = [0.0; 2048];
    search_agrees(line, which, &mut room[..n])
}
