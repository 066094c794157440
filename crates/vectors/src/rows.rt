// What a run leaves in the slice that it was lent, and how it ended.
use crate::line::{Line, same};
use runs::Ending;

// What stands in the place i before a run.
fn mark(i: usize) -> f64 {
    -(std::num::nearest_u64_to_f64(i as u64) + 1.0)
}

pub(crate) fn mark_all(rows: &mut [f64]) {
    for (i, place) in rows.iter_mut().enumerate() {
        *place = mark(i);
    }
}

// Whether each of the places from `start` on is as it was before the run.
fn are_marked(places: &[f64], start: usize) -> bool {
    places.iter().zip(start..).all(|(x, i)| same(*x, mark(i)))
}

// Whether the next slice is the rows that were written, `count` of them, and the places after them are as they were.
pub(crate) fn is_rows(line: &mut Line<'_>, rows: &[f64], count: usize) -> bool {
    let written = line.next_usize();
    let listed = written.min(rows.len());
    (count == written / 8) & line.is_f64s(&rows[..listed]) & are_marked(&rows[listed..], listed)
}

// The lowest voltage of the rows 64·g to 64·g + 63, of equals the first, as far as `count` rows are written; the mark where none of them is.
fn lowest_of(rows: &[f64], count: usize, g: usize) -> f64 {
    rows.iter()
        .step_by(8)
        .take(count)
        .skip(g.saturating_mul(64))
        .take(64)
        .copied()
        .reduce(|low, v| if v < low { v } else { low })
        .unwrap_or(mark(g))
}

// Whether a summary that was marked before the run holds the lowest voltages of the rows that were written, `count` of them.
pub(crate) fn is_summary(summary: &[f64], rows: &[f64], count: usize) -> bool {
    summary
        .iter()
        .enumerate()
        .all(|(g, x)| same(*x, lowest_of(rows, count, g)))
}

// Whether the next words are the numbers of an ending and of its refusal.
pub(crate) fn is_ending(line: &mut Line<'_>, ending: Ending) -> bool {
    line.is_u64(runs::ending_number(ending)) & line.is_u64(runs::ending_refusal(ending))
}
