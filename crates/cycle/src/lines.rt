// A cycle's rows as lines of CSV, each with its repeat, counted from 1, its phase by its place in the list, and what kind of phase that is.
use csv_rows::{FIELDS, OUT};
use cycle_run::phases::Phase;
use cycle_run::{CycleSettings, Position};
use decimal_spelling::Line;

// What kind of phase it is.
fn kind_of(p: Phase) -> &'static [u8] {
    match p {
        Phase::Charge(_) => b"charge",
        Phase::Rest(_) => b"rest",
        Phase::Discharge(_) => b"discharge",
    }
}

// The repeat of a position, counted from 1.
pub(crate) fn repeat_number(g: CycleSettings, q: Position) -> u64 {
    g.repeats.wrapping_sub(q.repeats_left).wrapping_add(1) as u64
}

// The place of its phase in the list, counted from 1.
pub(crate) fn phase_number(q: Position) -> u64 {
    q.place.wrapping_add(1) as u64
}

// Writes a row, which a step at a position made.
fn write_row(phases: &[Phase; 8], g: CycleSettings, q: Position, rows: &[f64], row: usize) {
    let mut line = Line::new();
    csv_rows::put_row(&mut line, rows, row, b',');
    line.put_whole(repeat_number(g, q));
    line.put(b',');
    line.put_whole(phase_number(q));
    line.put(b',');
    if let Some(p) = phases.get(q.place) {
        line.put_text(kind_of(*p));
    }
    line.put(b'\n');
    csv_rows::write_line(OUT, &line);
}

// Whether a row has cutoff.
fn has_cutoff(rows: &[f64], row: usize) -> bool {
    if row >= rows.len() / FIELDS {
        return false;
    }
    rows[row * FIELDS + 7] != 0.0
}

// The position after a step at another, by the cutoff of its row; after the last phase it stays.
fn position_after(phases: &[Phase; 8], g: CycleSettings, q: Position, cutoff: bool) -> Position {
    if g.count > 8 || q.place >= g.count || q.repeats_left < 1 {
        return q;
    }
    cycle_run::next_position(*phases, g, q, cutoff)
}

// Writes the names of the columns and a line for each of the first rows, and gives the position after the last.
pub(crate) fn write_rows(
    phases: &[Phase; 8],
    g: CycleSettings,
    rows: &[f64],
    count: usize,
) -> Position {
    csv_rows::write_header(b",repeat [1],phase [1],kind\n");
    let mut q = cycle_run::first_position(g);
    for row in 0..count {
        write_row(phases, g, q, rows, row);
        q = position_after(phases, g, q, has_cutoff(rows, row));
    }
    q
}

// Writes a phase as it was given.
pub(crate) fn write_phase(p: Phase) {
    let (x, unit) = match p {
        Phase::Charge(x) => (x, b'A'),
        Phase::Rest(x) => (x, b's'),
        Phase::Discharge(x) => (x, b'A'),
    };
    let mut line = Line::new();
    line.put(b' ');
    line.put_text(kind_of(p));
    line.put(b'=');
    line.put_number(x);
    line.put(b' ');
    line.put(unit);
    csv_rows::write_line(OUT, &line);
}
