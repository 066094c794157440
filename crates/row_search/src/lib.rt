// The first row of a run under a chosen voltage. Groups of 64 rows whose lowest voltage is not under it are passed over.
// Which run wrote the rows is a number, as in C: an unknown one is refused with the sheet.
#![tactic(auto)]

ghost use Rattle.std.specs.Prelude.{◌≡◌, ◌*◌, ◌≤◌, ◌<◌, ◌&&◌, length};
ghost use Rattle.std.specs.Float.Ieee.{lt};
ghost use Rattle.refusal.specs.Refusals.{refusal_of};
ghost use Rattle.row_search.specs.Search.{under, found_by, search_refusal, searched};
ghost use Rattle.row_search.specs.FirstWhere.{FirstIn};
ghost use Rattle.row_search.specs.GroupSearch.{group_end};

use refusal::{Refusal, count_within, is_finite, refuse_unless};
use runs::lowest::group_count;

// The rows that simulate_discharge wrote.
pub const DISCHARGE: u64 = 1;

// The rows that run_galvanostatic wrote.
pub const GALVANOSTATIC: u64 = 2;

// Where the group that starts at a row ends, among so many rows: after 64, or with the last.
fn group_end(count: usize, start: usize) -> usize
    requires { start < count }
    ensures { result ≡ group_end count start }
{
    if count - start < 64 {
        return count;
    }
    start + 64
}

// The first row from `start` on and before `end` under the voltage.
// By number: the answer is a row's.
fn first_in(rows: &[f64], start: usize, end: usize, voltage: f64) -> Option<usize>
    requires { (start ≤ end) × (end * 8 ≤ length rows.now) }
    ensures { FirstIn (under rows.now voltage) start end result }
{
    for j in start..end {
        if rows[j * 8] < voltage {
            return Some(j);
        }
    }
    None
}

// The same in a group with this lowest voltage: it is passed over where that is not under the chosen one.
fn group_row(rows: &[f64], low: f64, start: usize, end: usize, voltage: f64) -> Option<usize>
    requires { (start ≤ end) × (end * 8 ≤ length rows.now) }
    ensures { FirstIn (λ j. lt low voltage && under rows.now voltage j) start end result }
{
    if low < voltage {
        return first_in(rows, start, end, voltage);
    }
    None
}

// What refuses a search: 10, 2. The count is held against whole rows, since eight times it may not fit a word.
fn check_search(
    which: u64,
    places: usize,
    lowest: usize,
    count: usize,
    voltage: f64,
) -> Result<(), Refusal>
    ensures { refusal_of result ≡ search_refusal which places lowest count voltage }
{
    let room = (count <= places / 8) & (group_count(count) <= lowest);
    refuse_unless(room, Refusal::Length)?;
    let known = count_within(which, DISCHARGE, GALVANOSTATIC);
    refuse_unless(known & is_finite(voltage), Refusal::Sheet)
}

// The first of `count` rows under the voltage, or none. Rows of both runs have the voltage in their first place.
// By number: a group's gives its first row.
pub fn first_below(
    which: u64,
    rows: &[f64],
    lowest: &[f64],
    count: usize,
    voltage: f64,
) -> Result<Option<usize>, Refusal>
    ensures { found_by result ≡ searched which rows.now lowest.now count voltage }
{
    check_search(which, rows.len(), lowest.len(), count, voltage)?;
    for g in 0..group_count(count) {
        let start = g * 64;
        let end = group_end(count, start);
        if let Some(j) = group_row(rows, lowest[g], start, end, voltage) {
            return Ok(Some(j));
        }
    }
    Ok(None)
}
