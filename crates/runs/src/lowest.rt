// The lowest voltage of each group of 64 rows, of equals the first: the summary that a run keeps beside its rows.
ghost use Rattle.std.specs.Prelude.{◌≡◌, ◌<◌, ◌/◌, length};
ghost use Rattle.runs.specs.Lowest.{group_count, lowest_updated, room_of, room_fits_of};

// The groups of so many rows, the last perhaps short.
pub fn group_count(rows: usize) -> usize
    ensures { result ≡ group_count rows }
{
    rows.div_ceil(64)
}

// Whether a run's slices have room for a row and for the groups of all whole rows.
pub fn room_fits(rows: usize, lowest: usize) -> bool
    ensures { result ≡ room_fits_of (room_of rows lowest) }
{
    (8 <= rows) & (group_count(rows / 8) <= lowest)
}

// Brings the summary of the rows before row i up to date with row i's voltage: the first of a group stands, a later one where it is lower.
pub fn update_lowest(lowest: &mut [f64], i: usize, voltage: f64)
    requires { i / 64 < length lowest.old }
    ensures { lowest.new ≡ lowest_updated i voltage lowest.old }
{
    let g = i / 64;
    if i % 64 == 0 {
        lowest[g] = voltage;
        return;
    }
    if voltage < lowest[g] {
        lowest[g] = voltage;
    }
}
