// The ranges of the numbers that a run is set by: one table for testing a number and for saying its range.
ghost use Rattle.std.specs.Prelude.{◌≡◌};
ghost use Rattle.setting_table.specs.Ranges.{low_of, high_of, in_place, is_count, is_whole};

use crate::names::{ANODE, CATHODE, N_NODES, Place};
use crate::rows::ROWS;

impl Place {
    // The low end of the number's range.
    pub fn low(self) -> f64
        ensures { result ≡ low_of self }
    {
        ROWS[self.row()].low
    }

    // The high end.
    pub fn high(self) -> f64
        ensures { result ≡ high_of self }
    {
        ROWS[self.row()].high
    }

    // Whether a number is in the range of its place.
    pub fn in_range(self, x: f64) -> bool
        ensures { result ≡ in_place self x }
    {
        (self.low() <= x) & (x <= self.high())
    }

    // Whether the number is a whole one.
    pub fn is_count(self) -> bool
        ensures { result ≡ is_count self }
    {
        is_count(self.index())
    }
}

// Whether the number at an index is a whole one.
pub fn is_count(k: usize) -> bool
    ensures { result ≡ is_count k }
{
    matches!(k, N_NODES | ANODE | CATHODE)
}

pub fn is_whole(x: f64) -> bool
    ensures { result ≡ is_whole x }
{
    std::num::nearest_u64_to_f64(min_max::ceil_count(x)) == x
}
