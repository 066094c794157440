// The arrays of a Doyle-Fuller-Newman cell: the counts of their places (`counts`), what these are checked for, and the largest change of the electrolyte.
#![tactic(auto)]

pub mod counts;

ghost use Rattle.std.specs.Prelude.{◌≡◌, ◌≤◌};
ghost use Rattle.dfn_places.specs.Places.{solid_fits, electrolyte_fits, change_after};

pub use counts::{Count, FitConfig};

// This and `electrolyte_fits` stay two: each is a row of the table, in one call.
// Whether the first n places of an electrode's particles are in 0 to c_max and the others +0.
pub fn solid_fits(c: &[f64; 512], n: usize, c_max: f64) -> bool
    ensures { result ≡ solid_fits c.now n c_max }
{
    arrays::places_fit(c, n, 0.0, c_max)
}

// Whether the first n places of the electrolyte are in 1 to 1e5 and the others +0.
pub fn electrolyte_fits(c: &[f64; 33], n: usize) -> bool
    ensures { result ≡ electrolyte_fits c.now n }
{
    arrays::places_fit(c, n, 1.0, 1e5)
}

// The largest change of the first n places in size, from 0.
pub fn largest_change(new: &[f64; 33], old: &[f64; 33], n: usize) -> f64
    requires { n ≤ 33 }
    ensures { result ≡ change_after new.now old.now n }
{
    let mut most = 0.0;
    for (a, b) in new[..n].iter().zip(&old[..n]) {
        most = min_max::max(most, min_max::abs(*a - *b));
    }
    most
}
