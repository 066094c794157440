// The profile of a particle: 64 places, the first n used. What it is checked for, and the sums of its average over the
// volume; the sub-step that makes it anew (`sub_step`). A changed translation of src/battery/p2d/electrode.rs (`ParticleDiffusion::c_avg`).
#![tactic(auto, unfolding(crate::specs::Places::profile_fits, crate::specs::Sums::sums_after, crate::specs::SubSteps::inverse_radii, iterate::specs::Iterate::first_by, iterate::specs::Iterate::times))]

pub mod nodes;
pub mod sub_step;

ghost use Rattle.std.specs.Prelude.{◌≡◌, ◌<◌, ◌≤◌};
ghost use Rattle.profile.specs.Places.{profile_fits, finite_profile};
ghost use Rattle.profile.specs.Weights.{weight};
ghost use Rattle.profile.specs.Sums.{added_by, sums_after};

pub use nodes::Nodes;
use sub_step::count_f64;

// Whether the first n places are in 0 to c_max and the others +0.
pub fn profile_fits(c: &[f64; 64], n: usize, c_max: f64) -> bool
    ensures { result ≡ profile_fits c.now n c_max }
{
    arrays::places_fit(c, n, 0.0, c_max)
}

// Whether every place is finite.
pub fn profile_finite(c: &[f64; 64]) -> bool
    ensures { result ≡ finite_profile c.now }
{
    arrays::all_finite(c, 64)
}

// The sums over the places so far: of the shares of the volume, and of these with the concentrations.
#[derive(Clone, Copy)]
pub struct Sums {
    pub shares: f64,
    pub content: f64,
}

// The weight of the place i of n: 1 at both ends, between them 2 at even places and 4 at odd ones.
#[tactic(auto, unfolding(crate::specs::Weights::weight, crate::specs::Weights::inner_weight))]
fn weight(n: usize, i: usize) -> f64
    requires { 1 ≤ n }
    ensures { result ≡ weight n i }
{
    if (i == 0) | (i == n - 1) {
        return 1.0;
    }
    if i % 2 == 0 {
        return 2.0;
    }
    4.0
}

// The sums with the place i of the weight w added.
fn added(s: Sums, w: f64, dr: f64, i: usize, c: f64) -> Sums
    requires { i < 64 }
    ensures { result ≡ added_by s w dr i c }
{
    let r = count_f64(i) * dr;
    let share = w * r * r;
    Sums {
        shares: s.shares + share,
        content: s.content + share * c,
    }
}

// The sums over the first n places.
// By number: a place's is in its weight and its radius. The count is a number, so that this and `inverse_radii` take what they always took.
pub fn sums_of(c: &[f64; 64], n: usize, dr: f64) -> Sums
    requires { (1 ≤ n) × (n ≤ 64) }
    ensures { result ≡ sums_after c.now n dr n }
{
    let mut s = Sums {
        shares: 0.0,
        content: 0.0,
    };
    for i in 0..n {
        s = added(s, weight(n, i), dr, i, c[i]);
    }
    s
}
