// Arrays of numbers of which the first n places are used and the others are +0: the tests of their places, filling them and making them. A cell's arrays
// differ in length and are lent as slices.
#![tactic(auto)]

ghost use Rattle.std.specs.Prelude.{◌≡◌, ◌≤◌, length, Bool, Float};
ghost use Rattle.refusal.specs.Ranges.{in_range};
ghost use Rattle.iterate.specs.Iterate.{first_by};
ghost use Rattle.arrays.specs.Places.{all_finite, all_pass, places_fit, filled};

// Whether each place of a slice passes a test. A place that fails does not end the loop, so that it is done in vectors.
fn all_pass<F: Fn(f64) -> bool>(c: &[f64], test: F) -> bool
    requires { F.IsAlwaysCallable test }
    ensures { (t : Float → Bool) → ((x : Float) (r : Bool) → F.post test x r → r ≡ t x) → result ≡ all_pass t c.now (length c.now) }
{
    let mut ok = true;
    for x in c {
        ok = ok & test(*x);
    }
    ok
}

// Whether each of the first n places is a number.
pub fn all_finite(c: &[f64], n: usize) -> bool
    requires { n ≤ length c.now }
    ensures { result ≡ all_finite c.now n }
{
    all_pass(&c[..n], |x| refusal::is_finite(x))
}

// Whether each of the first n places passes a test and every other place is +0.
pub fn places_pass<F: Fn(f64) -> bool>(c: &[f64], n: usize, test: F) -> bool
    requires { F.IsAlwaysCallable test }
    ensures { (t : Float → Bool) → ((x : Float) (r : Bool) → F.post test x r → r ≡ t x) → result ≡ places_fit t c.now n (length c.now) }
{
    let used = n.min(c.len());
    all_pass(&c[..used], test) & all_pass(&c[used..], |x| refusal::plus_zero(x))
}

// Whether each of the first n places is in low to high and every other place is +0.
pub fn places_fit(c: &[f64], n: usize, low: f64, high: f64) -> bool
    ensures { result ≡ places_fit (λ x. in_range x low high) c.now n (length c.now) }
{
    places_pass(c, n, |x| refusal::within(x, low, high))
}

// Puts x in each of the first n places.
pub fn fill(c: &mut [f64], n: usize, x: f64)
    requires { n ≤ length c.old }
    ensures { c.new ≡ first_by n (λ i. x) c.old }
{
    c[..n].fill(x);
}

// An array of N places with x in the first n, the others +0.
pub fn uniform<const N: usize>(x: f64, n: usize) -> [f64; N]
    requires { n ≤ N }
    ensures { result ≡ filled N x n }
{
    let mut c = [0.0; N];
    fill(&mut c, n, x);
    c
}
