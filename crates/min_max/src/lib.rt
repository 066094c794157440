// Absolute value, sign, clamp, max, min and the least whole number not below a quotient, each with a result for every f64;
// none of them rounds.
#![tactic(auto)]

ghost use Rattle.std.specs.Prelude.{◌≡◌};
ghost use Rattle.binary64.specs.Operators.{negative};
ghost use Rattle.min_max.specs.MinMax.{abs_of, clamp_of, max_of, min_of};
ghost use Rattle.min_max.specs.Count.{ceil_of};

// Whether the sign is negative, as it is for -0.
pub fn is_negative(x: f64) -> bool
    ensures { result ≡ negative x }
{
    !x.is_nan() && x.is_sign_negative()
}

// The absolute value of x.
pub fn abs(x: f64) -> f64
    ensures { result ≡ abs_of x }
{
    x.abs()
}

// The library's `clamp` asks that lo is at most hi, and its `max` and `min` leave open which of two equal numbers they give, as 0 or -0.
// x, but lo where it is below lo, and then hi where that is above hi.
pub fn clamp(x: f64, lo: f64, hi: f64) -> f64
    ensures { result ≡ clamp_of x lo hi }
{
    let mut y = x;
    if y < lo {
        y = lo;
    }
    if y > hi {
        y = hi;
    }
    y
}

// The larger of a and b; of a NaN and a number, the number.
// This and `min` stay two: they compare in opposite ways, in one line each.
pub fn max(a: f64, b: f64) -> f64
    ensures { result ≡ max_of a b }
{
    if a.is_nan() | (a < b) { b } else { a }
}

// The smaller of a and b; of a NaN and a number, the number.
pub fn min(a: f64, b: f64) -> f64
    ensures { result ≡ min_of a b }
{
    if a.is_nan() | (b < a) { b } else { a }
}

// The least whole number not below q.
pub fn ceil_count(q: f64) -> u64
    ensures { result ≡ ceil_of q }
{
    let whole = std::num::saturating_f64_to_u64(q);
    if std::num::nearest_u64_to_f64(whole) < q {
        whole.saturating_add(1)
    } else {
        whole
    }
}
