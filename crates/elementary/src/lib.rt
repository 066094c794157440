// The elementary functions of the cell models, each with a result for every f64. They stand in for the library's, to
// the last bit: each operation rounds once, in the order of the definitions in specs/. The square root and what does
// not round have crates of their own, square_root and min_max.
#![tactic(auto)]

ghost use Rattle.std.specs.Prelude.{◌≡◌, ◌≤◌};
ghost use Rattle.std.specs.Float.{binary64};
ghost use Rattle.std.specs.Float.Ieee.{of_int, minus};
ghost use Rattle.elementary.specs.Exp.{one, series, squarings, exp_of};
ghost use Rattle.elementary.specs.LastTerms.{last_terms, MeetAtSeries};
ghost use Rattle.elementary.specs.Arrhenius.{arrhenius_of};
ghost use Rattle.elementary.specs.Ln.{ln_parts, ln_of};
ghost use Rattle.elementary.specs.Asinh.{asinh_of};
ghost use Rattle.elementary.specs.Power.{powf_of, square_of, cube_of, fourth_of};

// The series of the exponential of y, to the term of y ^ 18.
fn exp_series(y: f64) -> f64
    ensures { result ≡ series 18 y one }
{
    let mut a = 1.0;
    for k in (1..=18u32).rev() {
        a = 1.0 + (a * y) / (k as f64);
    }
    a
}

// The last terms of the series, from a start below what the terms before them give and from one above.
#[derive(Clone, Copy)]
struct Bracket {
    low: f64,
    high: f64,
}

// The last terms of the series of y, from 3/4 and from 5/4: two chains of divisions, neither of which waits for the other.
fn last_terms(y: f64, terms: u32) -> Bracket
    ensures { result ≡ last_terms terms y }
{
    let mut low = 0.75;
    let mut high = 1.25;
    for k in (1..=terms).rev() {
        let d = k as f64;
        low = 1.0 + (low * y) / d;
        high = 1.0 + (high * y) / d;
    }
    Bracket { low, high }
}

// The series of y: what its last terms come to from both starts, where that is one number, else from its first term.
fn series_from_last(b: Bracket, y: f64) -> f64
    requires { MeetAtSeries b y }
    ensures { result ≡ series 18 y one }
{
    if b.low == b.high {
        return b.low;
    }
    exp_series(y)
}

// The same series with fewer divisions to wait for. The terms before the last ones give a number between the two starts, and each term
// keeps the order of two numbers or turns it round; so where the last terms come to one number from both starts, the series comes to it.
// How many terms bring them together is found by trial: where they are too few, the whole series is made.
fn short_series(y: f64) -> f64
    ensures { result ≡ series 18 y one }
{
    if (-0.125 <= y) & (y <= 0.125) {
        if (-0.001953125 <= y) & (y <= 0.001953125) {
            return series_from_last(last_terms(y, 6), y);
        }
        if (-0.015625 <= y) & (y <= 0.015625) {
            return series_from_last(last_terms(y, 8), y);
        }
        return series_from_last(last_terms(y, 12), y);
    }
    exp_series(y)
}

// a to the power 1024.
fn exp_squarings(a: f64) -> f64
    ensures { result ≡ squarings 10 a }
{
    let mut p = a;
    for _ in 0..10u32 {
        p = p * p;
    }
    p
}

// E, the exponential of t.
pub fn exp(t: f64) -> f64
    ensures { result ≡ exp_of t }
{
    // The Arrhenius factor at the reference temperature, without the series' divisions.
    if t == 0.0 {
        return 1.0;
    }
    if t > 709.0 {
        return f64::INFINITY;
    }
    if t < -708.0 {
        return 0.0;
    }
    exp_squarings(short_series(t / 1024.0))
}

// The Arrhenius factor of an activation energy in J/mol, by which a rate goes from the temperature t_ref to t.
pub fn arrhenius(e_a: f64, t_ref: f64, t: f64) -> f64
    ensures { result ≡ arrhenius_of e_a t_ref t }
{
    exp(e_a / 8.314 * (1.0 / t_ref - 1.0 / t))
}

// w - 1074 as a float.
fn exponent(w: u64) -> f64
    requires { w ≤ 2098 }
    ensures { result ≡ of_int binary64 (minus w 1074) }
{
    (w as i64 - 1074) as f64
}

// The logarithm of m * 2 ^ k, for an m near 1.
fn ln_parts(m: f64, k: f64) -> f64
    ensures { result ≡ ln_parts m k }
{
    let s = (m - 1.0) / (m + 1.0);
    let q = s * s;
    let mut a = 1.0 / 23.0;
    for j in (0..11u32).rev() {
        a = 1.0 / ((2 * j + 1) as f64) + q * a;
    }
    k * std::f64::consts::LN_2 + (2.0 * s) * a
}

// L, the natural logarithm of x: of a zero -infinity, below zero a NaN.
pub fn ln(x: f64) -> f64
    ensures { result ≡ ln_of x }
{
    if x.is_nan() {
        return x;
    }
    if x == 0.0 {
        return f64::NEG_INFINITY;
    }
    let b = x.to_bits();
    if b >= 0x8000_0000_0000_0000 {
        return f64::NAN;
    }
    let Some(p) = square_root::parts_of(b) else {
        return x;
    };
    let m = f64::from_bits(0x3fe0_0000_0000_0000 + p.c);
    if m >= 1.5 {
        return ln_parts(m / 2.0, exponent(p.w + 1));
    }
    ln_parts(m, exponent(p.w))
}

// H, the inverse hyperbolic sine of x. Below 2 ^ -10 in size by two terms of the Taylor series: the logarithm's form would lose the last places of x.
pub fn asinh(x: f64) -> f64
    ensures { result ≡ asinh_of x }
{
    let a = min_max::abs(x);
    if a < 0.0009765625 {
        return x * (1.0 - (x * x) / 6.0);
    }
    let r = ln(a + square_root::sqrt(a * a + 1.0));
    if min_max::is_negative(x) {
        return -r;
    }
    r
}

// x to the power b.
pub fn powf(x: f64, b: f64) -> f64
    ensures { result ≡ powf_of x b }
{
    exp(b * ln(x))
}

pub fn square(x: f64) -> f64
    ensures { result ≡ square_of x }
{
    x * x
}

pub fn cube(x: f64) -> f64
    ensures { result ≡ cube_of x }
{
    x * (x * x)
}

pub fn fourth(x: f64) -> f64
    ensures { result ≡ fourth_of x }
{
    (x * x) * (x * x)
}
