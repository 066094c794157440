// S, the square root: correctly rounded for every f64. A guess is made in floats, of which nothing is
// known, and a test in integers decides whether it is the root; if it is not, the root is found by halving.
// The library's sqrt is the machine's instruction, of which nothing is trusted here.
#![tactic(auto)]

ghost use Rattle.std.specs.Prelude.{◌≡◌, ◌&&◌, ◌+◌, ◌*◌, ◌^◌, ◌≤◌, ◌<◌, leb, ltb, SomeIff, IfSome, OnSome};
ghost use Rattle.std.specs.Float.{binary64};
ghost use Rattle.std.specs.Float.Ieee.{to_bits, of_bits};
ghost use Rattle.square_root.specs.Parts.{PartsOf, parts_given};
ghost use Rattle.square_root.specs.Whole.{Squared, NearestWhole, Digits53};
ghost use Rattle.square_root.specs.Root.{sqrt_of};
ghost use Rattle.square_root.specs.Standard.{SquareRoot};

// A number that is finite and above zero as c * 2 ^ (w - 1126), c having 53 binary digits.
#[derive(Clone, Copy)]
pub struct Parts {
    pub c: u64,
    pub w: u64,
}

// The parts of the number whose bits are b, which is finite and above zero; none of other bits.
pub fn parts_of(b: u64) -> Option<Parts>
    ensures parts { PartsOf b (parts_given result).c (parts_given result).w }
    ensures number { OnSome result ((0 < b) × (b < 0x7ff0_0000_0000_0000)) }
{
    if b == 0 || b >= 0x7ff0_0000_0000_0000 {
        return None;
    }
    let e = b / 0x10_0000_0000_0000;
    let t = b % 0x10_0000_0000_0000;
    if e > 0 {
        return Some(Parts {
            c: t + 0x10_0000_0000_0000,
            w: e + 51,
        });
    }
    let w = t.ilog2();
    Some(Parts {
        c: t << (52 - w),
        w: w as u64,
    })
}

// A whole number near 2 ^ 52 times the root of t, for the t from 1 to 4 whose digits are c and whose exponent
// is odd: y goes to 1 / root of t in two steps of third order, from a start that halves the exponent. Then r,
// which is near the root, is rounded to s, a multiple of 2 ^ -25 with an exact square, and the root is
// s + (t - s * s) / (root + s). Nothing is claimed of it but its range.
fn guess(c: u64, odd: u64) -> u64
    requires c_bound { c < 2 ^ 53 }
    requires odd_bound { odd ≤ 1 }
    ensures { Digits53 result }
{
    let bits = 0x3fe0_0000_0000_0000 + c + odd * 0x10_0000_0000_0000;
    let t = f64::from_bits(bits);
    let y0 = f64::from_bits(0x5fe6_eb50_c7b5_37a9 - bits / 2);
    let a0 = t * y0 * y0;
    let y1 = y0 * (1.875 - a0 * (1.25 - 0.375 * a0));
    let a1 = t * y1 * y1;
    let y2 = y1 * (1.875 - a1 * (1.25 - 0.375 * a1));
    let r = t * y2;
    let s = (r + 201326592.0) - 201326592.0;
    let z = s + (t - s * s) / (r + s);
    if z.is_nan() {
        return 0x10_0000_0000_0000;
    }
    z.to_bits()
        .clamp(0x3ff0_0000_0000_0000, 0x4000_0000_0000_0000)
        - 0x3fe0_0000_0000_0000
}

// A square in two words, high * 2 ^ 52 + low.
#[derive(Clone, Copy)]
struct Words {
    high: u64,
    low: u64,
}

// The square of n, from halves of 26 binary digits.
// The limit of n stands in three functions: a type for it is no plainer, since both of its makers are in this file.
fn squared(n: u64) -> Words
    requires { n ≤ 2 ^ 53 }
    ensures { Squared n result.high result.low }
{
    let h = n / 0x400_0000;
    let l = n % 0x400_0000;
    let mid = h * l * 2;
    Words {
        high: h * h + mid / 0x400_0000,
        low: mid % 0x400_0000 * 0x400_0000 + l * l,
    }
}

// Whether the root of x * 2 ^ 52 is above n + 1/2.
fn is_above(n: u64, x: u64) -> bool
    requires { n ≤ 2 ^ 53 }
    ensures { result ≡ ltb (n * n + n) (x * 2 ^ 52) }
{
    let s = squared(n);
    s.high + (s.low + n) / 0x10_0000_0000_0000 < x
}

// Whether n is the whole number nearest to the root of x * 2 ^ 52.
fn is_nearest(n: u64, x: u64) -> bool
    requires n_bound { n ≤ 2 ^ 53 }
    requires x_bound { x < 2 ^ 54 }
    ensures { result ≡ (leb (x * 2 ^ 52) (n * n + n) && ltb (n * n) (x * 2 ^ 52 + n)) }
{
    let s = squared(n);
    (x <= s.high + (s.low + n) / 0x10_0000_0000_0000)
        & (s.high + (s.low + 0x20_0000_0000_0000 - n) / 0x10_0000_0000_0000 < x + 2)
}

// The whole number nearest to the root of x * 2 ^ 52, by halving.
// It halves an interval and counts nothing, so `while` it is.
fn by_halving(x: u64) -> u64
    requires bound { 2 ^ 52 ≤ x }
    requires x_bound { x < 2 ^ 54 }
    ensures nearest_whole { NearestWhole result (x * 2 ^ 52) }
    ensures digits53 { Digits53 result }
{
    let mut low: u64 = 0xf_ffff_ffff_ffff;
    let mut high: u64 = 0x20_0000_0000_0000;
    while low + 1 < high {
        let n = (low + high) / 2;
        if is_above(n, x) {
            low = n;
        } else {
            high = n;
        }
    }
    high
}

// The whole number nearest to the root of x * 2 ^ 52, x being c or, where odd is 1, twice c.
fn nearest_root(c: u64, odd: u64) -> u64
    requires bound { (2 ^ 52 ≤ c) × (c < 2 ^ 53) }
    requires odd_bound { odd ≤ 1 }
    ensures nearest_whole { NearestWhole result (c * (1 + odd) * 2 ^ 52) }
    ensures digits53 { Digits53 result }
{
    let x = c * (1 + odd);
    let n = guess(c, odd);
    if is_nearest(n, x) {
        return n;
    }
    by_halving(x)
}

// The bits of the square root of the number, finite and above zero, whose bits are b; none of other bits. That number is
// c * 2 ^ (w - 1126), c having 53 digits; the power is made even by doubling c where w is odd.
fn sqrt_bits(b: u64) -> Option<u64>
    ensures value { SomeIff result ((0 < b) × (b < 0x7ff0_0000_0000_0000)) (to_bits binary64 (sqrt_of (of_bits binary64 b))) }
    ensures upper_bound { IfSome result (λ r. r < 0x7ff0_0000_0000_0000) }
{
    let p = parts_of(b)?;
    Some((p.w / 2 + 485) * 0x10_0000_0000_0000 + nearest_root(p.c, p.w % 2))
}

// The square root of x, rounded to the nearest f64. Of a zero it is that zero, below zero it is a NaN.
pub fn sqrt(x: f64) -> f64
    ensures value { result ≡ sqrt_of x }
    ensures square_root { SquareRoot x result }
{
    if x.is_nan() {
        return x;
    }
    let b = x.to_bits();
    if b > 0x8000_0000_0000_0000 {
        return f64::NAN;
    }
    match sqrt_bits(b) {
        Some(root) => f64::from_bits(root),
        None => x,
    }
}
