// A binary64 as a 64-bit word and back, for every word and every value, a NaN too. There is one NaN: every NaN pattern
// gives it, and one pattern stands for it.
#![tactic(auto)]

ghost use Rattle.std.specs.Prelude.{◌≡◌};
ghost use Rattle.std.specs.Float.{binary64};
ghost use Rattle.std.specs.Float.Ieee.{of_bits, to_bits};

// The number whose bits are n.
pub fn from_bits(n: u64) -> f64
    ensures { result ≡ of_bits binary64 n }
{
    if 0x7ff0_0000_0000_0000 < n % 0x8000_0000_0000_0000 {
        return f64::NAN;
    }
    f64::from_bits(n)
}

// The bits of x.
pub fn to_bits(x: f64) -> u64
    ensures { result ≡ to_bits binary64 x }
{
    if x.is_nan() {
        return 0x7ff8_0000_0000_0000;
    }
    x.to_bits()
}
