// Decimals as people type them: the binary64 nearest to digits / 10^places. Up to 2^53 the digits are a float exactly, and up to 22 so is the
// power of ten, so the quotient rounds once; anything longer is not read.
ghost use Rattle.std.specs.Prelude.{◌≡◌};
ghost use Rattle.decimal_text.specs.Nearest.{tens, nearest_to};

// The most places that are read.
const PLACES: usize = 22;

// 10^k, multiplied up from 1.
fn power_of_ten(k: usize) -> f64
    ensures { result ≡ tens k }
{
    let mut p = 1.0;
    for _ in 0..k {
        p *= 10.0;
    }
    p
}

// The binary64 nearest to digits / 10^places, where it is read.
pub fn nearest(digits: u64, places: usize) -> Option<f64>
    ensures { result ≡ nearest_to digits places }
{
    if digits <= 9007199254740992 && places <= PLACES {
        return Some(std::num::nearest_u64_to_f64(digits) / power_of_ten(places));
    }
    None
}
