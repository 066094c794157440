// Reading a decimal out of text: a sign, digits with a point among them, an exponent, as 298.15, -5, .5 or 2e-4, and nothing else.
// The library's `parse` reads more: inf, nan and longer decimals.
#![tactic(auto)]

pub mod nearest;

ghost use Rattle.std.specs.Prelude.{◌≡◌, ◌+◌, ◌-◌, ◌*◌, ◌^◌, ◌≤◌, min, true, drop};
ghost use Rattle.decimal_text.specs.Digits.{most, is_digit, is_at, past_either, digits_end, value_with};
ghost use Rattle.decimal_text.specs.DecimalText.{split_of, scaled_by, number_of};

// From here on a number of digits is too long to be read, however it goes on.
const MOST: u64 = 1000000000000000000;

// Why a text is not read.
#[derive(Clone, Copy, Debug, PartialEq, Eq)]
pub enum DecimalError {
    TooLong,
    NotDecimal,
}

// A run of digits: where it ends, and its number, at most MOST.
#[derive(Clone, Copy)]
pub struct Run {
    pub end: usize,
    pub value: u64,
}

// The parts of a decimal: its digits as one number and how many of them stand behind the point, the exponent, and the signs.
#[derive(Clone, Copy)]
pub struct Parts {
    pub digits: u64,
    pub places: usize,
    pub exponent: u64,
    pub negative: bool,
    pub down: bool,
}

// Whether one of two bytes stands at a place.
fn is_at(s: &[u8], at: usize, a: u8, b: u8) -> bool
    ensures { result ≡ is_at s.now at a b }
{
    s.get(at).is_some_and(|c| *c == a || *c == b)
}

// The place after one of two bytes, where it stands at this one.
fn past(s: &[u8], at: usize, a: u8, b: u8) -> usize
    ensures { result ≡ past_either s.now at a b }
{
    if is_at(s, at, a, b) { at + 1 } else { at }
}

// Ten times a number and a digit more.
fn with_digit(n: u64, b: u8) -> u64
    requires { is_digit b ≡ true }
    ensures { result ≡ min (10 * n + (b - 48)) most }
{
    n.saturating_mul(10)
        .saturating_add(u64::from(b - b'0'))
        .min(MOST)
}

// The run of digits from a place on, behind the number n.
// By place: the run's end is one.
fn digit_run(n: u64, s: &[u8], from: usize) -> Run
    requires { n ≤ most }
    ensures { (result.end ≡ digits_end s.now from) × (result.value ≡ min (value_with n (drop from s.now)) most) }
{
    let mut value = n;
    for at in from..s.len() {
        let b = s[at];
        if !b.is_ascii_digit() {
            return Run { end: at, value };
        }
        value = with_digit(value, b);
    }
    Run {
        end: from.max(s.len()),
        value,
    }
}

// The parts of a text, where it is a decimal.
fn split(s: &[u8]) -> Result<Parts, DecimalError>
    ensures { result ≡ split_of s.now }
{
    let from = past(s, 0, b'+', b'-');
    let whole = digit_run(0, s, from);
    let point = whole.end;
    let after_point = past(s, point, b'.', b'.');
    let fraction = digit_run(whole.value, s, after_point);
    let mark = fraction.end;
    let sign = past(s, mark, b'e', b'E');
    let after_sign = past(s, sign, b'+', b'-');
    let exponent = digit_run(0, s, after_sign);
    let end = exponent.end;
    // digits follow an 'e' that is there, and nothing stands where none is
    let marked = mark < sign;
    let whole_text = (end == s.len())
        & ((from < point) | (after_point < mark))
        & ((marked & (after_sign < end)) | (!marked & (mark == end)));
    if !whole_text {
        return Err(DecimalError::NotDecimal);
    }
    Ok(Parts {
        digits: fraction.value,
        places: mark - after_point,
        exponent: exponent.value,
        negative: is_at(s, 0, b'-', b'-'),
        down: is_at(s, sign, b'-', b'-'),
    })
}

fn scaled(digits: u64, places: usize, exponent: usize, down: bool) -> Option<f64>
    requires { (digits ≤ most) × (exponent ≤ 999) }
    ensures { result ≡ scaled_by digits places exponent down }
{
    if down {
        if places > 22 {
            return None;
        }
        return nearest::nearest(digits, places + exponent);
    }
    if exponent < places {
        return nearest::nearest(digits, places - exponent);
    }
    let power = 10u64.saturating_pow((exponent - places) as u32);
    nearest::nearest(digits.saturating_mul(power), 0)
}

// The binary64 nearest to the decimal that a text is.
pub fn read(s: &[u8]) -> Result<f64, DecimalError>
    ensures { result ≡ number_of s.now }
{
    let p = split(s)?;
    if p.exponent > 999 {
        return Err(DecimalError::TooLong);
    }
    let size = scaled(p.digits, p.places, p.exponent as usize, p.down);
    let x = size.ok_or(DecimalError::TooLong)?;
    Ok(if p.negative { -x } else { x })
}
