// Refusals: the rows of docs/REFERENCE.md's table, and the tests that several calls share. A call makes its tests in the table's
// order, and `?` ends it at the first that fails.
#![tactic(auto, unfolding(crate::specs::Numbers::refusal_unless, crate::specs::Numbers::first_refusal, crate::specs::Answers::outcome))]

ghost use Rattle.std.specs.Prelude.{◌≡◌, cond};
ghost use Rattle.refusal.specs.Numbers.{refusal_unless, first_refusal};
ghost use Rattle.refusal.specs.Refusals.{number_of, row_number, refusal_of};
ghost use Rattle.refusal.specs.Answers.{outcome_of, outcome_by, finite_outcome};
ghost use Rattle.refusal.specs.Ranges.{in_range, count_in_range, finite, plus_zero, load_fits_of, interval_fits, temperature_fits, clock_fits};

// A row of the table: why a call is refused.
#[derive(Clone, Copy, Debug, PartialEq, Eq, Hash)]
pub enum Refusal {
    // A node count, a matrix order or a pack's number of cells outside its limits.
    Grid,
    // Another field, argument, chemistry or matrix entry not finite or out of range.
    Sheet,
    // A current, a flux or a source not finite or too large.
    Load,
    // An interval out of range, or a run's time limit not finite.
    Interval,
    // A temperature out of 200 to 400 K.
    Temperature,
    // A corrected diffusivity out of range.
    Diffusivity,
    // More than 4,096 sub-steps.
    SubSteps,
    // The new cell, report, number or solution would hold a NaN or an infinity.
    NotFinite,
    // A column's largest pivot below 1e-14.
    Singular,
    // A run's slice under eight places, or matrix lengths that are not n * n and n.
    Length,
    // A line of a recorded load not of its form.
    Line,
    // A recorded load above 65,536 bytes.
    File,
    // A cell's index not below the number of cells in its pack.
    Index,
}

impl Refusal {
    // The number of the row.
    pub fn number(self) -> u64
        ensures { result ≡ number_of self }
    {
        match self {
            Refusal::Grid => 1,
            Refusal::Sheet => 2,
            Refusal::Load => 3,
            Refusal::Interval => 4,
            Refusal::Temperature => 5,
            Refusal::Diffusivity => 6,
            Refusal::SubSteps => 7,
            Refusal::NotFinite => 8,
            Refusal::Singular => 9,
            Refusal::Length => 10,
            Refusal::Line => 11,
            Refusal::File => 12,
            Refusal::Index => 13,
        }
    }

    // The row with a number, where the table has one.
    pub fn from_number(number: u64) -> Option<Refusal>
        ensures { row_number result ≡ cond (count_in_range number 1 13) number 0 }
    {
        match number {
            1 => Some(Refusal::Grid),
            2 => Some(Refusal::Sheet),
            3 => Some(Refusal::Load),
            4 => Some(Refusal::Interval),
            5 => Some(Refusal::Temperature),
            6 => Some(Refusal::Diffusivity),
            7 => Some(Refusal::SubSteps),
            8 => Some(Refusal::NotFinite),
            9 => Some(Refusal::Singular),
            10 => Some(Refusal::Length),
            11 => Some(Refusal::Line),
            12 => Some(Refusal::File),
            13 => Some(Refusal::Index),
            _ => None,
        }
    }
}

// The number that a call in C returns: 0 where nothing is refused.
pub fn number_or_0(tested: Result<(), Refusal>) -> u64
    ensures { result ≡ refusal_of tested }
{
    match tested {
        Ok(()) => 0,
        Err(e) => e.number(),
    }
}

// 0 where the test passed, else the number.
pub fn refusal_unless(ok: bool, number: u64) -> u64
    ensures { result ≡ refusal_unless ok number }
{
    if ok { 0 } else { number }
}

// The first of two that is met: a, and where a is none, b.
pub fn first_refusal(a: u64, b: u64) -> u64
    ensures { result ≡ first_refusal a b }
{
    if a == 0 { b } else { a }
}

// Refuses where a test has not passed.
pub fn refuse_unless(passed: bool, refusal: Refusal) -> Result<(), Refusal>
    ensures { refusal_of result ≡ refusal_unless passed (number_of refusal) }
{
    if passed { Ok(()) } else { Err(refusal) }
}

// Whether low <= x <= high. No NaN is in a range; -0 is in one that starts at 0.
pub fn within(x: f64, low: f64, high: f64) -> bool
    ensures { result ≡ in_range x low high }
{
    (low <= x) & (x <= high)
}

// Whether low <= n <= high.
pub fn count_within(n: u64, low: u64, high: u64) -> bool
    ensures { result ≡ count_in_range n low high }
{
    (low <= n) & (n <= high)
}

// Whether x is a number: no NaN and no infinity. A number less itself is 0, and nothing else is.
pub fn is_finite(x: f64) -> bool
    ensures { result ≡ finite x }
{
    x - x == 0.0
}

// Whether x is +0 by its bits, as an unused place must be: -0 is not.
pub fn plus_zero(x: f64) -> bool
    ensures { result ≡ plus_zero x }
{
    words::to_bits(x) == 0
}

// Whether a current, a flux or a source is at most `most` in size.
pub fn load_fits(x: f64, most: f64) -> bool
    ensures { result ≡ load_fits_of x most }
{
    within(x, -most, most)
}

// Whether an interval is above 0 and at most a day.
pub fn interval_fits(dt: f64) -> bool
    ensures { result ≡ interval_fits dt }
{
    (0.0 < dt) & (dt <= 86400.0)
}

// Whether a temperature is in 200 to 400 K.
pub fn temperature_fits(temp_k: f64) -> bool
    ensures { result ≡ temperature_fits temp_k }
{
    within(temp_k, 200.0, 400.0)
}

// Whether a cell's clock is finite and not below 0.
pub fn clock_fits(time_s: f64) -> bool
    ensures { result ≡ clock_fits time_s }
{
    is_finite(time_s) & (0.0 <= time_s)
}

// The number that a call gives, whose tests come first: refused too where it is not finite.
pub fn answered(tested: Result<(), Refusal>, x: f64) -> Result<f64, Refusal>
    ensures { outcome_of result ≡ finite_outcome (refusal_of tested) x }
{
    tested?;
    refuse_unless(is_finite(x), Refusal::NotFinite)?;
    Ok(x)
}

// The same of a call whose tests have passed.
pub fn finite_or_refused(x: f64) -> Result<f64, Refusal>
    ensures { outcome_of result ≡ finite_outcome 0 x }
{
    answered(Ok(()), x)
}

// The same of tests that met a number, of the table or not, 0 for none.
pub fn answered_by_number(refusal: u64, x: f64) -> Result<f64, u64>
    ensures { outcome_by result ≡ finite_outcome refusal x }
{
    let number = first_refusal(
        refusal,
        refusal_unless(is_finite(x), Refusal::NotFinite.number()),
    );
    if number == 0 { Ok(x) } else { Err(number) }
}
