// The list of the tests of a range: x and a range's ends, what each test finds, and the numbers that follow.
use crate::line::Line;
use refusal::{Refusal, refuse_unless};

fn tests_agree(line: &mut Line<'_>, x: f64, low: f64, high: f64) -> bool {
    let tests = [
        refusal::within(x, low, high),
        refusal::is_finite(x),
        refusal::plus_zero(x),
        refusal::load_fits(x, high),
        refusal::interval_fits(x),
        refusal::temperature_fits(x),
        refusal::clock_fits(x),
    ];
    let listed = line.next_u64s::<7>();
    tests
        .iter()
        .zip(listed)
        .all(|(passes, word)| u64::from(*passes) == word)
}

// Refuses in this order a `first` and a `second` that are not 0.
fn both_zero(first: u64, second: u64) -> Result<(), Refusal> {
    refuse_unless(first == 0, Refusal::Grid)?;
    refuse_unless(second == 0, Refusal::Sheet)
}

// What stands for the refusal of a test and for the first of two: the numbers of the list, which are any words.
fn numbers_agree(line: &mut Line<'_>, inside: bool, x: u64, low: u64, high: u64) -> bool {
    let number = match refuse_unless(inside, Refusal::Grid) {
        Ok(()) => 0,
        Err(_) => x,
    };
    let first = match both_zero(low, high) {
        Ok(()) => 0,
        Err(Refusal::Grid) => low,
        Err(_) => high,
    };
    line.is_u64(u64::from(refusal::count_within(x, low, high)))
        & line.is_u64(number)
        & line.is_last(first)
}

pub(crate) fn line(line: &mut Line<'_>) -> bool {
    let x = line.next_u64();
    let low = line.next_u64();
    let high = line.next_word();
    let fx = words::from_bits(x);
    let flow = words::from_bits(low);
    let fhigh = words::from_bits(high.value);
    (high.end == b'\t')
        & (words::to_bits(fx) == x)
        & tests_agree(line, fx, flow, fhigh)
        & numbers_agree(line, refusal::within(fx, flow, fhigh), x, low, high.value)
}
