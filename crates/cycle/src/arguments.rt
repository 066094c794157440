// The arguments: the first may name the cell; charge=AMPERES, rest=SECONDS and discharge=AMPERES are phases, in the order given; then repeat=N, budget=N and, as each other
// one, NAME=VALUE.
use cell_file::{Fault, Settings, place_on};
use command_line::arguments;
use command_line::arguments::{Said, refused};
use cycle_run::phases::{Phase, load_fits, time_fits};
use plain_text::{is, without_blanks};
use setting_table::ranges::is_whole;
use std::env::Env;
use std::rt::Files;

// A cycle's own names.
#[derive(Clone, Copy, Debug, PartialEq, Eq)]
enum Own {
    Charge,
    Rest,
    Discharge,
    Repeat,
    Budget,
}

// The numbers; the phases, of which the first `count` are meant, as `cycle_run::cycle` takes them; how often they are repeated, and the most steps.
#[derive(Clone, Copy)]
pub(crate) struct Arguments {
    pub(crate) settings: Settings,
    pub(crate) count: usize,
    pub(crate) phases: [Phase; 8],
    pub(crate) repeats: Option<usize>,
    pub(crate) budget: Option<usize>,
}

fn own_name(name: &[u8]) -> Option<Own> {
    if is(name, b"charge") {
        return Some(Own::Charge);
    }
    if is(name, b"rest") {
        return Some(Own::Rest);
    }
    if is(name, b"discharge") {
        return Some(Own::Discharge);
    }
    if is(name, b"repeat") {
        return Some(Own::Repeat);
    }
    if is(name, b"budget") {
        return Some(Own::Budget);
    }
    None
}

// Says what is wrong with an argument.
fn faulted(word: &[u8], fault: Fault) -> Said {
    setting_messages::in_argument(Some(fault), None, word, b"cycle");
    Said
}

// Takes a phase.
fn take_phase(g: Arguments, word: &[u8], p: Phase) -> Result<Arguments, Said> {
    let place = g.count;
    if place >= 8 {
        return Err(refused(word, b"a cycle has at most 8 phases"));
    }
    if !load_fits(p) {
        return Err(refused(word, b"out of range, expected above 0 to 1000000 A"));
    }
    if !time_fits(p) {
        return Err(refused(word, b"out of range, expected 0 to 1000000000 s"));
    }
    let mut h = g;
    h.phases[place] = p;
    h.count = place + 1;
    Ok(h)
}

// A count from 1 to the most, which is not given yet.
fn count_of(
    word: &[u8],
    given: Option<usize>,
    x: f64,
    most: f64,
    range: &[u8],
) -> Result<Option<usize>, Said> {
    if given.is_some() {
        return Err(faulted(word, Fault::GivenTwice));
    }
    if !((1.0 <= x) & (x <= most)) {
        return Err(refused(word, range));
    }
    if !is_whole(x) {
        return Err(faulted(word, Fault::NotWhole));
    }
    Ok(Some(min_max::ceil_count(x) as usize))
}

// Takes an argument with one of a cycle's own names.
fn take_own(g: Arguments, word: &[u8], own: Own, value: &[u8]) -> Result<Arguments, Said> {
    let x = match decimal_text::read(without_blanks(value)) {
        Ok(x) => x,
        Err(e) => return Err(faulted(word, Fault::from(e))),
    };
    let mut h = g;
    match own {
        Own::Charge => return take_phase(g, word, Phase::Charge(x)),
        Own::Rest => return take_phase(g, word, Phase::Rest(x)),
        Own::Discharge => return take_phase(g, word, Phase::Discharge(x)),
        Own::Repeat => {
            h.repeats = count_of(
                word,
                g.repeats,
                x,
                1000.0,
                b"out of range, expected 1 to 1000",
            )?;
        }
        Own::Budget => {
            h.budget = count_of(
                word,
                g.budget,
                x,
                100000.0,
                b"out of range, expected 1 to 100000",
            )?;
        }
    }
    Ok(h)
}

// Takes an argument that sets a number.
// Its number and its text stay two: `take_argument` takes them so.
fn take_setting(g: Arguments, i: usize, word: &[u8]) -> Result<Arguments, Said> {
    if let Some(k) = place_on(word) {
        if k.in_phases() {
            return Err(refused(word, b"a cycle has current and time from its phases"));
        }
    }
    let taken = arguments::take_argument(Ok(g.settings), i, word, b"cycle")?;
    let mut h = g;
    h.settings = taken;
    Ok(h)
}

fn take_word(g: Arguments, i: usize, word: &[u8]) -> Result<Arguments, Said> {
    if let Some((name, value)) = plain_text::split_once(word, b'=') {
        if let Some(own) = own_name(without_blanks(name)) {
            return take_own(g, word, own, value);
        }
    }
    take_setting(g, i, word)
}

// Takes argument i.
fn take(rt: &impl Env, g: Arguments, i: usize) -> Result<Arguments, Said> {
    let mut text = io::buffer();
    take_word(g, i, arguments::argument(rt, i, &mut text))
}

// What all arguments say, of which the first is at hand. A place that no phase has is a rest, at which nothing looks.
pub(crate) fn given(rt: &(impl Env + Files), first: &[u8]) -> Result<Arguments, Said> {
    let rest = Phase::Rest(0.0);
    let mut g = Arguments {
        settings: arguments::first_settings(rt, first, b"cycle")?,
        count: 0,
        phases: [rest; 8],
        repeats: None,
        budget: None,
    };
    for i in arguments::first_place(first)..arguments::argument_count(rt) {
        g = take(rt, g, i)?;
    }
    Ok(g)
}
