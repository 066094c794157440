// The arguments: the first may name the cell, each other one is NAME=VALUE.
ghost use Rattle.std.specs.Prelude.{◌≡◌, ◌≤◌, length};
ghost use Rattle.cell_file.specs.Settings.{fresh_settings};
ghost use Rattle.command_line.specs.Arguments.{names_cell, asks_help, first_place, fresh_answered};

use crate::reading;
use cell_file::Settings;
use cell_file::records::ready;
use electrode::ElectrodeParams;
use setting_messages::{ERR, say};
use setting_table::names::NONE;
use std::env::{Env, FillError};
use std::rt::Files;

// What is wrong has been said.
#[derive(Clone, Copy, Debug, PartialEq, Eq)]
pub struct Said;

// Whether the first argument names a cell.
pub fn names_cell(word: &[u8]) -> bool
    ensures { result ≡ names_cell word.now }
{
    !word.is_empty() & !word.contains(&b'=')
}

// Whether the first argument asks for the list of names.
pub fn asks_help(word: &[u8]) -> bool
    ensures { result ≡ asks_help word.now }
{
    plain_text::is(word, b"help") | plain_text::is(word, b"--help") | plain_text::is(word, b"-h")
}

// Numbers to start from, and the number of a fault that was met before, which may be none of `cell_file::Fault`.
#[derive(Clone, Copy)]
pub struct NumberedFault {
    pub fault: u64,
    pub settings: Settings,
}

// The numbers to start from, of which none is given yet, where a fault with a number was met before, 0 for none.
pub fn fresh(values: [f64; NONE], fault: u64) -> Result<Settings, NumberedFault>
    ensures { fresh_answered result ≡ fresh_settings values fault }
{
    let settings = Settings::fresh(values);
    if fault == 0 {
        return Ok(settings);
    }
    Err(NumberedFault { fault, settings })
}

// Argument i, put at the start of a text; empty also where there is no such argument, and where it is longer than the text.
pub fn argument<'a>(rt: &impl Env, i: usize, text: &'a mut [u8]) -> &'a [u8]
    ensures { length result.now ≤ length text.old }
{
    let size = rt.arg(i, text).unwrap_or(0);
    &text[..size]
}

// How many arguments there are, the program's name among them.
// By number: the library says no count, only whether there is an argument i.
pub fn argument_count(rt: &impl Env) -> usize {
    let mut text = [0u8; 1];
    for i in 0..usize::MAX {
        if let Err(FillError::NotPresent) = rt.arg(i, &mut text) {
            return i;
        }
    }
    usize::MAX
}

// Reads a file into a text, as far as there is room for it; where it cannot be read, it says so.
pub fn read_file<'a>(rt: &impl Files, path: &[u8], text: &'a mut [u8]) -> Result<&'a [u8], Said> {
    match reading::read(rt, path, text) {
        Ok(size) => Ok(&text[..size]),
        Err(error) => {
            reading::say_fault(path, error);
            Err(Said)
        }
    }
}

// The numbers of a cell file.
fn from_file(
    rt: &impl Files,
    path: &[u8],
    start: Settings,
    program: &[u8],
) -> Result<Settings, Said> {
    let mut text = io::buffer();
    let file = read_file(rt, path, &mut text)?;
    match start.take_cell(file) {
        Ok(st) => Ok(st),
        Err(e) => {
            setting_messages::in_file(Err(e), path, program);
            Err(Said)
        }
    }
}

// The cell that the first argument names, or graphite with NMC.
fn named_cell(rt: &impl Files, word: &[u8], program: &[u8]) -> Result<Settings, Said> {
    if plain_text::is(word, b"lfp") {
        return Ok(Settings::fresh(ready(ElectrodeParams::lfp_cathode())));
    }
    let nmc = Settings::fresh(ready(ElectrodeParams::nmc_cathode()));
    if names_cell(word) & !plain_text::is(word, b"nmc") {
        return from_file(rt, word, nmc, program);
    }
    Ok(nmc)
}

// The numbers before the arguments that set one: those of the cell that the first argument names. What a cell file gave, an argument may give again.
pub fn first_settings(rt: &impl Files, first: &[u8], program: &[u8]) -> Result<Settings, Said> {
    let cell = named_cell(rt, first, program)?;
    Ok(Settings::fresh(cell.values))
}

// The first argument that sets something.
#[tactic(auto, unfolding(crate::specs::Arguments::first_place))]
pub fn first_place(first: &[u8]) -> usize
    ensures { result ≡ first_place first.now }
{
    if names_cell(first) { 2 } else { 1 }
}

// Says what is wrong with an argument.
pub fn refused(word: &[u8], fault: &[u8]) -> Said {
    say(ERR, b"'");
    say(ERR, word);
    say(ERR, b"': ");
    say(ERR, fault);
    say(ERR, b"\n");
    Said
}

// Takes argument i, unless a fault was met before; an empty one, or one that is too long, is a fault too.
pub fn take_argument(
    st: Result<Settings, Said>,
    i: usize,
    word: &[u8],
    program: &[u8],
) -> Result<Settings, Said> {
    let st = st?;
    if word.is_empty() {
        say(ERR, b"an argument is empty or longer than 4,096 bytes\n");
        return Err(Said);
    }
    match st.take_line(i as u64, word) {
        Ok(taken) => Ok(taken),
        Err(e) => {
            setting_messages::in_argument(Some(e.fault), e.place, word, program);
            Err(Said)
        }
    }
}
