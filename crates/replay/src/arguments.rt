// The arguments: the first may name the cell, one is load=FILE, each other one is NAME=VALUE.
use cell_file::{Settings, place_on};
use command_line::arguments;
use command_line::arguments::{Said, refused};
use std::env::Env;
use std::rt::Files;

// The numbers, and which argument names the load file.
#[derive(Clone, Copy)]
pub(crate) struct Arguments {
    pub(crate) settings: Settings,
    pub(crate) load: Option<usize>,
}

// Takes an argument that sets a number.
fn take_setting(st: Settings, i: usize, word: &[u8]) -> Result<Settings, Said> {
    if let Some(k) = place_on(word) {
        if k.in_load() {
            return Err(refused(
                word,
                b"a replay has current, dt and time from its load file",
            ));
        }
    }
    arguments::take_argument(Ok(st), i, word, b"replay")
}

// Takes load=FILE.
fn take_load(g: Arguments, i: usize, word: &[u8]) -> Result<Arguments, Said> {
    if word == b"load=".as_slice() {
        return Err(refused(word, b"expected load=FILE"));
    }
    if g.load.is_some() {
        return Err(refused(word, b"given twice"));
    }
    Ok(Arguments {
        settings: g.settings,
        load: Some(i),
    })
}

// Takes argument i.
fn take(rt: &impl Env, g: Arguments, i: usize) -> Result<Arguments, Said> {
    let mut text = io::buffer();
    let word = arguments::argument(rt, i, &mut text);
    if word.starts_with(b"load=") {
        return take_load(g, i, word);
    }
    Ok(Arguments {
        settings: take_setting(g.settings, i, word)?,
        load: g.load,
    })
}

// What all arguments say, of which the first is at hand.
pub(crate) fn given(rt: &(impl Env + Files), first: &[u8]) -> Result<Arguments, Said> {
    let mut g = Arguments {
        settings: arguments::first_settings(rt, first, b"replay")?,
        load: None,
    };
    for i in arguments::first_place(first)..arguments::argument_count(rt) {
        g = take(rt, g, i)?;
    }
    Ok(g)
}
