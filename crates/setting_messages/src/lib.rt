// Saying names, ranges and faults of the numbers that a run is set by. What is written, no contract can say.
// It is written by `io`: `println!` asks for a runtime, may fail and takes no bytes, which the functions here never did.
#![tactic(auto)]

use cell_file::records::ready;
use cell_file::{Fault, Settings, SettingsFault};
use csv_rows::OUT;
use decimal_spelling::Line;
use electrode::ElectrodeParams;
use setting_table::names::{
    CURRENT, DT, FARADAY, NONE, Part, Place, R_GAS, RESISTANCE, TEMPERATURE, TIME, V_MAX, V_MIN,
};

pub const ERR: i32 = 2;

pub fn say(fd: i32, words: &[u8]) {
    io::write_all(fd, words);
}

pub fn number(fd: i32, x: f64) {
    let mut line = Line::new();
    line.put_number(x);
    csv_rows::write_line(fd, &line);
}

// Writes the name at a place; nothing where there is no place.
pub fn name(fd: i32, place: Option<Place>) {
    let Some(k) = place else {
        return;
    };
    match k.part() {
        Part::Run => {}
        Part::Anode => say(fd, b"anode."),
        Part::Cathode => say(fd, b"cathode."),
    }
    let name = k.name();
    say(fd, name.trim_ascii_end());
}

// The unit of a row of the table, after a blank; nothing for a number without one.
fn unit_of(row: usize) -> &'static [u8] {
    match row {
        CURRENT => b" A",
        DT | TIME => b" s",
        TEMPERATURE | 20 => b" K",
        V_MIN | V_MAX => b" V",
        FARADAY => b" C/mol",
        R_GAS => b" J/(mol K)",
        RESISTANCE => b" ohm m^2",
        11 | 15 => b" m",
        12 => b" m^2/s",
        13 => b" mol/m^3",
        17 => b" m^2",
        18 => b" J/mol",
        19 => b" m^2.5/(mol^0.5 s)",
        _ => b"",
    }
}

// Writes the unit at a place; nothing where there is no place.
pub fn unit(fd: i32, place: Option<Place>) {
    if let Some(k) = place {
        say(fd, unit_of(k.row()));
    }
}

// Writes the range at a place, with its unit; nothing where there is no place.
pub fn range(fd: i32, place: Option<Place>) {
    let Some(k) = place else {
        return;
    };
    if k.index() == TIME {
        say(fd, b"any number of s");
        return;
    }
    if k.index() == DT {
        say(fd, b"above 0");
    } else {
        number(fd, k.low());
    }
    say(fd, b" to ");
    number(fd, k.high());
    unit(fd, place);
}

// The fault, after the place where it was found; the program lists its names.
fn say_what(fault: Fault, place: Option<Place>, program: &[u8]) {
    match fault {
        Fault::NoSign => say(ERR, b"expected NAME=VALUE"),
        Fault::UnknownName => {
            say(ERR, b"no such name: '");
            say(ERR, program);
            say(ERR, b" help' lists them");
        }
        Fault::NotDecimal => say(ERR, b"expected a decimal number, such as 298.15 or 2e-4"),
        Fault::TooLong => say(ERR, b"expected at most 15 digits, and at most 22 places"),
        Fault::OutOfRange => {
            say(ERR, b"out of range, expected ");
            range(ERR, place);
        }
        Fault::NotWhole => say(ERR, b"expected a whole number"),
        Fault::GivenTwice => say(ERR, b"given twice"),
        Fault::LongFile => say(ERR, b"a cell file has at most 4,095 bytes"),
        Fault::NotGiven => say(
            ERR,
            b"not given, and a cell file gives each number of both sheets but t_ref",
        ),
    }
}

// Of an argument; the signs around the fault alone where there is none.
pub fn in_argument(fault: Option<Fault>, place: Option<Place>, text: &[u8], program: &[u8]) {
    say(ERR, b"'");
    say(ERR, text);
    say(ERR, b"': ");
    if let Some(fault) = fault {
        say_what(fault, place, program);
    }
    say(ERR, b"\n");
}

// The fault of a cell file, with its line.
fn say_fault(e: SettingsFault, program: &[u8]) {
    if e.line != 0 {
        say(ERR, b": line ");
        io::print_decimal(ERR, e.line);
    }
    say(ERR, b": ");
    if e.place.is_some() {
        name(ERR, e.place);
        say(ERR, b": ");
    }
    say_what(e.fault, e.place, program);
    if let (Fault::GivenTwice, Some(k)) = (e.fault, e.place) {
        say(ERR, b", first in line ");
        io::print_decimal(ERR, e.settings.given[k.index()]);
    }
}

// Of a cell file; the signs around the fault alone where there is none.
pub fn in_file(answer: Result<Settings, SettingsFault>, path: &[u8], program: &[u8]) {
    say(ERR, path);
    match answer {
        Ok(_) => say(ERR, b": "),
        Err(e) => say_fault(e, program),
    }
    say(ERR, b"\n");
}

// A row of the list of names: the name, a value, its unit and its range; the signs around them alone where there is no place.
pub fn write_name(v: &[f64; NONE], place: Option<Place>) {
    let Some(k) = place else {
        say(OUT, b"     =   ()\n");
        return;
    };
    say(OUT, b"    ");
    name(OUT, Some(k));
    say(OUT, b" = ");
    number(OUT, v[k.index()]);
    unit(OUT, Some(k));
    say(OUT, b"  (");
    range(OUT, Some(k));
    if k.is_count() {
        say(OUT, b", whole");
    }
    say(OUT, b")\n");
}

// What stands for some numbers in the place of arguments.
#[derive(Clone, Copy, Debug, PartialEq, Eq)]
pub enum Instead {
    Nothing,
    Load,
    Phases,
    LoadAndPhases,
}

fn stands_for(instead: Instead, k: Place) -> bool {
    match instead {
        Instead::Nothing => false,
        Instead::Load => k.in_load(),
        Instead::Phases => k.in_phases(),
        Instead::LoadAndPhases => k.in_load() | k.in_phases(),
    }
}

// Writes the list of names with what each is for nmc, without those that something else stands for, and what a cell file is.
pub fn write_names(instead: Instead) {
    let v = ready(ElectrodeParams::nmc_cathode());
    for index in 0..NONE {
        let k = Place::at(index);
        if !stands_for(instead, k) {
            write_name(&v, Some(k));
        }
    }
    say(
        OUT,
        b"\nA cell file has a line NAME = VALUE for each number of both sheets, and for any other that it sets; a t_ref without a line is 298.15 K; '#' begins a remark.\n",
    );
}
