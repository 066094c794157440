// What was run and how it ended, in words.
// Written by `io`, for the reason in setting_messages.
use crate::arguments::names_cell;
use csv_rows::OUT;
use refusal::Refusal;
use runs::Ending;
use setting_messages::{ERR, name, number, say, unit};
use setting_table::names::{NONE, Place, TEMPERATURE, V_MAX, V_MIN};

// The word of a refusal in docs/REFERENCE.md's table.
fn word_of(e: Refusal) -> &'static [u8] {
    match e {
        Refusal::Grid => b" (grid)",
        Refusal::Sheet => b" (sheet)",
        Refusal::Load => b" (load)",
        Refusal::Interval => b" (interval)",
        Refusal::Temperature => b" (temperature)",
        Refusal::Diffusivity => b" (diffusivity)",
        Refusal::SubSteps => b" (sub-steps)",
        Refusal::NotFinite => b" (not finite)",
        Refusal::Singular => b" (singular)",
        Refusal::Length => b" (length)",
        Refusal::Line => b" (line)",
        Refusal::File => b" (file)",
        Refusal::Index => b"",
    }
}

// A refusal by its number and its word; a number that is not in the table has no word.
fn say_refusal(fd: i32, number: u64) {
    say(fd, b"refusal ");
    io::print_decimal(fd, number);
    if let Some(e) = Refusal::from_number(number) {
        say(fd, word_of(e));
    }
}

// A cell that was not built, by the number that refused it.
pub fn not_built(number: u64) {
    say(ERR, b"the cell is not built: ");
    say_refusal(ERR, number);
    say(ERR, b"\n");
}

// The cell as it was named, which begins the line that says what was run.
pub fn write_cell(named: &[u8]) {
    say(OUT, b"# ");
    say(OUT, if names_cell(named) { named } else { b"nmc" });
}

// A number with its name and its unit; the number alone where there is no place.
pub fn write_setting(place: Option<Place>, x: f64) {
    let Some(k) = place else {
        say(OUT, b" =");
        number(OUT, x);
        return;
    };
    say(OUT, b" ");
    name(OUT, Some(k));
    say(OUT, b"=");
    number(OUT, x);
    unit(OUT, Some(k));
}

// The temperature and the limits, which end that line.
pub fn write_limits(v: &[f64; NONE]) {
    write_setting(Some(Place::at(TEMPERATURE)), v[TEMPERATURE]);
    write_setting(Some(Place::at(V_MIN)), v[V_MIN]);
    write_setting(Some(Place::at(V_MAX)), v[V_MAX]);
    say(OUT, b"\n");
}

// How a run ended, which begins the last line.
pub fn write_ending(ending: Ending) {
    say(OUT, b"# ended by ");
    match ending {
        Ending::Voltage => say(OUT, b"voltage"),
        Ending::Time => say(OUT, b"time"),
        Ending::Full => say(OUT, b"a full table"),
        Ending::Refused(e) => say_refusal(OUT, e.number()),
        Ending::Done => say(OUT, b"done"),
        Ending::Spent => say(OUT, b"a spent budget"),
    }
}

// The same for a run that a number refused, of the table or not.
pub fn write_refused(number: u64) {
    say(OUT, b"# ended by ");
    say_refusal(OUT, number);
}

// How many rows it had, which ends that line.
pub fn write_count(rows: usize) {
    say(OUT, b" after ");
    io::print_decimal(OUT, rows as u64);
    if rows == 1 {
        say(OUT, b" row\n");
    } else {
        say(OUT, b" rows\n");
    }
}
