// A cell file: a line NAME = VALUE for each number that it sets; '#' begins a remark. What it sets, or the first fault with its line.
#![tactic(auto)]

pub mod records;

ghost use Rattle.std.specs.Prelude.{◌≡◌, ◌<◌, ◌≤◌, length, unwrap_or, IfSome};
ghost use Rattle.plain_text.specs.Text.{lines_of};
ghost use Rattle.setting_table.specs.Names.{none};
ghost use Rattle.cell_file.specs.Settings.{number_fault, valued, assigned, solid_setting, line_setting, fresh_settings, faulted, stored, taken_line, lines_taken, in_sheets, missing_by, cell_taken};
ghost use Rattle.cell_file.specs.Answers.{fault_from, number_of, fault_of, set_to, setting_given, setting_answered, line_taken, settings_of, settings_answered};

use decimal_text::DecimalError;
use setting_table::names::{ANODE, NONE, Place, place_of};

// What is wrong with a line or a file.
#[derive(Clone, Copy, Debug, PartialEq, Eq)]
pub enum Fault {
    NoSign,
    UnknownName,
    NotDecimal,
    TooLong,
    OutOfRange,
    NotWhole,
    GivenTwice,
    LongFile,
    NotGiven,
}

// What a line sets: a number at a place.
#[derive(Clone, Copy)]
pub struct Setting {
    pub place: Place,
    pub value: f64,
}

// The fault of a line, the place that it names, and the number that it says, or 0.
#[derive(Clone, Copy)]
pub struct LineFault {
    pub fault: Fault,
    pub place: Option<Place>,
    pub value: f64,
}

// The numbers, and the line that gave each, 0 for none: theorems of specs/ReferenceTemperature.antt speak of that number.
#[derive(Clone, Copy)]
pub struct Settings {
    pub values: [f64; NONE],
    pub given: [u64; NONE],
}

// The first fault of a file with its place and its line, and what was set before it.
// The line is 0 where no line has the fault, as the definition `faulted` has it.
#[derive(Clone, Copy)]
pub struct SettingsFault {
    pub fault: Fault,
    pub place: Option<Place>,
    pub line: u64,
    pub settings: Settings,
}

impl From<DecimalError> for Fault {
    ghost from_gives = { λ e f. f ≡ fault_from e };

    fn from(e: DecimalError) -> Fault {
        match e {
            DecimalError::TooLong => Fault::TooLong,
            DecimalError::NotDecimal => Fault::NotDecimal,
        }
    }
}

impl Settings {
    // The numbers to start from, of which none is given yet.
    pub fn fresh(values: [f64; NONE]) -> Settings
        ensures { settings_of result ≡ fresh_settings values 0 }
    {
        Settings {
            values,
            given: [0; NONE],
        }
    }

    fn at_fault(self, line: u64, fault: Fault, place: Option<Place>) -> SettingsFault
        ensures { settings_answered (Err result) ≡ faulted (settings_of self) line (number_of fault) (unwrap_or place none) }
    {
        SettingsFault {
            fault,
            place,
            line,
            settings: self,
        }
    }

    fn store(&mut self, line: u64, a: Setting) -> Result<(), LineFault>
        ensures { line_taken (settings_of self.new) line result ≡ stored (settings_of self.old) line (set_to a) }
    {
        let k = a.place.index();
        if self.given[k] != 0 {
            return Err(LineFault {
                fault: Fault::GivenTwice,
                place: Some(a.place),
                value: a.value,
            });
        }
        self.values[k] = a.value;
        self.given[k] = line;
        Ok(())
    }

    // Takes a line in place: a file has many, and most of the numbers stay.
    fn take_in(&mut self, line: u64, s: &[u8]) -> Result<(), LineFault>
        ensures { line_taken (settings_of self.new) line result ≡ taken_line (settings_of self.old) line s.now }
    {
        match setting_on(s) {
            Ok(None) => Ok(()),
            Ok(Some(a)) => self.store(line, a),
            Err(fault) => Err(fault),
        }
    }

    // Takes a line.
    pub fn take_line(mut self, line: u64, s: &[u8]) -> Result<Settings, SettingsFault>
        ensures { settings_answered result ≡ taken_line (settings_of self) line s.now }
    {
        match self.take_in(line, s) {
            Ok(()) => Ok(self),
            Err(e) => Err(self.at_fault(line, e.fault, e.place)),
        }
    }

    // Line by line: `lines_of` cuts a text as `split_once` does.
    fn take_lines(mut self, s: &[u8]) -> Result<Settings, SettingsFault>
        requires { length s.now ≤ 4095 }
        ensures { settings_answered result ≡ lines_taken (settings_of self) 1 (lines_of s.now) }
    {
        let mut rest = s;
        let mut line = 1;
        while let Some((first, others)) = plain_text::split_once(rest, b'\n') {
            if let Err(e) = self.take_in(line, first) {
                return Err(self.at_fault(line, e.fault, e.place));
            }
            rest = others;
            line += 1;
        }
        self.take_line(line, rest)
    }

    // Takes a cell file, which gives both sheets; t_ref may be left out.
    pub fn take_cell(self, s: &[u8]) -> Result<Settings, SettingsFault>
        ensures { settings_answered result ≡ cell_taken (settings_of self) s.now }
    {
        if s.len() > 4095 {
            return Err(self.at_fault(0, Fault::LongFile, None));
        }
        let taken = self.take_lines(plain_text::after_mark(s))?;
        match missing(&taken.given) {
            Some(place) => Err(taken.at_fault(0, Fault::NotGiven, Some(place))),
            None => Ok(taken),
        }
    }
}

impl SettingsFault {
    // The numbers to start from, of which none is given yet, where a fault was met before.
    pub fn fresh(values: [f64; NONE], fault: Fault) -> SettingsFault
        ensures { settings_answered (Err result) ≡ fresh_settings values (number_of fault) }
    {
        Settings::fresh(values).at_fault(0, fault, None)
    }
}

// Takes a line, unless a fault was met before.
pub fn take_line(
    st: Result<Settings, SettingsFault>,
    line: u64,
    s: &[u8],
) -> Result<Settings, SettingsFault>
    ensures { settings_answered result ≡ taken_line (settings_answered st) line s.now }
{
    match st {
        Ok(st) => st.take_line(line, s),
        Err(e) => Err(e),
    }
}

// Takes a cell file; where a fault was met before, that stays, unless the file is too long.
pub fn take_cell(st: Result<Settings, SettingsFault>, s: &[u8]) -> Result<Settings, SettingsFault>
    ensures { settings_answered result ≡ cell_taken (settings_answered st) s.now }
{
    match st {
        Ok(st) => st.take_cell(s),
        Err(e) => {
            if s.len() > 4095 {
                return Err(e.settings.at_fault(0, Fault::LongFile, None));
            }
            Err(e)
        }
    }
}

// Whether a number fits its place.
fn check_number(k: Place, x: f64) -> Result<(), Fault>
    ensures { fault_of result ≡ number_fault k x }
{
    if !k.in_range(x) {
        return Err(Fault::OutOfRange);
    }
    if k.is_count() & !setting_table::ranges::is_whole(x) {
        return Err(Fault::NotWhole);
    }
    Ok(())
}

fn valued_as(k: Place, d: Result<f64, DecimalError>) -> Result<Setting, LineFault>
    ensures { setting_given result ≡ valued k d }
{
    match d {
        Ok(value) => match check_number(k, value) {
            Ok(()) => Ok(Setting { place: k, value }),
            Err(fault) => Err(LineFault {
                fault,
                place: Some(k),
                value,
            }),
        },
        Err(e) => Err(LineFault {
            fault: Fault::from(e),
            place: Some(k),
            value: 0.0,
        }),
    }
}

fn assign(name: &[u8], value: &[u8]) -> Result<Setting, LineFault>
    ensures { setting_given result ≡ assigned name.now value.now }
{
    match place_of(plain_text::without_blanks(name)) {
        Some(k) => valued_as(k, decimal_text::read(plain_text::without_blanks(value))),
        None => Err(LineFault {
            fault: Fault::UnknownName,
            place: None,
            value: 0.0,
        }),
    }
}

// What a text without blanks around it sets.
fn setting_in(t: &[u8]) -> Result<Option<Setting>, LineFault>
    ensures { setting_answered result ≡ solid_setting t.now }
{
    if t.is_empty() {
        return Ok(None);
    }
    match plain_text::split_once(t, b'=') {
        Some((name, value)) => Ok(Some(assign(name, value)?)),
        None => Err(LineFault {
            fault: Fault::NoSign,
            place: None,
            value: 0.0,
        }),
    }
}

// What a line sets; nothing where nothing but blanks stands before a remark.
pub fn setting_on(s: &[u8]) -> Result<Option<Setting>, LineFault>
    ensures { setting_answered result ≡ line_setting s.now }
{
    let said = match plain_text::split_once(s, b'#') {
        Some((said, _)) => said,
        None => s,
    };
    setting_in(plain_text::without_blanks(said))
}

// The row of t_ref, which a cell file may leave out.
const T_REF: usize = 20;

// The first place of both sheets that is asked for and that no line gave.
fn missing(given: &[u64; NONE]) -> Option<Place>
    ensures place { unwrap_or result none ≡ missing_by in_sheets given.now }
    ensures within { IfSome result (λ k. k < none) }
{
    for index in ANODE..NONE {
        let place = Place::at(index);
        if place.row() != T_REF && given[index] == 0 {
            return Some(place);
        }
    }
    None
}

// The place that a line names, where it names one.
pub fn place_on(s: &[u8]) -> Option<Place>
    ensures { unwrap_or result none ≡ (line_setting s.now).place }
{
    match setting_on(s) {
        Ok(Some(a)) => Some(a.place),
        Ok(None) => None,
        Err(e) => e.place,
    }
}
