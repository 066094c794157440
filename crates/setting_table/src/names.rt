// The places of the numbers that a run is set by, and their names: one table for reading a name and for writing it.
ghost use Rattle.std.specs.Prelude.{◌≡◌, ℕ, ◌+◌, ◌<◌, ◌≤◌, slice_index, unwrap_or, IfSome};
ghost use Rattle.setting_table.specs.Names.{none, rows, row_of, part_of, letter_of, padded_at, is_named, place_by, place_of, in_phases, in_load};
ghost use Rattle.setting_table.specs.Parts.{part_number};

use crate::rows::ROWS;
use std::marker::Model;

// The places of run and config.
// Numbers: they are places of a run's array, as the definitions of Names have them.
pub const CURRENT: usize = 0;

pub const DT: usize = 1;

pub const TEMPERATURE: usize = 2;

pub const TIME: usize = 3;

pub const N_NODES: usize = 4;

pub const V_MIN: usize = 5;

pub const V_MAX: usize = 6;

pub const FARADAY: usize = 7;

pub const R_GAS: usize = 8;

pub const RESISTANCE: usize = 9;

// Where each sheet begins, with its chemistry; run and config begin at 0.
pub const ANODE: usize = 10;

pub const CATHODE: usize = 21;

// How many places there are.
pub const NONE: usize = 32;

// How many names a sheet has.
const SHEET: usize = 11;

// The part that a place belongs to.
#[derive(Clone, Copy, Debug, PartialEq, Eq)]
pub enum Part {
    Run,
    Anode,
    Cathode,
}

// The place of a number: run and config, then the anode's sheet, then the cathode's.
#[derive(Clone, Copy, Debug, PartialEq, Eq)]
pub struct Place {
    index: usize,
}

impl Model for Place {
    ghost Value = { ℕ };

    ghost view = { λ p. p.index };

    ghost inverse = { λ n. record { index = n } };

    ghost invariant = { λ p. p.index < 32 };
}

impl Place {
    // The place with an index.
    pub fn at(index: usize) -> Place
        requires { index < none }
        ensures { result ≡ index }
    {
        Place { index }
    }

    pub fn index(self) -> usize
        ensures { (result ≡ self) × (result < none) }
    {
        self.index
    }

    // Its row of the table.
    pub fn row(self) -> usize
        ensures { (result ≡ row_of self) × (result < rows) }
    {
        if self.index < CATHODE {
            self.index
        } else {
            self.index - SHEET
        }
    }

    pub fn part(self) -> Part
        ensures { part_number result ≡ part_of self }
    {
        part_of(self.index)
    }

    // Its name, without the electrode before it, filled up with spaces.
    pub fn name(self) -> [u8; 12]
        ensures { (j : ℕ) → j < 12 → slice_index result j ≡ letter_of self j }
    {
        ROWS[self.row()].name
    }

    // Whether the phases of a cycle stand for the number.
    pub fn in_phases(self) -> bool
        ensures { result ≡ in_phases self }
    {
        in_phases(self.index)
    }

    // Whether a load file stands for the number.
    pub fn in_load(self) -> bool
        ensures { result ≡ in_load self }
    {
        in_load(self.index)
    }
}

// The part that a place belongs to, by its index.
pub fn part_of(k: usize) -> Part
    ensures { part_number result ≡ part_of k }
{
    if k < ANODE {
        Part::Run
    } else if k < CATHODE {
        Part::Anode
    } else {
        Part::Cathode
    }
}

// Whether the phases of a cycle stand for the number at index k: they have the currents, and the last of them ends a cycle.
pub fn in_phases(k: usize) -> bool
    ensures { result ≡ in_phases k }
{
    matches!(k, CURRENT | TIME)
}

// Whether a load file stands for the number at index k: it has a current and an interval in each line, and its last line ends a replay.
pub fn in_load(k: usize) -> bool
    ensures { result ≡ in_load k }
{
    matches!(k, CURRENT | DT | TIME)
}

// The byte at i of a text that is filled up with spaces.
fn padded_at(s: &[u8], i: usize) -> u8
    ensures { result ≡ padded_at s.now i }
{
    s.get(i).copied().unwrap_or(b' ')
}

// Whether a text is the name of a place, without the electrode before it.
fn is_named(s: &[u8], k: Place) -> bool
    ensures { result ≡ is_named s.now k }
{
    let name = k.name();
    let mut same = true;
    for (j, b) in name.iter().enumerate() {
        same &= padded_at(s, j) == *b;
    }
    (s.len() <= 12) & same
}

// The place of a text among so many names from the place base on.
fn place_among(base: usize, count: usize, s: &[u8]) -> Option<Place>
    requires { base + count ≤ none }
    ensures place { unwrap_or result none ≡ place_by count base s.now }
    ensures within { IfSome result (λ k. k < none) }
{
    let mut found = None;
    for index in base..base + count {
        let place = Place::at(index);
        if is_named(s, place) {
            found = Some(place);
        }
    }
    found
}

// The place of a name.
pub fn place_of(s: &[u8]) -> Option<Place>
    ensures place { unwrap_or result none ≡ place_of s.now }
    ensures within { IfSome result (λ k. k < none) }
{
    if let Some(name) = s.strip_prefix(b"anode.") {
        return place_among(ANODE, SHEET, name);
    }
    if let Some(name) = s.strip_prefix(b"cathode.") {
        return place_among(CATHODE, SHEET, name);
    }
    place_among(0, ANODE, s)
}
