// The thirty-two numbers that a run is set by, one table: their names and their ranges, each for reading and for writing.
#![tactic(auto)]

pub mod names;
pub mod ranges;
pub mod rows;
