// Where the parts of each record stand in its image, in words of eight bytes, and how many bytes an image has. docs/REFERENCE.md and
// harness/c/persimmonjib.h have the same table.
#![tactic(auto)]

// Of a particle: the count of nodes.
pub const PARTICLE_NODES: usize = 11;

// The profile, 64 places.
pub const PARTICLE_PROFILE: usize = 12;

// Of a cell: the anode's particle.
pub const CELL_ANODE: usize = 6;

// Its count of nodes.
pub const CELL_ANODE_NODES: usize = 17;

// Its profile.
pub const CELL_ANODE_PROFILE: usize = 18;

// The cathode's particle.
pub const CELL_CATHODE: usize = 82;

// Its count of nodes.
pub const CELL_CATHODE_NODES: usize = 93;

// Its profile.
pub const CELL_CATHODE_PROFILE: usize = 94;

// The clock.
pub const CELL_CLOCK: usize = 158;

// After a cell, a step's report: seven numbers.
pub const CELL_REPORT: usize = 159;

// Whether the voltage left its limits.
pub const CELL_CUTOFF: usize = 166;

// The count of sub-steps.
pub const CELL_SUB_STEPS: usize = 167;

// After a cell, what a run adds: the ending; the rows follow.
pub const CELL_ENDING: usize = 159;

// Of what a new cell is made of: the anode's sheet.
pub const NEW_CELL_ANODE: usize = 6;

// The cathode's sheet.
pub const NEW_CELL_CATHODE: usize = 17;

// Of what a search found: a row or none.
pub const FOUND_HOW: usize = 0;

// Which row.
pub const FOUND_ROW: usize = 1;

// Of a phase: its kind.
pub const PHASE_KIND: usize = 0;

// Its number.
pub const PHASE_NUMBER: usize = 1;

// How many words it has; the eight phases of a cycle stand one after the other.
pub const PHASE_WORDS: usize = 2;

// Of an electrolyte: lengths and porosities.
pub const ELECTROLYTE_REGIONS: usize = 8;

// Counts of nodes.
pub const ELECTROLYTE_NODES_NEG: usize = 14;

pub const ELECTROLYTE_NODES_SEP: usize = 15;

pub const ELECTROLYTE_NODES_POS: usize = 16;

// The profile, 96 places.
pub const ELECTROLYTE_PROFILE: usize = 17;

// Of a Doyle-Fuller-Newman cell: the anode's count of coefficients.
pub const DFN_COUNT_NEG: usize = 25;

// Its coefficients, 16 places.
pub const DFN_COEFFICIENTS_NEG: usize = 26;

// The cathode's count of coefficients.
pub const DFN_COUNT_POS: usize = 42;

// Its coefficients.
pub const DFN_COEFFICIENTS_POS: usize = 43;

// The grid.
pub const DFN_NODES_NEG: usize = 59;

pub const DFN_NODES_POS: usize = 60;

pub const DFN_NODES_RADIAL: usize = 61;

// The voltage limits.
pub const DFN_VMIN: usize = 62;

pub const DFN_VMAX: usize = 63;

// The anode's particles, 512 places.
pub const DFN_ANODE: usize = 64;

// The cathode's.
pub const DFN_CATHODE: usize = 576;

// The electrolyte, 33 places.
pub const DFN_ELECTROLYTE: usize = 1088;

// The clock.
pub const DFN_CLOCK: usize = 1121;

// What the last step reported.
pub const DFN_VOLTAGE: usize = 1122;

pub const DFN_CURRENT: usize = 1123;

pub const DFN_THETA_NEG: usize = 1124;

pub const DFN_THETA_POS: usize = 1125;

// After it, a step's report: six numbers.
pub const DFN_REPORT: usize = 1126;

// Whether the voltage left its limits.
pub const DFN_CUTOFF: usize = 1132;

// The count of iterations, 1.
pub const DFN_NEWTON: usize = 1133;

// After it, what a run adds: the ending; the rows follow.
pub const DFN_ENDING: usize = 1126;

pub const NUMBER_BYTES: usize = 8;

pub const SHEET_BYTES: usize = 88;

pub const PARTICLE_BYTES: usize = 608;

pub const NEW_PARTICLE_BYTES: usize = 96;

pub const CONFIG_BYTES: usize = 48;

pub const NEW_CELL_BYTES: usize = 224;

pub const CELL_BYTES: usize = 1272;

pub const CELL_STEP_BYTES: usize = 1344;

pub const CELL_RUN_BYTES: usize = 1288;

pub const PHASE_BYTES: usize = 16;

pub const PHASES_BYTES: usize = 128;

pub const ELECTROLYTE_PARAMS_BYTES: usize = 64;

pub const REGIONS_BYTES: usize = 136;

pub const ELECTROLYTE_BYTES: usize = 904;

pub const DFN_PARAMS_BYTES: usize = 472;

pub const NEW_DFN_BYTES: usize = 512;

pub const DFN_BYTES: usize = 9008;

pub const DFN_STEP_BYTES: usize = 9072;

pub const DFN_RUN_BYTES: usize = 9024;

pub const SOLUTION_BYTES: usize = 256;

pub const FOUND_BYTES: usize = 16;
