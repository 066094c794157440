// Doyle-Fuller-Newman cells as images: words in a string of bytes, in the order of the records' fields.
#![tactic(auto)]

ghost use Rattle.std.specs.Prelude.{◌≡◌};
ghost use Rattle.dfn_images.specs.Images.{cell_at, put_cell_places, put_last, put_cell, put_report};

use codec::{flag, write_word};
use dfn::{DfnSolver, DfnStep};
use dfn_parameters::{DfnConfig, DfnParams};
use image_layout::{
    DFN_ANODE, DFN_CATHODE, DFN_CLOCK, DFN_CURRENT, DFN_CUTOFF, DFN_ELECTROLYTE, DFN_NEWTON,
    DFN_REPORT, DFN_THETA_NEG, DFN_THETA_POS, DFN_VOLTAGE,
};
use image_rows::{read_places, write_places};
use parameter_images::{config_at, params_at, put_config, put_params};

// The cell in the first 1126 words.
// Not inlined for the stack of a run from C (docs/DECISIONS.md, 68).
#[inline(never)]
pub fn cell_at(s: &[u8]) -> DfnSolver
    ensures { result ≡ cell_at s.now }
{
    let params = params_at(s);
    let config = config_at(s);
    let mut cell = DfnSolver {
        params,
        config,
        c_s_neg: [0.0; 512],
        c_s_pos: [0.0; 512],
        c_e: [0.0; 33],
        time_s: codec::read_f64(s, DFN_CLOCK),
        voltage: codec::read_f64(s, DFN_VOLTAGE),
        current: codec::read_f64(s, DFN_CURRENT),
        theta_neg_surf: codec::read_f64(s, DFN_THETA_NEG),
        theta_pos_surf: codec::read_f64(s, DFN_THETA_POS),
    };
    read_places(s, DFN_ANODE, &mut cell.c_s_neg);
    read_places(s, DFN_CATHODE, &mut cell.c_s_pos);
    read_places(s, DFN_ELECTROLYTE, &mut cell.c_e);
    cell
}

// Writes a cell but for its last five words; the arrays are lent.
pub fn put_places<'a>(
    s: &mut [u8],
    p: DfnParams,
    g: DfnConfig,
    neg: &'a [f64; 512],
    pos: &'a [f64; 512],
    c_e: &'a [f64; 33],
)
    ensures { s.new ≡ put_cell_places s.old p g neg.now pos.now c_e.now }
{
    put_params(s, p);
    put_config(s, g);
    write_places(s, DFN_ANODE, neg);
    write_places(s, DFN_CATHODE, pos);
    write_places(s, DFN_ELECTROLYTE, c_e);
}

// Writes a cell's last five words: clock, voltage, current, stoichiometries of the surfaces.
pub fn put_last(
    s: &mut [u8],
    time_s: f64,
    voltage: f64,
    current: f64,
    theta_neg: f64,
    theta_pos: f64,
)
    ensures { s.new ≡ put_last s.old time_s voltage current theta_neg theta_pos }
{
    let x = [time_s, voltage, current, theta_neg, theta_pos];
    write_places(s, DFN_CLOCK, &x);
}

#[tactic(auto, unfolding(crate::specs::Images::put_cell))]
pub fn put_cell(s: &mut [u8], d: DfnSolver)
    ensures { s.new ≡ put_cell s.old d }
{
    put_places(s, d.params, d.config, &d.c_s_neg, &d.c_s_pos, &d.c_e);
    put_last(
        s,
        d.time_s,
        d.voltage,
        d.current,
        d.theta_neg_surf,
        d.theta_pos_surf,
    );
}

// Writes a step's report after the cell.
#[tactic(auto, unfolding(crate::specs::Images::put_report))]
pub fn put_report(s: &mut [u8], r: DfnStep)
    ensures { s.new ≡ put_report s.old r }
{
    let x = [
        r.voltage,
        r.current,
        r.time_s,
        r.theta_neg,
        r.theta_pos,
        r.delta_c_e_max,
    ];
    write_places(s, DFN_REPORT, &x);
    write_word(s, DFN_CUTOFF, flag(r.cutoff));
    write_word(s, DFN_NEWTON, r.newton_iter as u64);
}
