// Single-particle cells as images: words in a string of bytes, in the order of the records' fields.
#![tactic(auto)]

ghost use Rattle.std.specs.Prelude.{◌≡◌};
ghost use Rattle.solver.specs.Parts.{parts_of};
ghost use Rattle.cell_images.specs.Images.{cell_at, put_cell, put_report};

use codec::{flag, read_word, write_word};
use image_layout::{
    CELL_ANODE, CELL_ANODE_NODES, CELL_ANODE_PROFILE, CELL_CATHODE, CELL_CATHODE_NODES,
    CELL_CATHODE_PROFILE, CELL_CLOCK, CELL_CUTOFF, CELL_REPORT, CELL_SUB_STEPS,
};
use image_rows::{read_places, write_places};
use particle::ParticleDiffusion;
use sheet_images::{config_at, put_config, put_parts, sheet_at};
use solver::SpmSolver;
use solver_step::{SpmParts, SpmReport};

// The cell in the first 159 words, without its profiles.
#[tactic(auto, unfolding(crate::specs::Images::cell_at, sheet_images::specs::Images::particle_at))]
pub fn parts_at(s: &[u8]) -> SpmParts
    ensures { result ≡ parts_of (cell_at s.now) }
{
    let config = config_at(s);
    let neg = sheet_at(s, CELL_ANODE);
    let pos = sheet_at(s, CELL_CATHODE);
    SpmParts {
        config,
        neg,
        n_neg: read_word(s, CELL_ANODE_NODES) as usize,
        pos,
        n_pos: read_word(s, CELL_CATHODE_NODES) as usize,
        time_s: codec::read_f64(s, CELL_CLOCK),
    }
}

// The cell in the first 159 words.
#[tactic(auto, unfolding(crate::specs::Images::cell_at, sheet_images::specs::Images::particle_at))]
pub fn cell_at(s: &[u8]) -> SpmSolver
    ensures { result ≡ cell_at s.now }
{
    let mut cell = SpmSolver {
        config: config_at(s),
        anode: ParticleDiffusion {
            params: sheet_at(s, CELL_ANODE),
            n_nodes: read_word(s, CELL_ANODE_NODES) as usize,
            c_s: [0.0; 64],
        },
        cathode: ParticleDiffusion {
            params: sheet_at(s, CELL_CATHODE),
            n_nodes: read_word(s, CELL_CATHODE_NODES) as usize,
            c_s: [0.0; 64],
        },
        time_s: codec::read_f64(s, CELL_CLOCK),
    };
    read_places(s, CELL_ANODE_PROFILE, &mut cell.anode.c_s);
    read_places(s, CELL_CATHODE_PROFILE, &mut cell.cathode.c_s);
    cell
}

#[tactic(auto, unfolding(crate::specs::Images::put_cell))]
pub fn put_cell(s: &mut [u8], cell: SpmSolver)
    ensures { s.new ≡ put_cell s.old cell }
{
    put_config(s, cell.config);
    put_parts(
        s,
        CELL_ANODE,
        cell.anode.params,
        cell.anode.n_nodes,
        &cell.anode.c_s,
    );
    put_parts(
        s,
        CELL_CATHODE,
        cell.cathode.params,
        cell.cathode.n_nodes,
        &cell.cathode.c_s,
    );
    codec::write_f64(s, CELL_CLOCK, cell.time_s);
}

// Writes a step's report and its count of sub-steps after the cell.
#[tactic(auto, unfolding(crate::specs::Images::put_report))]
pub fn put_report(s: &mut [u8], r: SpmReport)
    ensures { s.new ≡ put_report s.old r.state r.sub_steps }
{
    let state = r.state;
    let x = [
        state.voltage,
        state.current,
        state.theta_neg,
        state.theta_pos,
        state.theta_neg_avg,
        state.theta_pos_avg,
        state.time_s,
    ];
    write_places(s, CELL_REPORT, &x);
    write_word(s, CELL_CUTOFF, flag(state.cutoff));
    write_word(s, CELL_SUB_STEPS, r.sub_steps);
}
