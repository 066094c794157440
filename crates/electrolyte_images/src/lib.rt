// An electrolyte and its parameters as images: words in a string of bytes, in the order of the records' fields.
#![tactic(auto)]

ghost use Rattle.std.specs.Prelude.{◌≡◌};
ghost use Rattle.electrolyte_images.specs.Images.{electrolyte_params_at, put_electrolyte_params, electrolyte_at, put_regions, put_electrolyte};

use codec::{read_word, write_word};
use electrolyte::ElectrolyteState;
use electrolyte_parameters::ElectrolyteParams;
use image_layout::{
    ELECTROLYTE_NODES_NEG, ELECTROLYTE_NODES_POS, ELECTROLYTE_NODES_SEP, ELECTROLYTE_PROFILE,
    ELECTROLYTE_REGIONS,
};
use image_rows::{read_places, write_places};

// The electrolyte's parameters in the first eight words.
#[tactic(auto, unfolding(crate::specs::Images::electrolyte_params_at, iterate::specs::Iterate::first_by))]
pub fn electrolyte_params_at(s: &[u8]) -> ElectrolyteParams
    ensures { result ≡ electrolyte_params_at s.now }
{
    let mut x = [0.0; 8];
    read_places(s, 0, &mut x);
    ElectrolyteParams {
        d_e_ref: x[0],
        kappa_ref: x[1],
        t_plus: x[2],
        bruggeman: x[3],
        c_e_init: x[4],
        e_a_de: x[5],
        e_a_kappa: x[6],
        t_ref: x[7],
    }
}

#[tactic(auto, unfolding(crate::specs::Images::put_electrolyte_params))]
pub fn put_electrolyte_params(s: &mut [u8], p: ElectrolyteParams)
    ensures { s.new ≡ put_electrolyte_params s.old p }
{
    let x = [
        p.d_e_ref,
        p.kappa_ref,
        p.t_plus,
        p.bruggeman,
        p.c_e_init,
        p.e_a_de,
        p.e_a_kappa,
        p.t_ref,
    ];
    write_places(s, 0, &x);
}

// The electrolyte in the first 113 words.
#[tactic(auto, unfolding(crate::specs::Images::electrolyte_at, iterate::specs::Iterate::first_by))]
pub fn electrolyte_at(s: &[u8]) -> ElectrolyteState
    ensures { result ≡ electrolyte_at s.now }
{
    let params = electrolyte_params_at(s);
    let mut x = [0.0; 6];
    read_places(s, ELECTROLYTE_REGIONS, &mut x);
    let mut c_e = [0.0; 96];
    read_places(s, ELECTROLYTE_PROFILE, &mut c_e);
    ElectrolyteState {
        params,
        l_neg: x[0],
        l_sep: x[1],
        l_pos: x[2],
        eps_neg: x[3],
        eps_sep: x[4],
        eps_pos: x[5],
        n_neg: read_word(s, ELECTROLYTE_NODES_NEG) as usize,
        n_sep: read_word(s, ELECTROLYTE_NODES_SEP) as usize,
        n_pos: read_word(s, ELECTROLYTE_NODES_POS) as usize,
        c_e,
    }
}

// Writes the lengths and porosities of the three regions, then their counts of nodes.
#[tactic(auto, unfolding(crate::specs::Images::put_regions))]
fn put_regions(s: &mut [u8], x: [f64; 6], n_neg: usize, n_sep: usize, n_pos: usize)
    ensures { s.new ≡ put_regions s.old x n_neg n_sep n_pos }
{
    write_places(s, ELECTROLYTE_REGIONS, &x);
    write_word(s, ELECTROLYTE_NODES_NEG, n_neg as u64);
    write_word(s, ELECTROLYTE_NODES_SEP, n_sep as u64);
    write_word(s, ELECTROLYTE_NODES_POS, n_pos as u64);
}

#[tactic(auto, unfolding(crate::specs::Images::put_electrolyte))]
pub fn put_electrolyte(s: &mut [u8], e: ElectrolyteState)
    ensures { s.new ≡ put_electrolyte s.old e }
{
    let x = [e.l_neg, e.l_sep, e.l_pos, e.eps_neg, e.eps_sep, e.eps_pos];
    put_electrolyte_params(s, e.params);
    put_regions(s, x, e.n_neg, e.n_sep, e.n_pos);
    write_places(s, ELECTROLYTE_PROFILE, &e.c_e);
}
