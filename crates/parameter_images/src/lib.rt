// A Doyle-Fuller-Newman cell's parameters and grid as images: words in a string of bytes, in the order of the records' fields.
#![tactic(auto)]

ghost use Rattle.std.specs.Prelude.{◌≡◌};
ghost use Rattle.parameter_images.specs.Images.{params_of, params_at, params_numbers, put_params, config_at, put_config};

use codec::{read_word, write_word};
use dfn_parameters::{DfnConfig, DfnParams};
use image_layout::{
    DFN_COEFFICIENTS_NEG, DFN_COEFFICIENTS_POS, DFN_COUNT_NEG, DFN_COUNT_POS, DFN_NODES_NEG,
    DFN_NODES_POS, DFN_NODES_RADIAL, DFN_VMAX, DFN_VMIN,
};
use image_rows::{read_places, write_places};

// The parameters from their 25 numbers in the record's order, and each electrode's coefficients with their count.
#[tactic(auto, unfolding(crate::specs::Images::params_of))]
fn params_of(
    x: [f64; 25],
    neg_count: usize,
    neg: [f64; 16],
    pos_count: usize,
    pos: [f64; 16],
) -> DfnParams
    ensures { result ≡ params_of x neg_count neg pos_count pos }
{
    DfnParams {
        l_neg: x[0],
        l_sep: x[1],
        l_pos: x[2],
        area: x[3],
        r_neg: x[4],
        d_s_neg_ref: x[5],
        c_s_neg_max: x[6],
        eps_neg: x[7],
        theta_neg_0: x[8],
        k_neg: x[9],
        r_pos: x[10],
        d_s_pos_ref: x[11],
        c_s_pos_max: x[12],
        eps_pos: x[13],
        theta_pos_0: x[14],
        k_pos: x[15],
        c_e0: x[16],
        d_e0: x[17],
        gamma_e: x[18],
        t_plus: x[19],
        kappa0: x[20],
        eps_e_elec: x[21],
        eps_e_sep: x[22],
        brugg: x[23],
        temperature_k: x[24],
        ocv_neg_count: neg_count,
        ocv_neg_coeffs: neg,
        ocv_pos_count: pos_count,
        ocv_pos_coeffs: pos,
    }
}

// The parameters in the first 59 words.
#[tactic(auto, unfolding(crate::specs::Images::params_at))]
pub fn params_at(s: &[u8]) -> DfnParams
    ensures { result ≡ params_at s.now }
{
    let mut x = [0.0; 25];
    read_places(s, 0, &mut x);
    let mut neg = [0.0; 16];
    read_places(s, DFN_COEFFICIENTS_NEG, &mut neg);
    let mut pos = [0.0; 16];
    read_places(s, DFN_COEFFICIENTS_POS, &mut pos);
    params_of(
        x,
        read_word(s, DFN_COUNT_NEG) as usize,
        neg,
        read_word(s, DFN_COUNT_POS) as usize,
        pos,
    )
}

// Those 25 numbers.
#[tactic(auto, unfolding(crate::specs::Images::params_numbers))]
fn numbers_of(p: DfnParams) -> [f64; 25]
    ensures { result ≡ params_numbers p }
{
    [
        p.l_neg,
        p.l_sep,
        p.l_pos,
        p.area,
        p.r_neg,
        p.d_s_neg_ref,
        p.c_s_neg_max,
        p.eps_neg,
        p.theta_neg_0,
        p.k_neg,
        p.r_pos,
        p.d_s_pos_ref,
        p.c_s_pos_max,
        p.eps_pos,
        p.theta_pos_0,
        p.k_pos,
        p.c_e0,
        p.d_e0,
        p.gamma_e,
        p.t_plus,
        p.kappa0,
        p.eps_e_elec,
        p.eps_e_sep,
        p.brugg,
        p.temperature_k,
    ]
}

#[tactic(auto, unfolding(crate::specs::Images::put_params))]
pub fn put_params(s: &mut [u8], p: DfnParams)
    ensures { s.new ≡ put_params s.old p }
{
    let x = numbers_of(p);
    write_places(s, 0, &x);
    write_word(s, DFN_COUNT_NEG, p.ocv_neg_count as u64);
    write_places(s, DFN_COEFFICIENTS_NEG, &p.ocv_neg_coeffs);
    write_word(s, DFN_COUNT_POS, p.ocv_pos_count as u64);
    write_places(s, DFN_COEFFICIENTS_POS, &p.ocv_pos_coeffs);
}

// The grid and the voltage limits in words 59 to 63.
#[tactic(auto, unfolding(crate::specs::Images::config_at))]
pub fn config_at(s: &[u8]) -> DfnConfig
    ensures { result ≡ config_at s.now }
{
    DfnConfig {
        n_x_neg: read_word(s, DFN_NODES_NEG) as usize,
        n_x_pos: read_word(s, DFN_NODES_POS) as usize,
        n_r: read_word(s, DFN_NODES_RADIAL) as usize,
        v_min: codec::read_f64(s, DFN_VMIN),
        v_max: codec::read_f64(s, DFN_VMAX),
    }
}

#[tactic(auto, unfolding(crate::specs::Images::put_config))]
pub fn put_config(s: &mut [u8], c: DfnConfig)
    ensures { s.new ≡ put_config s.old c }
{
    write_word(s, DFN_NODES_NEG, c.n_x_neg as u64);
    write_word(s, DFN_NODES_POS, c.n_x_pos as u64);
    write_word(s, DFN_NODES_RADIAL, c.n_r as u64);
    codec::write_f64(s, DFN_VMIN, c.v_min);
    codec::write_f64(s, DFN_VMAX, c.v_max);
}
