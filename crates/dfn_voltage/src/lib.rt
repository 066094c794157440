// The terminal voltage of a Doyle-Fuller-Newman cell. A changed translation of src/battery/p2d/dfn.rs (`compute_voltage`). Its fluxes have no
// factor of Faraday, its signs are the Rust's.
#![tactic(auto)]

ghost use Rattle.std.specs.Prelude.{◌≡◌};
ghost use Rattle.dfn_voltage.specs.Voltage.{layer_of, resistance_of, exchange_of, over_of, side_of, open_of, voltage_of};

use dfn_parameters::{DfnParams, FitParams, Side, ocv};

// A layer's thickness by its conductivity, at a concentration by the reference one.
fn layer(p: DfnParams, l: f64, eps: f64, ratio: f64) -> f64
    ensures { result ≡ layer_of p l eps ratio }
{
    l / min_max::max(p.kappa0 * ratio * elementary::powf(eps, p.brugg), 1e-9)
}

// The resistance of the electrolyte.
fn resistance(p: DfnParams, c_e_mid: f64) -> f64
    ensures { result ≡ resistance_of p c_e_mid }
{
    let ratio = min_max::max(c_e_mid / p.c_e0, 1e-3);
    let neg = layer(p, p.l_neg, p.eps_e_elec, ratio);
    let sep = layer(p, p.l_sep, p.eps_e_sep, ratio);
    let pos = layer(p, p.l_pos, p.eps_e_elec, ratio);
    (neg + sep + pos) / min_max::max(p.area, 1e-9)
}

// The exchange current density of an electrode with the surface concentration c.
fn exchange_current(k: f64, c_e_mid: f64, c: f64, c_max: f64) -> f64
    ensures { result ≡ exchange_of k c_e_mid c c_max }
{
    k * 96485.0
        * square_root::sqrt(c_e_mid)
        * square_root::sqrt(c)
        * min_max::max(square_root::sqrt(c_max - c), 0.0)
}

// The overpotential of a flux j at the exchange current density i0.
fn overpotential(rt_f: f64, i0: f64, j: f64) -> f64
    ensures { result ≡ over_of rt_f i0 j }
{
    if i0 > 1e-30 {
        return 2.0 * rt_f * elementary::asinh(j / (2.0 * i0));
    }
    0.0
}

// The overpotential of one electrode, at a stoichiometry of its surface, for a current over plates of an area.
fn side_overpotential(
    rt_f: f64,
    side: Side,
    theta: f64,
    c_e_mid: f64,
    area: f64,
    current: f64,
) -> f64
    ensures { result ≡ side_of rt_f side theta c_e_mid area current }
{
    let i0 = exchange_current(side.k, c_e_mid, theta * side.c_s_max, side.c_s_max);
    overpotential(rt_f, i0, current / (side.specific_area() * side.l * area))
}

// The open-circuit voltage, with the stoichiometries held to 0.001 to 0.999.
fn open_voltage(f: FitParams, theta_neg: f64, theta_pos: f64) -> f64
    ensures { result ≡ open_of f.params theta_neg theta_pos }
{
    let p = f.params;
    let neg = p.ocv_neg_coeffs;
    let pos = p.ocv_pos_coeffs;
    let u_neg = ocv(
        &neg,
        p.ocv_neg_count,
        min_max::clamp(theta_neg, 0.001, 0.999),
    );
    let u_pos = ocv(
        &pos,
        p.ocv_pos_count,
        min_max::clamp(theta_pos, 0.001, 0.999),
    );
    u_pos - u_neg
}

// The terminal voltage from the mean stoichiometries of the surfaces and the electrolyte's concentration in the middle of the anode.
pub fn compute_voltage(
    f: FitParams,
    theta_neg: f64,
    theta_pos: f64,
    c_e_mid: f64,
    current: f64,
) -> f64
    ensures { result ≡ voltage_of f.params theta_neg theta_pos c_e_mid current }
{
    let p = f.params;
    let rt_f = 8.314 * p.temperature_k / 96485.0;
    let ocv = open_voltage(f, theta_neg, theta_pos);
    let r_ion = resistance(p, c_e_mid);
    let eta_conc = 2.0
        * rt_f
        * (1.0 - p.t_plus)
        * elementary::ln(min_max::max(c_e_mid / p.c_e0, 1e-9));
    let eta_neg = side_overpotential(rt_f, p.anode(), theta_neg, c_e_mid, p.area, -current);
    let eta_pos = side_overpotential(rt_f, p.cathode(), theta_pos, c_e_mid, p.area, current);
    min_max::clamp(
        ocv - current * r_ion - eta_neg + eta_pos + eta_conc,
        0.0,
        5.0,
    )
}
