// The electrolyte's nodes after a step, all from the old ones: the anode's, one for the separator, the cathode's. A changed translation of
// src/battery/p2d/dfn.rs (`update_electrolyte`, `d_eff_e`). Each node's diffusivity is worked out once.
#![tactic(auto)]

ghost use Rattle.std.specs.Prelude.{◌≡◌, ◌+◌, ◌<◌, ◌≤◌};
ghost use Rattle.dfn_electrolyte.specs.Electrolyte.{diffusivity_params, region_of, d_eff_of, d_effs, flow_with, moved_with, node_with, nodes_with, electrolyte_after};

use dfn_parameters::{DfnParams, Side};

// What the diffusivity in the electrodes is worked out with: the porosity to the Bruggeman exponent, and three parameters.
#[derive(Clone, Copy)]
pub struct DiffusivityParams {
    pub factor: f64,
    pub d_e0: f64,
    pub gamma_e: f64,
    pub c_e0: f64,
}

// What the nodes in one electrode work with: how many they are, their distance, dt / (eps * dx) and dt * source / eps.
#[derive(Clone, Copy)]
pub struct Region {
    // A number, so that `update_electrolyte` takes what it always took.
    pub n: usize,
    pub dx: f64,
    pub rate: f64,
    pub source_term: f64,
}

fn diffusivity_params(p: DfnParams) -> DiffusivityParams
    ensures { result ≡ diffusivity_params p }
{
    DiffusivityParams {
        factor: elementary::powf(p.eps_e_elec, p.brugg),
        d_e0: p.d_e0,
        gamma_e: p.gamma_e,
        c_e0: p.c_e0,
    }
}

// The n nodes of one electrode, into whose pores the flux j goes.
fn region_of(p: DfnParams, side: Side, n: usize, j: f64, dt: f64) -> Region
    ensures { result ≡ region_of p side n j dt }
{
    let dx = side.l / std::num::nearest_u64_to_f64(n as u64);
    let source = (1.0 - p.t_plus) * side.specific_area() * j * 96485.0;
    Region {
        n,
        dx,
        rate: dt / (p.eps_e_elec * dx),
        source_term: dt * source / p.eps_e_elec,
    }
}

// The effective diffusivity at a concentration.
pub fn d_eff_e(s: DiffusivityParams, c: f64) -> f64
    ensures { result ≡ d_eff_of s c }
{
    s.factor * (s.d_e0 * elementary::exp(-s.gamma_e * (c / s.c_e0 - 1.0)))
}

// The diffusivity at each of the first n nodes.
fn diffusivities(s: DiffusivityParams, c: &[f64; 33], n: usize) -> [f64; 33]
    requires { n ≤ 33 }
    ensures { result ≡ d_effs s c.now n }
{
    let mut d = [0.0; 33];
    // By index: `d[..n].iter_mut().zip(c)` is no plainer.
    for i in 0..n {
        d[i] = d_eff_e(s, c[i]);
    }
    d
}

// What flows between two nodes with the concentrations a and b, by their diffusivities.
fn flow(da: f64, db: f64, a: f64, b: f64, dx: f64) -> f64
    ensures { result ≡ flow_with da db a b dx }
{
    0.5 * (da + db) * (b - a) / dx
}

// A node that moves, by its neighbours.
fn moved(v: Region, c: &[f64; 33], d: &[f64; 33], i: usize) -> f64
    requires { (1 ≤ i) × (i < 32) }
    ensures { result ≡ moved_with v c.now d.now i }
{
    let right = flow(d[i], d[i + 1], c[i], c[i + 1], v.dx);
    let left = flow(d[i - 1], d[i], c[i - 1], c[i], v.dx);
    c[i] + v.rate * (right - left) + v.source_term
}

// The node i. The anode's first and last node, the separator and the last node of all keep their value; the cathode's first does not.
fn node(neg: Region, pos: Region, c: &[f64; 33], d: &[f64; 33], i: usize) -> f64
    requires { (neg.n ≤ 16) × ((pos.n ≤ 16) × (i < 33)) }
    ensures { result ≡ node_with neg pos c.now d.now i }
{
    if (0 < i) & (i + 1 < neg.n) {
        return moved(neg, c, d, i);
    }
    if (neg.n < i) & (i + 1 < neg.n + 1 + pos.n) {
        return moved(pos, c, d, i);
    }
    c[i]
}

// Each node anew, held to 100 to 3,000.
fn nodes(neg: Region, pos: Region, c: &[f64; 33], d: &[f64; 33]) -> [f64; 33]
    requires { (neg.n ≤ 16) × (pos.n ≤ 16) }
    ensures { result ≡ nodes_with neg pos c.now d.now }
{
    let n = neg.n + 1 + pos.n;
    let mut out = *c;
    // By index: a node is known by its number.
    for i in 0..n {
        out[i] = min_max::clamp(node(neg, pos, c, d, i), 100.0, 3000.0);
    }
    out
}

// The electrolyte after an interval with a current: of the n_neg nodes in the anode, the separator's and the n_pos in the cathode.
pub fn update_electrolyte(
    p: DfnParams,
    n_neg: usize,
    n_pos: usize,
    c: &[f64; 33],
    current: f64,
    dt: f64,
) -> [f64; 33]
    requires { (n_neg ≤ 16) × (n_pos ≤ 16) }
    ensures { result ≡ electrolyte_after p n_neg n_pos c.now current dt }
{
    let anode = p.anode();
    let cathode = p.cathode();
    let neg = region_of(p, anode, n_neg, anode.pore_flux(p.area, -current), dt);
    let pos = region_of(p, cathode, n_pos, cathode.pore_flux(p.area, current), dt);
    let d = diffusivities(diffusivity_params(p), c, n_neg + 1 + n_pos);
    nodes(neg, pos, c, &d)
}
