// The electrolyte's profile: 96 places, the first n used. What it is checked for, its sum, and the profile after one explicit step.
// A changed translation of src/battery/p2d/electrolyte.rs (`step_concentration`).
#![tactic(auto)]

ghost use Rattle.std.specs.Prelude.{◌≡◌, ◌≤◌, ◌<◌};
ghost use Rattle.electrolyte_profile.specs.Places.{profile_fits, sum_of};
ghost use Rattle.electrolyte_profile.specs.Step.{region_at, left_of, right_of, node_from, node_new, profile_new};

// What a step works with in one region: porosity, width of a node, effective diffusivity, source.
#[derive(Clone, Copy)]
pub struct Region {
    pub eps: f64,
    pub dx: f64,
    pub d_eff: f64,
    pub src: f64,
}

// What a step works with: the regions, the first node past the anode, past the separator and past all, and the interval.
#[derive(Clone, Copy)]
pub struct ElectrolyteStepParams {
    pub neg: Region,
    pub sep: Region,
    pub pos: Region,
    pub past_neg: usize,
    pub past_sep: usize,
    pub n: usize,
    pub dt: f64,
}

// Whether every place of a profile with n nodes is as it must be: a used one finite and at least 1e-10, an unused one +0.
#[tactic(auto, unfolding(crate::specs::Places::profile_fits))]
pub fn profile_fits(c: &[f64; 96], n: usize) -> bool
    ensures { result ≡ profile_fits c.now n }
{
    arrays::places_pass(c, n, |x| refusal::is_finite(x) & (1e-10 <= x))
}

// The sum of the first n places, from the left. It starts at -0, as the Rust's does: any number added to that is itself.
pub fn sum(c: &[f64; 96], n: usize) -> f64
    requires { n ≤ 96 }
    ensures { result ≡ sum_of c.now n }
{
    let mut s = -0.0;
    for x in &c[..n] {
        s = s + *x;
    }
    s
}

// The region of the node i.
#[tactic(auto, unfolding(crate::specs::Step::region_at))]
fn region_at(v: ElectrolyteStepParams, i: usize) -> Region
    ensures { result ≡ region_at v i }
{
    if i < v.past_neg {
        v.neg
    } else if i < v.past_sep {
        v.sep
    } else {
        v.pos
    }
}

// The left neighbour of the node i; the first node is its own, so that nothing flows through the end.
#[tactic(auto, unfolding(crate::specs::Step::left_of))]
fn left_of(c: &[f64; 96], i: usize) -> f64
    requires { i < 96 }
    ensures { result ≡ left_of c.now i }
{
    if i == 0 { c[0] } else { c[i - 1] }
}

// The right neighbour of the node i of n; the last node is its own.
#[tactic(auto, unfolding(crate::specs::Step::right_of))]
fn right_of(c: &[f64; 96], i: usize, n: usize) -> f64
    requires { (i < n) × (n ≤ 96) }
    ensures { result ≡ right_of c.now i n }
{
    if i == n - 1 { c[n - 1] } else { c[i + 1] }
}

// A node after the step, from itself and its neighbours. The floor takes a NaN too.
#[tactic(auto, unfolding(crate::specs::Step::node_from))]
fn moved(r: Region, dt: f64, left: f64, here: f64, right: f64) -> f64
    ensures { result ≡ node_from r dt left here right }
{
    let d2c = (left - 2.0 * here + right) / (r.dx * r.dx);
    let dc = (r.d_eff * d2c + r.src) / r.eps;
    min_max::max(here + dt * dc, 1e-10)
}

// The node i after the step, from the old profile.
#[tactic(auto, unfolding(crate::specs::Step::node_new))]
fn node_new(v: ElectrolyteStepParams, c: &[f64; 96], i: usize) -> f64
    requires { (i < v.n) × (v.n ≤ 96) }
    ensures { result ≡ node_new v c.now i }
{
    let left = left_of(c, i);
    let right = right_of(c, i, v.n);
    moved(region_at(v, i), v.dt, left, c[i], right)
}

// The profile after the step: every node from the old profile. By index, for the neighbours.
pub fn advanced(v: ElectrolyteStepParams, c: &[f64; 96]) -> [f64; 96]
    requires { v.n ≤ 96 }
    ensures { result ≡ profile_new v c.now }
{
    let n = v.n;
    let mut out = *c;
    for node in 0..n {
        out[node] = node_new(v, c, node);
    }
    out
}
