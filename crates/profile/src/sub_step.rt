// One sub-step of the diffusion in a particle: the profile anew from the old one, by the explicit scheme. A changed
// translation of src/battery/p2d/electrode.rs (`ParticleDiffusion::step`).

ghost use Rattle.std.specs.Prelude.{◌≡◌, ◌≤◌, ◌-◌};
ghost use Rattle.binary64.specs.Operators.{count};
ghost use Rattle.iterate.specs.Iterate.{times};
ghost use Rattle.profile.specs.SubSteps.{prepared, inverse_radii, centre_by, shell_by, moved_by, sub_step_by};

// What does not change within a call.
#[derive(Clone, Copy)]
pub struct SubStepCoefficients {
    // The count of nodes: a number, since the borrow checker does not cover copies of a record that holds a `Nodes`.
    pub n: usize,
    // The diffusivity, and six times it.
    pub d_s: f64,
    pub six_d: f64,
    // The spacing squared and twice the spacing.
    pub dr_2: f64,
    pub two_dr: f64,
    // What the flux adds to the value beyond the surface.
    pub flux_term: f64,
    pub c_max: f64,
    pub dt: f64,
}

// The numbers of a call, of n nodes with the spacing dr.
pub fn prepare(n: usize, dr: f64, d_s: f64, c_max: f64, j_n: f64, dt: f64) -> SubStepCoefficients
    ensures { result ≡ prepared n dr d_s c_max j_n dt }
{
    SubStepCoefficients {
        n,
        d_s,
        six_d: 6.0 * d_s,
        dr_2: dr * dr,
        two_dr: 2.0 * dr,
        flux_term: 2.0 * dr * j_n / d_s,
        c_max,
        dt,
    }
}

// A count as a binary64, which holds it exactly; from 32 bits the machine converts it by one instruction, from 64 unsigned ones it does not.
pub fn count_f64(n: usize) -> f64
    requires { n ≤ 64 }
    ensures { result ≡ count n }
{
    n as u32 as f64
}

// 2 / r for the radius r of each node but the centre's.
// By number: a node's is in its radius.
pub fn inverse_radii(n: usize, dr: f64) -> [f64; 64]
    requires { n ≤ 64 }
    ensures { result ≡ inverse_radii n dr }
{
    let mut w = [0.0; 64];
    for i in 0..n {
        w[i] = 2.0 / (count_f64(i) * dr);
    }
    w
}

// The rate of change at the centre.
fn centre_rate(v: SubStepCoefficients, c0: f64, c1: f64) -> f64
    ensures { result ≡ centre_by v c0 c1 }
{
    v.six_d * (c1 - c0) / v.dr_2
}

// The rate of change at a node with w = 2 / r, between its neighbours.
fn shell_rate(v: SubStepCoefficients, w: f64, before: f64, here: f64, after: f64) -> f64
    ensures { result ≡ shell_by v w before here after }
{
    let d2c = (after - 2.0 * here + before) / v.dr_2;
    let dc_dr = (after - before) / v.two_dr;
    v.d_s * (d2c + w * dc_dr)
}

// A node after the sub-step.
fn moved(v: SubStepCoefficients, here: f64, rate: f64) -> f64
    ensures { result ≡ moved_by v here rate }
{
    min_max::clamp(here + v.dt * rate, 0.0, v.c_max)
}

// A node with w = 2 / r after the sub-step, from itself and its neighbours.
fn shell_node(v: SubStepCoefficients, w: f64, before: f64, here: f64, after: f64) -> f64
    ensures { result ≡ moved_by v here (shell_by v w before here after) }
{
    moved(v, here, shell_rate(v, w, before, here, after))
}

// The profile after a sub-step: each node from its old neighbours, of which the one before is kept aside. The flux gives the surface a
// neighbour outside.
// By index, for the neighbours.
fn sub_step(v: SubStepCoefficients, w: &[f64; 64], c: [f64; 64]) -> [f64; 64]
    requires { (3 ≤ v.n) × (v.n ≤ 64) }
    ensures { result ≡ sub_step_by v w.now c }
{
    let last = v.n - 1;
    let mut out = c;
    let mut before = out[0];
    out[0] = moved(v, before, centre_rate(v, before, out[1]));
    for i in 1..last {
        let here = out[i];
        out[i] = shell_node(v, w[i], before, here, out[i + 1]);
        before = here;
    }
    out[last] = shell_node(v, w[last], before, out[last], before + v.flux_term);
    out
}

// The profile after so many sub-steps.
pub fn sub_steps(v: SubStepCoefficients, w: &[f64; 64], c: [f64; 64], turns: usize) -> [f64; 64]
    requires { (3 ≤ v.n) × (v.n ≤ 64) }
    ensures { result ≡ times turns (sub_step_by v w.now) c }
{
    let mut out = c;
    for k in 0..turns {
        // In a binding of its own: the borrow checker does not cover a call's array laid in a local that it was passed from.
        let next = sub_step(v, w, out);
        out = next;
    }
    out
}
