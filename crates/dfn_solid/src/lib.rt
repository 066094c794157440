// The particles of one electrode after a step, all from the old nodes. A changed translation of src/battery/p2d/dfn.rs (`update_solid`, `d_s`).
// The particles stand one after the other in one array, n nodes each. Each node's diffusivity is worked out once.
#![tactic(auto)]

ghost use Rattle.std.specs.Prelude.{◌≡◌, ◌+◌, ◌<◌, ◌≤◌};
ghost use Rattle.dfn_solid.specs.Solid.{d_solid, d_solids, inner_with, surface_with, centre_with, particle_with, at_least_one, solid_update};
ghost use Rattle.dfn_solid.specs.Answers.{solid_answered};

use refusal::Refusal;

// What the particles of one electrode work with: nodes of each, their distance, diffusivity, largest concentration, flux, interval.
#[derive(Clone, Copy)]
pub struct ParticleParams {
    // A number, so that `d_s` and `update_solid` take what they always took.
    pub n: usize,
    pub dr: f64,
    pub d_ref: f64,
    pub c_max: f64,
    pub flux: f64,
    pub dt: f64,
}

// Why the particles of an electrode are refused, and the mean of their surface stoichiometries all the same.
#[derive(Clone, Copy)]
pub struct SolidFault {
    pub refusal: Refusal,
    pub theta: f64,
}

impl From<SolidFault> for Refusal {
    ghost from_gives = { λ e r. r ≡ e.refusal };

    fn from(e: SolidFault) -> Refusal {
        e.refusal
    }
}

// The diffusivity at a concentration.
pub fn d_s(v: ParticleParams, c: f64) -> f64
    ensures { result ≡ d_solid v c }
{
    let x = c / min_max::max(v.c_max, 1e-3) - 0.5;
    v.d_ref * (1.0 + 0.3 * x * x)
}

// The diffusivity at each of the first n places.
fn diffusivities(v: ParticleParams, c: &[f64; 512], n: usize) -> [f64; 512]
    requires { n ≤ 512 }
    ensures { result ≡ d_solids v c.now n }
{
    let mut d = [0.0; 512];
    // By index: `d[..n].iter_mut().zip(c)` is no plainer.
    for k in 0..n {
        d[k] = d_s(v, c[k]);
    }
    d
}

// The place k, which is the node i of its particle, between two others.
fn inner_node(v: ParticleParams, c: &[f64; 512], d: &[f64; 512], k: usize, i: usize) -> f64
    requires { (1 ≤ k) × (k < 511) }
    ensures { result ≡ inner_with v c.now d.now k i }
{
    let r = std::num::nearest_u64_to_f64(i as u64) * v.dr;
    let up = r + 0.5 * v.dr;
    let down = min_max::max(r - 0.5 * v.dr, 0.0);
    let out = up * up * 0.5 * (d[k] + d[k + 1]) * (c[k + 1] - c[k]) / v.dr;
    let into = down * down * 0.5 * (d[k - 1] + d[k]) * (c[k] - c[k - 1]) / v.dr;
    c[k] + v.dt / (r * r * v.dr) * (out - into)
}

// The surface, which is the place k: the flux alone moves it.
fn surface_node(v: ParticleParams, c: &[f64; 512], d: &[f64; 512], k: usize) -> f64
    requires { k < 512 }
    ensures { result ≡ surface_with v c.now d.now k }
{
    c[k] - v.dt * d[k] * (v.flux / min_max::max(d[k], 1e-30)) / v.dr
}

// The centre of the particle at `base`: its neighbour's new value; where that is the surface, the surface's old one.
fn centre_node(v: ParticleParams, c: &[f64; 512], d: &[f64; 512], base: usize) -> f64
    requires { (2 ≤ v.n) × (base + v.n ≤ 512) }
    ensures { result ≡ centre_with v c.now d.now base }
{
    if v.n == 2 {
        return c[base + 1];
    }
    inner_node(v, c, d, base + 1, 1)
}

// Puts the particle at `base` anew, each node held to 0 to the largest concentration: the centre, the nodes between, whose loop has no
// branch, and the surface.
fn move_particle(
    v: ParticleParams,
    c: &[f64; 512],
    d: &[f64; 512],
    base: usize,
    out: &mut [f64; 512],
)
    requires { (2 ≤ v.n) × (base + v.n ≤ 512) }
    ensures { out.new ≡ particle_with v c.now d.now base out.old }
{
    let last = v.n - 1;
    out[base] = min_max::clamp(centre_node(v, c, d, base), 0.0, v.c_max);
    // By index: a node's number is in its radius.
    for i in 1..last {
        out[base + i] = min_max::clamp(inner_node(v, c, d, base + i, i), 0.0, v.c_max);
    }
    out[base + last] = min_max::clamp(surface_node(v, c, d, base + last), 0.0, v.c_max);
}

// A count, or 1 for none.
fn at_least_one(n: usize) -> u64
    ensures { result ≡ at_least_one n }
{
    if n == 0 { 1 } else { n as u64 }
}

// Puts the first `count` particles after a step into `new`, each node from the old ones, the other places as they were, and gives the mean of their surface
// stoichiometries, beside a refusal too. Refused where one of these numbers is not finite. Lent and inlined for the stack of the calls from C
// (docs/DECISIONS.md, 68).
#[inline(always)]
pub fn update_solid(
    v: ParticleParams,
    c: &[f64; 512],
    count: usize,
    new: &mut [f64; 512],
) -> Result<f64, SolidFault>
    requires { (2 ≤ v.n) × ((v.n ≤ 32) × (count ≤ 16)) }
    ensures { solid_answered new.new result ≡ solid_update v c.now count }
{
    let n = v.n;
    let used = count * n;
    let d = diffusivities(v, c, used);
    *new = *c;
    let mut sum = 0.0;
    // By index: a particle starts at i * n in three arrays, whose chunks side by side are no plainer.
    for i in 0..count {
        move_particle(v, c, &d, i * n, new);
        sum = sum + new[i * n + (n - 1)] / v.c_max;
    }
    let theta = sum / std::num::nearest_u64_to_f64(at_least_one(count));
    let finite = arrays::all_finite(new, used) & refusal::is_finite(theta);
    if finite {
        Ok(theta)
    } else {
        Err(SolidFault {
            refusal: Refusal::NotFinite,
            theta,
        })
    }
}
