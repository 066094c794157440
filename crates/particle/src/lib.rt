// A particle of an electrode and the diffusion in it. A changed translation of src/battery/p2d/electrode.rs (its
// `ParticleDiffusion`). The spacing of the nodes is worked out; what does not change within a call is worked out once.
#![tactic(auto, unfolding(crate::specs::Particle::spacing, crate::specs::Particle::surface_theta, crate::specs::Particle::surface_potential, crate::specs::Particle::stable_step, crate::specs::Particle::average_theta, crate::specs::Calls::new_refusal, crate::specs::Calls::fresh, crate::specs::Calls::made, crate::specs::Calls::step_refusal, crate::specs::Calls::accepted, crate::specs::Calls::stepped, crate::specs::Calls::dt_stable, crate::specs::Calls::theta_surface, crate::specs::Calls::theta_avg_of, crate::specs::Calls::c_avg_of, crate::specs::Calls::ocp_surface, iterate::specs::Iterate::times, refusal::specs::Numbers::refusal_unless, refusal::specs::Numbers::first_refusal, refusal::specs::Answers::outcome))]

ghost use Rattle.std.specs.Prelude.{◌≡◌, IfOk};
ghost use Rattle.refusal.specs.Refusals.{refusal_of};
ghost use Rattle.refusal.specs.Answers.{outcome_of};
ghost use Rattle.iterate.specs.Iterate.{times};
ghost use Rattle.diffusion.specs.SubStep.{sub_step};
ghost use Rattle.particle.specs.Checks.{fields_fit_of, particle_refusal};
ghost use Rattle.particle.specs.Particle.{particle_of, spacing, sub_step_params_of, surface_theta, surface_potential, stable_step, average, average_theta};
ghost use Rattle.particle.specs.Answers.{particle_answered};
ghost use Rattle.particle.specs.Calls.{no_particle, made, step_refusal, accepted, stepped, dt_stable, theta_surface, theta_avg_of, c_avg_of, ocp_surface};

use electrode::ElectrodeParams;
use profile::sub_step::{count_f64, inverse_radii, prepare, sub_steps};
use profile::{Nodes, profile_finite, profile_fits, sums_of};
use refusal::{
    Refusal, finite_or_refused, interval_fits, load_fits, refuse_unless, temperature_fits,
};

#[derive(Clone, Copy)]
pub struct ParticleDiffusion {
    pub params: ElectrodeParams,
    // How many nodes: 0 is the centre, n_nodes - 1 the surface. A number, as in C: one outside 3 to 64 is refused.
    pub n_nodes: usize,
    // Concentration of lithium at each node, mol/m^3; the places from n_nodes on are +0.
    pub c_s: [f64; 64],
}

// A particle of 3 to 64 nodes whose profile is lent.
#[derive(Clone, Copy)]
pub struct ParticleView<'a> {
    pub params: ElectrodeParams,
    pub n: Nodes,
    pub c: &'a [f64; 64],
}

impl<'a> ParticleView<'a> {
    // Whether the sheet and the profile are as they must be.
    pub fn fits(&self) -> bool
        ensures { result ≡ fields_fit_of (particle_of self.now.params self.now.n self.now.c.now) }
    {
        self.params.fits() & profile_fits(self.c, self.n.count(), self.params.c_s_max)
    }

    // The stoichiometry at the surface.
    pub fn surface_theta(&self) -> f64
        ensures { result ≡ surface_theta (particle_of self.now.params self.now.n self.now.c.now) }
    {
        let last = self.n.count() - 1;
        self.c[last] / self.params.c_s_max
    }

    // The open-circuit potential at the surface.
    pub fn surface_potential(&self) -> f64
        ensures { result ≡ surface_potential (particle_of self.now.params self.now.n self.now.c.now) }
    {
        self.params.open_circuit(self.surface_theta())
    }

    // The average concentration.
    pub fn average(&self) -> f64
        ensures { result ≡ average (particle_of self.now.params self.now.n self.now.c.now) }
    {
        let r_max = self.params.r_particle;
        let dr = spacing(self.params, self.n);
        let s = sums_of(self.c, self.n.count(), dr);
        if s.shares < 1e-30 {
            return self.c[0];
        }
        3.0 * s.content / (r_max * r_max * r_max) * dr / 3.0
    }

    // The average stoichiometry.
    pub fn average_theta(&self) -> f64
        ensures { result ≡ average_theta (particle_of self.now.params self.now.n self.now.c.now) }
    {
        self.average() / self.params.c_s_max
    }
}

// The distance between two nodes.
fn spacing(params: ElectrodeParams, n: Nodes) -> f64
    ensures { result ≡ spacing params n }
{
    params.r_particle / count_f64(n.count() - 1)
}

// The longest stable interval at a diffusivity.
pub fn stable_step(params: ElectrodeParams, n: Nodes, d_s: f64) -> f64
    ensures { result ≡ stable_step params n d_s }
{
    let dr = spacing(params, n);
    0.5 * dr * dr / d_s
}

// The profile after so many sub-steps of the length dt.
pub fn advance(
    params: ElectrodeParams,
    n: Nodes,
    c: [f64; 64],
    d_s: f64,
    j_n: f64,
    dt: f64,
    turns: usize,
) -> [f64; 64]
    ensures { result ≡ times turns (sub_step (sub_step_params_of (particle_of params n c) d_s j_n dt)) c }
{
    let dr = spacing(params, n);
    let count = n.count();
    let v = prepare(count, dr, d_s, params.c_s_max, j_n, dt);
    let w = inverse_radii(count, dr);
    sub_steps(v, &w, c, turns)
}

impl ParticleDiffusion {
    // The particle lent, with the count of its nodes.
    pub fn view(&self, n: Nodes) -> ParticleView<'_>
        ensures sheet { result.params ≡ self.now.params }
        ensures nodes { result.n ≡ n }
        ensures places { result.c.now ≡ self.now.c_s }
    {
        ParticleView {
            params: self.params,
            n,
            c: &self.c_s,
        }
    }

    // The count of its nodes, or the refusal that the particle meets.
    #[tactic(auto, unfolding(crate::specs::Checks::particle_refusal, refusal::specs::Numbers::refusal_unless, refusal::specs::Numbers::first_refusal))]
    pub fn check(self) -> Result<Nodes, Refusal>
        ensures refused { refusal_of result ≡ particle_refusal self }
        ensures counted { IfOk result (λ n. n ≡ self.n_nodes) }
    {
        let n = Nodes::new(self.n_nodes)?;
        refuse_unless(self.view(n).fits(), Refusal::Sheet)?;
        Ok(n)
    }

    // ---- calls

    // A particle with the same stoichiometry at all nodes.
    pub fn new(params: ElectrodeParams, n_nodes: usize) -> Result<ParticleDiffusion, Refusal>
        ensures { particle_answered no_particle result ≡ made params n_nodes }
    {
        Nodes::new(n_nodes)?;
        refuse_unless(params.fits(), Refusal::Sheet)?;
        let c_s = arrays::uniform::<64>(params.theta_init * params.c_s_max, n_nodes);
        Ok(ParticleDiffusion {
            params,
            n_nodes,
            c_s,
        })
    }

    // The count of its nodes, or the refusal that a step meets before it is made.
    pub fn check_step(self, j_n: f64, dt: f64, temp_k: f64) -> Result<Nodes, Refusal>
        ensures refused { refusal_of result ≡ step_refusal self j_n dt temp_k }
        ensures counted { IfOk result (λ n. n ≡ self.n_nodes) }
    {
        let n = self.check()?;
        refuse_unless(load_fits(j_n, 1e13), Refusal::Load)?;
        refuse_unless(interval_fits(dt), Refusal::Interval)?;
        refuse_unless(temperature_fits(temp_k), Refusal::Temperature)?;
        Ok(n)
    }

    // The particle with a new profile, which is refused where a place is not finite.
    fn accepted(self, c_s: [f64; 64]) -> Result<ParticleDiffusion, Refusal>
        ensures { particle_answered self result ≡ accepted self c_s }
    {
        refuse_unless(profile_finite(&c_s), Refusal::NotFinite)?;
        Ok(ParticleDiffusion { c_s, ..self })
    }

    // One explicit step: a flux into the particle, mol/(m^2 s), for an interval in s at a temperature in K.
    // WARNING: a node that would leave 0 to c_s_max is set to that end, and the lithium beyond it is lost.
    pub fn step(self, j_n: f64, dt: f64, temp_k: f64) -> Result<ParticleDiffusion, Refusal>
        ensures { particle_answered self result ≡ stepped self j_n dt temp_k }
    {
        let n = self.check_step(j_n, dt, temp_k)?;
        let d_s = self.params.diffusivity_at(temp_k);
        let c_s = advance(self.params, n, self.c_s, d_s, j_n, dt, 1);
        self.accepted(c_s)
    }

    // The longest stable interval at a temperature, s.
    pub fn dt_stable(self, temp_k: f64) -> Result<f64, Refusal>
        ensures { outcome_of result ≡ dt_stable self temp_k }
    {
        let nodes = self.check()?;
        refuse_unless(temperature_fits(temp_k), Refusal::Temperature)?;
        let d_s = self.params.diffusivity_at(temp_k);
        finite_or_refused(stable_step(self.params, nodes, d_s))
    }

    // Stoichiometry at the surface.
    pub fn theta_surface(self) -> Result<f64, Refusal>
        ensures { outcome_of result ≡ theta_surface self }
    {
        let n = self.check()?;
        finite_or_refused(self.view(n).surface_theta())
    }

    // Average stoichiometry. WARNING: wrong where the count of nodes is even.
    pub fn theta_avg(self) -> Result<f64, Refusal>
        ensures { outcome_of result ≡ theta_avg_of self }
    {
        let n = self.check()?;
        finite_or_refused(self.view(n).average_theta())
    }

    // Average concentration, mol/m^3. WARNING: wrong where the count of nodes is even.
    pub fn c_avg(self) -> Result<f64, Refusal>
        ensures { outcome_of result ≡ c_avg_of self }
    {
        let n = self.check()?;
        finite_or_refused(self.view(n).average())
    }

    // Open-circuit potential at the surface, V.
    pub fn ocp_surface(self) -> Result<f64, Refusal>
        ensures { outcome_of result ≡ ocp_surface self }
    {
        let n = self.check()?;
        finite_or_refused(self.view(n).surface_potential())
    }
}
