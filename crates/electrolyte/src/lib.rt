// The electrolyte over anode, separator and cathode: three regions and the concentration profile. A changed translation of
// src/battery/p2d/electrolyte.rs (`ElectrolyteState`, without its potential).
#![tactic(auto)]

ghost use Rattle.std.specs.Prelude.{◌≡◌, ◌≤◌};
ghost use Rattle.binary64.specs.Operators.{◌⊘◌, count};
ghost use Rattle.refusal.specs.Answers.{outcome_of};
ghost use Rattle.refusal.specs.Refusals.{refusal_of};
ghost use Rattle.electrolyte.specs.State.{total, counts_fit, regions_fit, unfilled, no_state, with_profile, least_of, stable_interval, region_of, step_params};
ghost use Rattle.electrolyte.specs.Answers.{electrolyte_answered, counted};
ghost use Rattle.electrolyte.specs.Calls.{build_refusal, built, n_total_of, c_avg_of, step_refusal, stepped, dt_stable};

use electrolyte_parameters::ElectrolyteParams;
use electrolyte_profile::{ElectrolyteStepParams, Region, advanced, profile_fits, sum};
use refusal::{Refusal, count_within, finite_or_refused, refuse_unless, within};

// The fields are those of docs/REFERENCE.md, so the numbers of a region stand one by one.
// A profile over the three regions, by value: the first n_neg + n_sep + n_pos places of c_e are used, the others +0.
#[derive(Clone, Copy)]
pub struct ElectrolyteState {
    pub params: ElectrolyteParams,
    // Lengths of anode, separator and cathode, m.
    pub l_neg: f64,
    pub l_sep: f64,
    pub l_pos: f64,
    // Their porosities.
    pub eps_neg: f64,
    pub eps_sep: f64,
    pub eps_pos: f64,
    // How many nodes each has.
    pub n_neg: usize,
    pub n_sep: usize,
    pub n_pos: usize,
    // Concentration at each node, mol/m^3.
    pub c_e: [f64; 96],
}

// x over a number of nodes.
fn per_node(x: f64, n: usize) -> f64
    ensures { result ≡ x ⊘ count n }
{
    x / std::num::nearest_u64_to_f64(n as u64)
}

// The least of three.
fn least(a: f64, b: f64, c: f64) -> f64
    ensures { result ≡ least_of a b c }
{
    min_max::min(min_max::min(a, b), c)
}

// What a step works with in a region of the length l with n nodes.
#[tactic(auto, unfolding(crate::specs::State::region_of))]
fn region(p: ElectrolyteParams, eps: f64, l: f64, n: usize, src: f64, temp_k: f64) -> Region
    ensures { result ≡ region_of p eps l n src temp_k }
{
    Region {
        eps,
        dx: per_node(l, n),
        d_eff: p.diffusivity_eff(eps, temp_k),
        src,
    }
}

impl ElectrolyteState {
    // Whether each region has 1 to 32 nodes.
    fn counts_fit(self) -> bool
        ensures { result ≡ counts_fit self }
    {
        count_within(self.n_neg as u64, 1, 32)
            & count_within(self.n_sep as u64, 1, 32)
            & count_within(self.n_pos as u64, 1, 32)
    }

    // Whether the lengths and the porosities are in their ranges.
    fn regions_fit(self) -> bool
        ensures { result ≡ regions_fit self }
    {
        within(self.l_neg, 1e-7, 1e-2)
            & within(self.l_sep, 1e-7, 1e-2)
            & within(self.l_pos, 1e-7, 1e-2)
            & within(self.eps_neg, 0.01, 1.0)
            & within(self.eps_sep, 0.01, 1.0)
            & within(self.eps_pos, 0.01, 1.0)
    }

    // Refuses a build: for the counts, then for the other fields.
    #[tactic(auto, unfolding(crate::specs::Calls::build_refusal, refusal::specs::Numbers::refusal_unless, refusal::specs::Numbers::first_refusal))]
    fn check_build(self) -> Result<(), Refusal>
        ensures { refusal_of result ≡ build_refusal self }
    {
        refuse_unless(self.counts_fit(), Refusal::Grid)?;
        refuse_unless(self.params.fits() & self.regions_fit(), Refusal::Sheet)
    }

    // How many places are used.
    fn nodes(self) -> usize
        requires { total self ≤ 96 }
        ensures { result ≡ total self }
    {
        self.n_neg + self.n_sep + self.n_pos
    }

    // Refuses a step before it is made: for the state, then for the arguments.
    #[tactic(auto, unfolding(crate::specs::Calls::step_refusal, crate::specs::Calls::n_total_of, refusal::specs::Numbers::refusal_unless, refusal::specs::Numbers::first_refusal))]
    fn check_step(self, j_n_neg: f64, j_n_pos: f64, dt: f64, temp_k: f64) -> Result<(), Refusal>
        ensures { refusal_of result ≡ step_refusal self j_n_neg j_n_pos dt temp_k }
    {
        self.n_total()?;
        let sources = refusal::load_fits(j_n_neg, 1e9) & refusal::load_fits(j_n_pos, 1e9);
        refuse_unless(sources, Refusal::Load)?;
        refuse_unless(refusal::interval_fits(dt), Refusal::Interval)?;
        refuse_unless(refusal::temperature_fits(temp_k), Refusal::Temperature)
    }

    // What a step works with. The effective diffusivities are worked out here, once.
    #[tactic(auto, unfolding(crate::specs::State::step_params))]
    fn step_params(self, j_n_neg: f64, j_n_pos: f64, dt: f64, temp_k: f64) -> ElectrolyteStepParams
        requires { total self ≤ 96 }
        ensures { result ≡ step_params self j_n_neg j_n_pos dt temp_k }
    {
        let params = self.params;
        let src_coeff = 1.0 - params.t_plus;
        let neg = region(
            params,
            self.eps_neg,
            self.l_neg,
            self.n_neg,
            src_coeff * j_n_neg,
            temp_k,
        );
        let sep = region(params, self.eps_sep, self.l_sep, self.n_sep, 0.0, temp_k);
        let pos = region(
            params,
            self.eps_pos,
            self.l_pos,
            self.n_pos,
            src_coeff * j_n_pos,
            temp_k,
        );
        ElectrolyteStepParams {
            neg,
            sep,
            pos,
            past_neg: self.n_neg,
            past_sep: self.n_neg + self.n_sep,
            n: self.nodes(),
            dt,
        }
    }

    // This state with another profile.
    fn with_profile(self, c_e: [f64; 96]) -> ElectrolyteState
        ensures { result ≡ with_profile self c_e }
    {
        ElectrolyteState { c_e, ..self }
    }

    // The largest stable interval of the explicit step, by the least porosity and the least width.
    #[tactic(auto, unfolding(crate::specs::State::stable_interval))]
    fn stable_interval(self, temp_k: f64) -> f64
        ensures { result ≡ stable_interval self temp_k }
    {
        let params = self.params;
        let eps_min = least(self.eps_neg, self.eps_sep, self.eps_pos);
        let d_max = params.diffusivity_eff(eps_min, temp_k);
        let dx_neg = per_node(self.l_neg, self.n_neg);
        let dx_sep = per_node(self.l_sep, self.n_sep);
        let dx_pos = per_node(self.l_pos, self.n_pos);
        let dx_min = least(dx_neg, dx_sep, dx_pos);
        0.5 * dx_min * dx_min / d_max
    }

    // A state with the concentration c_e_init at every node.
    #[tactic(auto, unfolding(crate::specs::Calls::built))]
    pub fn new(
        params: ElectrolyteParams,
        l_neg: f64,
        l_sep: f64,
        l_pos: f64,
        eps_neg: f64,
        eps_sep: f64,
        eps_pos: f64,
        n_neg: usize,
        n_sep: usize,
        n_pos: usize,
    ) -> Result<ElectrolyteState, Refusal>
        ensures { electrolyte_answered no_state result ≡ built (unfilled params l_neg l_sep l_pos eps_neg eps_sep eps_pos n_neg n_sep n_pos) }
    {
        let given = ElectrolyteState {
            params,
            l_neg,
            l_sep,
            l_pos,
            eps_neg,
            eps_sep,
            eps_pos,
            n_neg,
            n_sep,
            n_pos,
            c_e: [0.0; 96],
        };
        given.check_build()?;
        let c_e = arrays::uniform::<96>(params.c_e_init, given.nodes());
        Ok(given.with_profile(c_e))
    }

    // How many nodes there are: what a state that passes its checks answers.
    #[tactic(auto, unfolding(crate::specs::Calls::n_total_of, crate::specs::Calls::state_refusal, refusal::specs::Numbers::refusal_unless, refusal::specs::Numbers::first_refusal))]
    pub fn n_total(self) -> Result<usize, Refusal>
        ensures { counted result ≡ n_total_of self }
    {
        self.check_build()?;
        let n = self.nodes();
        refuse_unless(profile_fits(&self.c_e, n), Refusal::Sheet)?;
        Ok(n)
    }

    // The mean concentration, mol/m^3.
    #[tactic(auto, unfolding(crate::specs::Calls::c_avg_of, crate::specs::State::average_of, crate::specs::Calls::n_total_of, refusal::specs::Answers::outcome, refusal::specs::Numbers::refusal_unless, refusal::specs::Numbers::first_refusal))]
    pub fn c_avg(self) -> Result<f64, Refusal>
        ensures { outcome_of result ≡ c_avg_of self }
    {
        let n = self.n_total()?;
        finite_or_refused(per_node(sum(&self.c_e, n), n))
    }

    // The state after one explicit step of dt seconds. j_n_neg and j_n_pos are the reactions in anode and cathode, mol/(m^3 s).
    // WARNING: salt is not conserved where two regions meet, and what would fall below 1e-10 becomes 1e-10.
    #[tactic(auto, unfolding(crate::specs::Calls::stepped, crate::specs::Calls::accepted, refusal::specs::Numbers::refusal_unless, refusal::specs::Numbers::first_refusal))]
    pub fn step_concentration(
        self,
        j_n_neg: f64,
        j_n_pos: f64,
        dt: f64,
        temp_k: f64,
    ) -> Result<ElectrolyteState, Refusal>
        ensures { electrolyte_answered self result ≡ stepped self j_n_neg j_n_pos dt temp_k }
    {
        self.check_step(j_n_neg, j_n_pos, dt, temp_k)?;
        let new = advanced(self.step_params(j_n_neg, j_n_pos, dt, temp_k), &self.c_e);
        refuse_unless(arrays::all_finite(&new, 96), Refusal::NotFinite)?;
        Ok(self.with_profile(new))
    }

    // The largest stable interval, s. WARNING: too long where porosities differ.
    #[tactic(auto, unfolding(crate::specs::Calls::dt_stable, crate::specs::Calls::n_total_of, refusal::specs::Answers::outcome, refusal::specs::Numbers::refusal_unless, refusal::specs::Numbers::first_refusal))]
    pub fn dt_stable(self, temp_k: f64) -> Result<f64, Refusal>
        ensures { outcome_of result ≡ dt_stable self temp_k }
    {
        self.n_total()?;
        refuse_unless(refusal::temperature_fits(temp_k), Refusal::Temperature)?;
        finite_or_refused(self.stable_interval(temp_k))
    }
}
