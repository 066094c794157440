// The single-particle cell: one particle for each electrode. A changed translation of src/battery/p2d/solver.rs. The area is the
// anode's; what does not change within a step is worked out once.
#![tactic(auto)]

ghost use Rattle.std.specs.Prelude.{◌≡◌, IfOk};
ghost use Rattle.refusal.specs.Answers.{outcome_of};
ghost use Rattle.refusal.specs.Refusals.{refusal_of};
ghost use Rattle.arrays.specs.Places.{filled};
ghost use Rattle.particle.specs.Particle.{particle_of};
ghost use Rattle.solver_step.specs.Answers.{reported_by};
ghost use Rattle.solver.specs.Answers.{build_answered, step_answered};
ghost use Rattle.solver.specs.Cell.{grid_fits, cell_refusal, no_solver, built, ready, ocv_call, soc_call};
ghost use Rattle.solver.specs.Step.{stepped};
ghost use Rattle.solver.specs.Parts.{cell_of, parts_of, StepOf};
ghost use Rattle.electrode.specs.Sheet.{lfp_cathode, nmc_cathode};

use electrode::ElectrodeParams;
use kinetics::SpmConfig;
use particle::{ParticleDiffusion, ParticleView};
use profile::Nodes;
use refusal::{Refusal, finite_or_refused, refuse_unless};
use solver_step::plan::{check_arguments, check_plan, plan_for};
use solver_step::report::SpmState;
use solver_step::{SpmNodes, SpmParts, SpmReport, follow};

#[derive(Clone, Copy)]
pub struct SpmSolver {
    pub config: SpmConfig,
    pub anode: ParticleDiffusion,
    pub cathode: ParticleDiffusion,
    // Clock, s.
    pub time_s: f64,
}

// What a step gives: the report, how many sub-steps it made, and the cell after it.
#[derive(Clone, Copy)]
pub struct SpmStepped {
    pub state: SpmState,
    pub sub_steps: u64,
    pub solver: SpmSolver,
}

// The counts of a cell's nodes where the table refuses nothing of the cell: all of 1 before all of 2.
#[tactic(auto, unfolding(crate::specs::Cell::cell_refusal, refusal::specs::Numbers::refusal_unless, refusal::specs::Numbers::first_refusal))]
fn check_cell(q: SpmParts, c_neg: &[f64; 64], c_pos: &[f64; 64]) -> Result<SpmNodes, Refusal>
    ensures number { refusal_of result ≡ cell_refusal (cell_of q c_neg.now c_pos.now) }
    ensures counts { IfOk result (λ n. (n.neg ≡ q.n_neg) × (n.pos ≡ q.n_pos)) }
{
    let nodes = Nodes::new(q.config.n_nodes)?;
    let n = nodes.count();
    refuse_unless((q.n_neg == n) & (q.n_pos == n), Refusal::Grid)?;
    let neg = ParticleView {
        params: q.neg,
        n: nodes,
        c: c_neg,
    };
    let pos = ParticleView {
        params: q.pos,
        n: nodes,
        c: c_pos,
    };
    let fits = q.config.fits() & neg.fits() & pos.fits() & refusal::clock_fits(q.time_s);
    refuse_unless(fits, Refusal::Sheet)?;
    Ok(SpmNodes {
        neg: nodes,
        pos: nodes,
    })
}

// One step, the profiles changed in place; refused, they are as they were.
#[tactic(auto, unfolding(crate::specs::Step::stepped, crate::specs::Step::input_refusal, crate::specs::Step::planned, crate::specs::Step::plan_of, crate::specs::Step::current_density, refusal::specs::Numbers::first_refusal))]
pub fn step_in_place(
    q: SpmParts,
    c_neg: &mut [f64; 64],
    c_pos: &mut [f64; 64],
    current_a: f64,
    dt: f64,
    temp_k: f64,
) -> Result<SpmReport, Refusal>
    ensures { StepOf q c_neg.old c_pos.old current_a dt temp_k (reported_by result) c_neg.new c_pos.new }
{
    let n = check_cell(q, c_neg, c_pos)?;
    check_arguments(current_a, dt, temp_k)?;
    let p = plan_for(q, &n, current_a / q.neg.area, dt, temp_k);
    check_plan(p)?;
    follow(q, &n, p, c_neg, c_pos, current_a, dt, temp_k)
}

// A particle with the same concentration at all nodes.
fn uniform(params: ElectrodeParams, x: f64, n: Nodes) -> ParticleDiffusion
    ensures { result ≡ particle_of params n (filled 64 x n) }
{
    let n_nodes = n.count();
    let c_s = arrays::uniform(x, n_nodes);
    ParticleDiffusion {
        params,
        n_nodes,
        c_s,
    }
}

impl SpmSolver {
    // ---- builds

    // A cell from two sheets, with the config's count of nodes in both.
    #[tactic(auto, unfolding(crate::specs::Cell::built, crate::specs::Cell::build_refusal, crate::specs::Cell::fresh_solver, particle::specs::Calls::fresh, refusal::specs::Numbers::refusal_unless, refusal::specs::Numbers::first_refusal))]
    pub fn new(
        config: SpmConfig,
        anode: ElectrodeParams,
        cathode: ElectrodeParams,
    ) -> Result<SpmSolver, Refusal>
        ensures { build_answered no_solver result ≡ built config anode cathode }
    {
        let n = Nodes::new(config.n_nodes)?;
        refuse_unless(
            config.fits() & anode.fits() & cathode.fits(),
            Refusal::Sheet,
        )?;
        Ok(SpmSolver {
            config,
            anode: uniform(anode, anode.theta_init * anode.c_s_max, n),
            cathode: uniform(cathode, cathode.theta_init * cathode.c_s_max, n),
            time_s: 0.0,
        })
    }

    // Graphite and LFP. WARNING: see `step`.
    pub fn graphite_lfp(config: SpmConfig) -> Result<SpmSolver, Refusal>
        ensures { build_answered no_solver result ≡ ready config lfp_cathode }
    {
        SpmSolver::new(
            config,
            ElectrodeParams::graphite_anode(),
            ElectrodeParams::lfp_cathode(),
        )
    }

    // Graphite and NMC.
    pub fn graphite_nmc(config: SpmConfig) -> Result<SpmSolver, Refusal>
        ensures { build_answered no_solver result ≡ ready config nmc_cathode }
    {
        SpmSolver::new(
            config,
            ElectrodeParams::graphite_anode(),
            ElectrodeParams::nmc_cathode(),
        )
    }

    // ---- checks

    // Whether the count of nodes is in range, and that of both particles.
    pub fn grid_fits(self) -> bool
        ensures { result ≡ grid_fits self }
    {
        let n = self.config.n_nodes;
        refusal::count_within(n as u64, 3, 64)
            & (self.anode.n_nodes == n)
            & (self.cathode.n_nodes == n)
    }

    // The cell without its profiles.
    fn parts(self) -> SpmParts
        ensures { result ≡ parts_of self }
    {
        SpmParts {
            config: self.config,
            neg: self.anode.params,
            n_neg: self.anode.n_nodes,
            pos: self.cathode.params,
            n_pos: self.cathode.n_nodes,
            time_s: self.time_s,
        }
    }

    // Refuses a cell by the table.
    pub fn check(self) -> Result<(), Refusal>
        ensures { refusal_of result ≡ cell_refusal self }
    {
        check_cell(self.parts(), &self.anode.c_s, &self.cathode.c_s)?;
        Ok(())
    }

    // ---- calls

    // One step: a current in A, positive on discharge, for an interval in s at a temperature in K.
    // WARNINGS, faults of the model that the port keeps (docs/DIFFERENCES.md): a full or empty particle is clamped, charge is lost and the voltage may
    // stay above v_min for ever; with LFP the voltage rises during most of a discharge.
    pub fn step(self, current_a: f64, dt: f64, temp_k: f64) -> Result<SpmStepped, Refusal>
        ensures { step_answered self result ≡ stepped self current_a dt temp_k }
    {
        let q = self.parts();
        let mut solver = self;
        let m = step_in_place(
            q,
            &mut solver.anode.c_s,
            &mut solver.cathode.c_s,
            current_a,
            dt,
            temp_k,
        )?;
        solver.time_s = q.time_s + dt;
        Ok(SpmStepped {
            state: m.state,
            sub_steps: m.sub_steps,
            solver,
        })
    }

    // Open-circuit voltage, V.
    #[tactic(auto, unfolding(crate::specs::Cell::ocv_call, crate::specs::Cell::open_circuit_voltage, refusal::specs::Numbers::refusal_unless, refusal::specs::Numbers::first_refusal, refusal::specs::Answers::outcome))]
    pub fn ocv(self) -> Result<f64, Refusal>
        ensures { outcome_of result ≡ ocv_call self }
    {
        let n = check_cell(self.parts(), &self.anode.c_s, &self.cathode.c_s)?;
        let u_neg = self.anode.view(n.neg).surface_potential();
        let u_pos = self.cathode.view(n.pos).surface_potential();
        finite_or_refused(u_pos - u_neg)
    }

    // State of charge by the anode's average stoichiometry, 0 to 1.
    #[tactic(auto, unfolding(crate::specs::Cell::soc_call, refusal::specs::Numbers::refusal_unless, refusal::specs::Numbers::first_refusal, refusal::specs::Answers::outcome))]
    pub fn soc_estimate(self) -> Result<f64, Refusal>
        ensures { outcome_of result ≡ soc_call self }
    {
        let n = check_cell(self.parts(), &self.anode.c_s, &self.cathode.c_s)?;
        let theta = self.anode.view(n.neg).average_theta();
        finite_or_refused(min_max::clamp((theta - 0.20) / (0.80 - 0.20), 0.0, 1.0))
    }
}
