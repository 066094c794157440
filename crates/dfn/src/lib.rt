// The Doyle-Fuller-Newman cell by value: how it is built, checked and stepped. A changed translation of src/battery/p2d/dfn.rs (`DfnSolver`).
// The particles of an electrode stand in one array, node ri of particle xi at xi * n_r + ri.
#![tactic(auto)]

ghost use Rattle.std.specs.Prelude.{◌≡◌, IfOk};
ghost use Rattle.refusal.specs.Numbers.{refusal_unless, first_refusal, not_finite_of};
ghost use Rattle.refusal.specs.Refusals.{refusal_of};
ghost use Rattle.dfn_solid.specs.Answers.{solid_number, solid_mean};
ghost use Rattle.dfn.specs.Checks.{parts_refusal, load_refusal, step_refusal};
ghost use Rattle.dfn.specs.Step.{particle_params, report_by, rest_finite, no_report, stepped};
ghost use Rattle.dfn.specs.Answers.{build_answered, reported_by, step_answered};
ghost use Rattle.dfn.specs.Parts.{StepOf};
ghost use Rattle.dfn.specs.Build.{no_cell, made};

use dfn_electrolyte::update_electrolyte;
use dfn_parameters::{DfnConfig, DfnParams, FitParams, Side};
use dfn_places::{Count, FitConfig, electrolyte_fits, largest_change, solid_fits};
use dfn_solid::{ParticleParams, SolidFault, update_solid};
use dfn_voltage::compute_voltage;
use refusal::{Refusal, refuse_unless};

#[derive(Clone, Copy)]
pub struct DfnSolver {
    pub params: DfnParams,
    pub config: DfnConfig,
    // Lithium in the particles, mol/m^3; the places from n_x * n_r on are +0.
    pub c_s_neg: [f64; 512],
    pub c_s_pos: [f64; 512],
    // Salt at the nodes of anode, separator and cathode, mol/m^3; the places after them are +0.
    pub c_e: [f64; 33],
    pub time_s: f64,
    // What the last step reported.
    pub voltage: f64,
    pub current: f64,
    pub theta_neg_surf: f64,
    pub theta_pos_surf: f64,
}

// What a step reports.
#[derive(Clone, Copy)]
pub struct DfnStep {
    pub voltage: f64,
    pub current: f64,
    pub time_s: f64,
    // Mean stoichiometries of the surfaces.
    pub theta_neg: f64,
    pub theta_pos: f64,
    // Largest change of the electrolyte's concentration, mol/m^3.
    pub delta_c_e_max: f64,
    pub newton_iter: usize,
    // Whether the voltage is outside its limits.
    pub cutoff: bool,
}

// What a step gives: the report and the new cell.
#[derive(Clone, Copy)]
pub struct DfnStepped {
    pub report: DfnStep,
    pub cell: DfnSolver,
}

// What the particles of one electrode work with.
fn particle_params(
    p: DfnParams,
    side: Side,
    n: Count<2, 32>,
    current: f64,
    dt: f64,
) -> ParticleParams
    ensures { result ≡ particle_params p side n current dt }
{
    let n = n.get();
    ParticleParams {
        n,
        dr: side.r / std::num::nearest_u64_to_f64((n - 1) as u64),
        d_ref: side.d_s_ref,
        c_max: side.c_s_max,
        flux: side.pore_flux(p.area, current),
        dt,
    }
}

// The parameters and the configuration of a cell that passed their checks.
#[derive(Clone, Copy)]
struct Fit {
    p: FitParams,
    g: FitConfig,
}

// Checks a cell of these parts. What a step only overwrites is not checked.
fn check_cell<'a>(
    p: DfnParams,
    g: DfnConfig,
    neg: &'a [f64; 512],
    pos: &'a [f64; 512],
    c_e: &'a [f64; 33],
    time_s: f64,
) -> Result<Fit, Refusal>
    ensures refused { refusal_of result ≡ parts_refusal p g neg.now pos.now c_e.now time_s }
    ensures same { IfOk result (λ f. (f.p.params ≡ p) × (f.g.config ≡ g)) }
{
    let fit_g = FitConfig::new(g)?;
    let fit_p = p.check()?;
    let fits = g.limits_fit()
        & solid_fits(neg, fit_g.used_solid(fit_g.n_x_neg()), p.c_s_neg_max)
        & solid_fits(pos, fit_g.used_solid(fit_g.n_x_pos()), p.c_s_pos_max)
        & electrolyte_fits(c_e, fit_g.used_electrolyte())
        & refusal::clock_fits(time_s);
    refuse_unless(fits, Refusal::Sheet)?;
    Ok(Fit { p: fit_p, g: fit_g })
}

// Checks a current for an interval.
fn check_load(current: f64, dt: f64) -> Result<(), Refusal>
    ensures { refusal_of result ≡ load_refusal current dt }
{
    refuse_unless(refusal::load_fits(current, 1e6), Refusal::Load)?;
    refuse_unless(refusal::interval_fits(dt), Refusal::Interval)
}

// The mean stoichiometries that the particles of anode and cathode answer, or the first refusal of the two.
#[tactic(auto, unfolding(refusal::specs::Numbers::first_refusal))]
fn both_means(
    neg: Result<f64, SolidFault>,
    pos: Result<f64, SolidFault>,
) -> Result<(f64, f64), Refusal>
    ensures refused { refusal_of result ≡ first_refusal (solid_number neg) (solid_number pos) }
    ensures same { IfOk result (λ m. (m.0 ≡ solid_mean neg) × (m.1 ≡ solid_mean pos)) }
{
    let theta_neg = neg?;
    let theta_pos = pos?;
    Ok((theta_neg, theta_pos))
}

// The report of a step, by the electrolyte before and after it, the new stoichiometries of the surfaces, the new clock and the current.
fn report_of(
    f: Fit,
    old: &[f64; 33],
    new: &[f64; 33],
    theta_neg: f64,
    theta_pos: f64,
    time_s: f64,
    current: f64,
) -> DfnStep
    ensures { result ≡ report_by f.p.params f.g.config old.now new.now theta_neg theta_pos time_s current }
{
    let g = f.g.config;
    let mid = g.n_x_neg / 2;
    let voltage = compute_voltage(f.p, theta_neg, theta_pos, new[mid], current);
    DfnStep {
        voltage,
        current,
        time_s,
        theta_neg,
        theta_pos,
        delta_c_e_max: largest_change(new, old, f.g.used_electrolyte()),
        newton_iter: 1,
        cutoff: (voltage < g.v_min) | (voltage > g.v_max),
    }
}

// Refuses a step after which the electrolyte or the report hold a NaN or an infinity; the mean stoichiometries are tested with their electrodes.
fn check_outcome(g: FitConfig, c_e: &[f64; 33], r: DfnStep) -> Result<(), Refusal>
    ensures { refusal_of result ≡ refusal_unless (rest_finite g.config c_e.now r) not_finite_of }
{
    let finite = arrays::all_finite(c_e, g.used_electrolyte())
        & refusal::is_finite(r.voltage)
        & refusal::is_finite(r.current)
        & refusal::is_finite(r.time_s)
        & refusal::is_finite(r.delta_c_e_max);
    refuse_unless(finite, Refusal::NotFinite)
}

// One step on the parts of a cell, whose arrays are lent; where it is refused they stay as they were.
// The parts stay one by one: docs/DECISIONS.md names this function.
pub fn step_in_place(
    p: DfnParams,
    g: DfnConfig,
    time_s: f64,
    neg: &mut [f64; 512],
    pos: &mut [f64; 512],
    c_e: &mut [f64; 33],
    current: f64,
    dt: f64,
) -> Result<DfnStep, Refusal>
    ensures { StepOf p g time_s neg.old pos.old c_e.old current dt (reported_by no_report result) neg.new pos.new c_e.new }
{
    let fit = check_cell(p, g, neg, pos, c_e, time_s)?;
    check_load(current, dt)?;
    let fit_g = fit.g;
    let anode = particle_params(p, p.anode(), fit_g.n_r(), -current, dt);
    let cathode = particle_params(p, p.cathode(), fit_g.n_r(), current, dt);
    let n_neg = fit_g.n_x_neg().get();
    let n_pos = fit_g.n_x_pos().get();
    let mut new_neg = [0.0; 512];
    let mut new_pos = [0.0; 512];
    let neg_moved = update_solid(anode, neg, n_neg, &mut new_neg);
    let pos_moved = update_solid(cathode, pos, n_pos, &mut new_pos);
    let theta = both_means(neg_moved, pos_moved)?;
    let new_c_e = update_electrolyte(p, n_neg, n_pos, c_e, current, dt);
    let report = report_of(fit, c_e, &new_c_e, theta.0, theta.1, time_s + dt, current);
    check_outcome(fit_g, &new_c_e, report)?;
    *neg = new_neg;
    *pos = new_pos;
    *c_e = new_c_e;
    Ok(report)
}

impl DfnSolver {
    // Whether a step is refused before it is made.
    pub fn check_step(self, current: f64, dt: f64) -> Result<(), Refusal>
        ensures { refusal_of result ≡ step_refusal self current dt }
    {
        let p = self.params;
        let g = self.config;
        check_cell(p, g, &self.c_s_neg, &self.c_s_pos, &self.c_e, self.time_s)?;
        check_load(current, dt)
    }

    // ---- calls

    // A cell with the same stoichiometry at all nodes of an electrode, at rest.
    pub fn new(params: DfnParams, config: DfnConfig) -> Result<DfnSolver, Refusal>
        ensures { build_answered no_cell result ≡ made params config }
    {
        let fit = FitConfig::new(config)?;
        params.check()?;
        refuse_unless(config.limits_fit(), Refusal::Sheet)?;
        let c_s_neg = arrays::uniform::<512>(
            params.theta_neg_0 * params.c_s_neg_max,
            fit.used_solid(fit.n_x_neg()),
        );
        let c_s_pos = arrays::uniform::<512>(
            params.theta_pos_0 * params.c_s_pos_max,
            fit.used_solid(fit.n_x_pos()),
        );
        let c_e = arrays::uniform::<33>(params.c_e0, fit.used_electrolyte());
        Ok(DfnSolver {
            params,
            config,
            c_s_neg,
            c_s_pos,
            c_e,
            time_s: 0.0,
            voltage: 3.8,
            current: 0.0,
            theta_neg_surf: params.theta_neg_0,
            theta_pos_surf: params.theta_pos_0,
        })
    }

    // One step: a current in A, above 0 for a discharge, for an interval in s.
    // WARNINGS, faults of the model that the port keeps (docs/DIFFERENCES.md): on discharge the anode fills, the cathode empties and the voltage rises; the
    // electrolyte's salt moves the wrong way; particles are clamped. Set no limit from these rows.
    pub fn step(self, current: f64, dt: f64) -> Result<DfnStepped, Refusal>
        ensures { step_answered no_report self result ≡ stepped self current dt }
    {
        let p = self.params;
        let g = self.config;
        let mut neg = self.c_s_neg;
        let mut pos = self.c_s_pos;
        let mut c_e = self.c_e;
        let report = step_in_place(p, g, self.time_s, &mut neg, &mut pos, &mut c_e, current, dt)?;
        let cell = DfnSolver {
            params: p,
            config: g,
            c_s_neg: neg,
            c_s_pos: pos,
            c_e,
            time_s: report.time_s,
            voltage: report.voltage,
            current: report.current,
            theta_neg_surf: report.theta_neg,
            theta_pos_surf: report.theta_pos,
        };
        Ok(DfnStepped { report, cell })
    }
}
