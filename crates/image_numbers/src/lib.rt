// The calls that give a number from an image, by the number that C calls them with (`calls`).
#![tactic(auto)]

pub mod calls;

ghost use Rattle.std.specs.Prelude.{◌≡◌};
ghost use Rattle.refusal.specs.Answers.{outcome_of};
ghost use Rattle.image_numbers.specs.Calls.{sheet_call, particle_call, cell_call, rate_call, electrolyte_call, call_number};
ghost use Rattle.image_numbers.specs.Numbers.{sheet_number, particle_number, cell_number, rate_number, nodes_outcome, electrolyte_number, number_outcome, number_length};

use calls::{CellCall, ElectrolyteCall, NumberCall, ParticleCall, RateCall, SheetCall};
use cell_images::cell_at;
use electrode::ElectrodeParams;
use electrolyte::ElectrolyteState;
use electrolyte_images::{electrolyte_at, electrolyte_params_at};
use electrolyte_parameters::ElectrolyteParams;
use image_layout::{
    CELL_BYTES, ELECTROLYTE_BYTES, ELECTROLYTE_PARAMS_BYTES, PARTICLE_BYTES, SHEET_BYTES,
};
use particle::ParticleDiffusion;
use refusal::Refusal;
use sheet_images::{particle_at, sheet_at};
use solver::SpmSolver;

#[tactic(auto, unfolding(crate::specs::Numbers::sheet_number))]
fn sheet_number(call: SheetCall, p: ElectrodeParams, x: f64) -> Result<f64, Refusal>
    ensures { outcome_of result ≡ sheet_number (sheet_call call) p x }
{
    match call {
        SheetCall::DS => p.d_s(x),
        SheetCall::SpecificArea => p.specific_area(),
        SheetCall::Ocp => p.ocp(x),
        SheetCall::DocpDtheta => p.docp_dtheta(x),
    }
}

#[tactic(auto, unfolding(crate::specs::Numbers::particle_number))]
fn particle_number(call: ParticleCall, p: ParticleDiffusion, x: f64) -> Result<f64, Refusal>
    ensures { outcome_of result ≡ particle_number (particle_call call) p x }
{
    match call {
        ParticleCall::DtStable => p.dt_stable(x),
        ParticleCall::ThetaSurface => p.theta_surface(),
        ParticleCall::ThetaAvg => p.theta_avg(),
        ParticleCall::CAvg => p.c_avg(),
        ParticleCall::OcpSurface => p.ocp_surface(),
    }
}

#[tactic(auto, unfolding(crate::specs::Numbers::cell_number))]
fn cell_number(call: CellCall, s: SpmSolver) -> Result<f64, Refusal>
    ensures { outcome_of result ≡ cell_number (cell_call call) s }
{
    match call {
        CellCall::Ocv => s.ocv(),
        CellCall::SocEstimate => s.soc_estimate(),
    }
}

#[tactic(auto, unfolding(crate::specs::Numbers::rate_number))]
fn rate_number(
    call: RateCall,
    p: ElectrolyteParams,
    porosity: f64,
    temp_k: f64,
) -> Result<f64, Refusal>
    ensures { outcome_of result ≡ rate_number (rate_call call) p porosity temp_k }
{
    match call {
        RateCall::DE => p.d_e(temp_k),
        RateCall::Kappa => p.kappa(temp_k),
        RateCall::DEEff => p.d_e_eff(porosity, temp_k),
        RateCall::KappaEff => p.kappa_eff(porosity, temp_k),
    }
}

// The count of nodes as a binary64.
#[tactic(auto, unfolding(crate::specs::Numbers::nodes_outcome))]
fn nodes_number(e: ElectrolyteState) -> Result<f64, Refusal>
    ensures { outcome_of result ≡ nodes_outcome e }
{
    let n = e.n_total()?;
    Ok(std::num::nearest_u64_to_f64(n as u64))
}

#[tactic(auto, unfolding(crate::specs::Numbers::electrolyte_number))]
fn electrolyte_number(call: ElectrolyteCall, e: ElectrolyteState, x: f64) -> Result<f64, Refusal>
    ensures { outcome_of result ≡ electrolyte_number (electrolyte_call call) e x }
{
    match call {
        ElectrolyteCall::NTotal => nodes_number(e),
        ElectrolyteCall::CAvg => e.c_avg(),
        ElectrolyteCall::DtStable => e.dt_stable(x),
    }
}

impl NumberCall {
    // What the call answers to an image and its arguments.
    #[tactic(auto, unfolding(crate::specs::Numbers::number_outcome, crate::specs::Numbers::sheet_number))]
    pub fn answer(self, image: &[u8], x: f64, y: f64) -> Result<f64, Refusal>
        ensures { outcome_of result ≡ number_outcome (call_number self) image.now x y }
    {
        match self {
            NumberCall::OfSheet(of) => sheet_number(of, sheet_at(image, 0), x),
            NumberCall::SphereVolume => electrode::sphere_volume(x),
            NumberCall::OfParticle(of) => particle_number(of, particle_at(image, 0), x),
            NumberCall::OfCell(of) => cell_number(of, cell_at(image)),
            NumberCall::OfRates(of) => rate_number(of, electrolyte_params_at(image), x, y),
            NumberCall::OfElectrolyte(of) => electrolyte_number(of, electrolyte_at(image), x),
        }
    }

    // The length in bytes of the image that the number is worked out from.
    #[tactic(auto, unfolding(crate::specs::Numbers::number_length))]
    pub fn image_length(self) -> usize
        ensures { result ≡ number_length (call_number self) }
    {
        match self {
            NumberCall::OfSheet(_) => SHEET_BYTES,
            NumberCall::SphereVolume => 0,
            NumberCall::OfParticle(_) => PARTICLE_BYTES,
            NumberCall::OfCell(_) => CELL_BYTES,
            NumberCall::OfRates(_) => ELECTROLYTE_PARAMS_BYTES,
            NumberCall::OfElectrolyte(_) => ELECTROLYTE_BYTES,
        }
    }
}

// What the call of number `call` answers to an image and its arguments: 0 is taken for 5, and what is above 19 for 19.
#[tactic(auto, unfolding(crate::specs::Numbers::number_outcome, crate::specs::Numbers::sheet_number, crate::specs::Numbers::electrolyte_number))]
pub fn number_of(call: u64, image: &[u8], x: f64, y: f64) -> Result<f64, Refusal>
    ensures { outcome_of result ≡ number_outcome call image.now x y }
{
    match NumberCall::try_from(call) {
        Ok(of) => of.answer(image, x, y),
        Err(_) if call == 0 => electrode::sphere_volume(x),
        Err(_) => electrolyte_at(image).dt_stable(x),
    }
}

// The length in bytes of the image that a number is worked out from: 0 is taken for 1, and what is above 19 for 19.
#[tactic(auto, unfolding(crate::specs::Numbers::number_length))]
pub fn number_length(call: u64) -> usize
    ensures { result ≡ number_length call }
{
    match NumberCall::try_from(call) {
        Ok(of) => of.image_length(),
        Err(_) if call == 0 => SHEET_BYTES,
        Err(_) => ELECTROLYTE_BYTES,
    }
}
