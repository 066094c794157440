// The calls that give a record, ready or new from an image, by the number that C calls them with (`calls`).
#![tactic(auto)]

pub mod calls;

ghost use Rattle.std.specs.Prelude.{◌≡◌};
ghost use Rattle.refusal.specs.Refusals.{refusal_of};
ghost use Rattle.cell_images.specs.Images.{put_cell};
ghost use Rattle.sheet_images.specs.Images.{put_particle};
ghost use Rattle.electrolyte_images.specs.Images.{put_electrolyte};
ghost use Rattle.dfn_images.specs.Images as P;
ghost use Rattle.image_rows.specs.Written.{written};
ghost use Rattle.image_builds.specs.Calls.{ready_call, cell_call, new_call, call_number};
ghost use Rattle.solver.specs.Answers as S;
ghost use Rattle.solver.specs.Cell.{no_solver};
ghost use Rattle.electrolyte.specs.Answers.{electrolyte_answered};
ghost use Rattle.electrolyte.specs.State.{no_state};
ghost use Rattle.image_builds.specs.Builds.{ready_put, particle_made, cell_built, electrolyte_built, dfn_made, new_return, new_after, build_length, built_length};

use calls::{BuildCall, New, NewCell, Ready};
use cell_images::put_cell;
use codec::read_word;
use dfn::DfnSolver;
use dfn_parameters::DfnParams;
use electrode::ElectrodeParams;
use electrolyte::ElectrolyteState;
use electrolyte_images::{electrolyte_at, put_electrolyte, put_electrolyte_params};
use electrolyte_parameters::ElectrolyteParams;
use image_layout::{
    CELL_BYTES, CONFIG_BYTES, DFN_BYTES, DFN_PARAMS_BYTES, ELECTROLYTE_BYTES,
    ELECTROLYTE_PARAMS_BYTES, NEW_CELL_ANODE, NEW_CELL_BYTES, NEW_CELL_CATHODE, NEW_DFN_BYTES,
    NEW_PARTICLE_BYTES, PARTICLE_BYTES, PARTICLE_NODES, REGIONS_BYTES, SHEET_BYTES,
};
use parameter_images::{params_at, put_params};
use particle::ParticleDiffusion;
use refusal::Refusal;
use sheet_images::{config_at, put_particle, put_sheet, sheet_at};
use solver::SpmSolver;

impl Ready {
    // Writes the record.
    #[tactic(auto, unfolding(crate::specs::Builds::ready_put, crate::specs::Builds::ready_sheet, crate::specs::Builds::ready_params))]
    pub fn put(self, answer: &mut [u8])
        ensures { answer.new ≡ ready_put (ready_call self) answer.old }
    {
        match self {
            Ready::GraphiteAnode => put_sheet(answer, 0, ElectrodeParams::graphite_anode()),
            Ready::LfpCathode => put_sheet(answer, 0, ElectrodeParams::lfp_cathode()),
            Ready::NmcCathode => put_sheet(answer, 0, ElectrodeParams::nmc_cathode()),
            Ready::Lipf6EcDmc => put_electrolyte_params(answer, ElectrolyteParams::lipf6_ec_dmc()),
            Ready::NmcGraphite => put_params(answer, DfnParams::nmc_graphite()),
            Ready::LfpGraphite => put_params(answer, DfnParams::lfp_graphite()),
        }
    }
}

// Writes the ready record of number `call`: 0 is taken for 3, and what is above 6 for 6.
#[tactic(auto, unfolding(crate::specs::Builds::ready_put, crate::specs::Builds::ready_sheet, crate::specs::Builds::ready_params))]
pub fn put_ready(call: u64, answer: &mut [u8])
    ensures { answer.new ≡ ready_put call answer.old }
{
    match BuildCall::try_from(call) {
        Ok(BuildCall::OfReady(of)) => of.put(answer),
        _ if call == 0 => put_sheet(answer, 0, ElectrodeParams::nmc_cathode()),
        _ => put_params(answer, DfnParams::lfp_graphite()),
    }
}

#[tactic(auto, unfolding(crate::specs::Builds::cell_built))]
fn built_cell(call: NewCell, image: &[u8]) -> Result<SpmSolver, Refusal>
    ensures { S.build_answered no_solver result ≡ cell_built (cell_call call) image.now }
{
    let config = config_at(image);
    match call {
        NewCell::GraphiteLfp => SpmSolver::graphite_lfp(config),
        NewCell::GraphiteNmc => SpmSolver::graphite_nmc(config),
        NewCell::FromSheets => SpmSolver::new(
            config,
            sheet_at(image, NEW_CELL_ANODE),
            sheet_at(image, NEW_CELL_CATHODE),
        ),
    }
}

fn built_electrolyte(image: &[u8]) -> Result<ElectrolyteState, Refusal>
    ensures { electrolyte_answered no_state result ≡ electrolyte_built image.now }
{
    let e = electrolyte_at(image);
    let params = e.params;
    ElectrolyteState::new(
        params, e.l_neg, e.l_sep, e.l_pos, e.eps_neg, e.eps_sep, e.eps_pos, e.n_neg, e.n_sep,
        e.n_pos,
    )
}

#[tactic(auto, unfolding(crate::specs::Builds::particle_made, image_rows::specs::Written::written))]
fn new_particle(image: &[u8], answer: &mut [u8]) -> Result<(), Refusal>
    ensures number { refusal_of result ≡ (particle_made image.now).refusal }
    ensures written { answer.new ≡ written (particle_made image.now).refusal (put_particle answer.old 0 (particle_made image.now).particle) answer.old }
{
    let made = ParticleDiffusion::new(
        sheet_at(image, 0),
        read_word(image, PARTICLE_NODES) as usize,
    )?;
    put_particle(answer, 0, made);
    Ok(())
}

#[tactic(auto, unfolding(image_rows::specs::Written::written))]
fn new_cell(call: NewCell, image: &[u8], answer: &mut [u8]) -> Result<(), Refusal>
    ensures number { refusal_of result ≡ (cell_built (cell_call call) image.now).refusal }
    ensures written { answer.new ≡ written (cell_built (cell_call call) image.now).refusal (put_cell answer.old (cell_built (cell_call call) image.now).solver) answer.old }
{
    let made = built_cell(call, image)?;
    put_cell(answer, made);
    Ok(())
}

#[tactic(auto, unfolding(image_rows::specs::Written::written))]
fn new_electrolyte(image: &[u8], answer: &mut [u8]) -> Result<(), Refusal>
    ensures number { refusal_of result ≡ (electrolyte_built image.now).refusal }
    ensures written { answer.new ≡ written (electrolyte_built image.now).refusal (put_electrolyte answer.old (electrolyte_built image.now).state) answer.old }
{
    let made = built_electrolyte(image)?;
    put_electrolyte(answer, made);
    Ok(())
}

#[tactic(auto, unfolding(crate::specs::Builds::dfn_made, image_rows::specs::Written::written))]
fn new_dfn(image: &[u8], answer: &mut [u8]) -> Result<(), Refusal>
    ensures number { refusal_of result ≡ (dfn_made image.now).refusal }
    ensures written { answer.new ≡ written (dfn_made image.now).refusal (P.put_cell answer.old (dfn_made image.now).cell) answer.old }
{
    // Matched, since `?` moves the cell once more, beyond the stack of a build from C.
    match DfnSolver::new(params_at(image), parameter_images::config_at(image)) {
        Ok(made) => {
            dfn_images::put_cell(answer, made);
            Ok(())
        }
        Err(e) => Err(e),
    }
}

impl New {
    // A new particle, cell, electrolyte or Doyle-Fuller-Newman cell from its image, written to the answer; refused, nothing is written.
    #[tactic(auto, unfolding(crate::specs::Builds::new_return, crate::specs::Builds::new_after))]
    pub fn put(self, image: &[u8], answer: &mut [u8]) -> Result<(), Refusal>
        ensures number { refusal_of result ≡ new_return (new_call self) image.now }
        ensures written { answer.new ≡ new_after (new_call self) image.now answer.old }
    {
        match self {
            New::Particle => new_particle(image, answer),
            New::Cell(of) => new_cell(of, image, answer),
            New::Electrolyte => new_electrolyte(image, answer),
            New::Dfn => new_dfn(image, answer),
        }
    }
}

// A new record of number `call` from its image, written to the answer: 0 to 6 are taken for 10, and what is above 12 for 12.
#[tactic(auto, unfolding(crate::specs::Builds::new_return, crate::specs::Builds::new_after, crate::specs::Builds::cell_built))]
pub fn put_new(call: u64, image: &[u8], answer: &mut [u8]) -> Result<(), Refusal>
    ensures number { refusal_of result ≡ new_return call image.now }
    ensures written { answer.new ≡ new_after call image.now answer.old }
{
    match BuildCall::try_from(call) {
        Ok(BuildCall::OfNew(of)) => of.put(image, answer),
        _ if call <= 6 => new_cell(NewCell::FromSheets, image, answer),
        _ => new_dfn(image, answer),
    }
}

impl BuildCall {
    // The length in bytes of the image that the record is built from.
    #[tactic(auto, unfolding(crate::specs::Builds::build_length))]
    pub fn image_length(self) -> usize
        ensures { result ≡ build_length (call_number self) }
    {
        match self {
            BuildCall::OfReady(_) => 0,
            BuildCall::OfNew(New::Particle) => NEW_PARTICLE_BYTES,
            BuildCall::OfNew(New::Cell(NewCell::GraphiteLfp | NewCell::GraphiteNmc)) => {
                CONFIG_BYTES
            }
            BuildCall::OfNew(New::Cell(NewCell::FromSheets)) => NEW_CELL_BYTES,
            BuildCall::OfNew(New::Electrolyte) => REGIONS_BYTES,
            BuildCall::OfNew(New::Dfn) => NEW_DFN_BYTES,
        }
    }

    // The length in bytes of the record that is built.
    #[tactic(auto, unfolding(crate::specs::Builds::built_length))]
    pub fn built_length(self) -> usize
        ensures { result ≡ built_length (call_number self) }
    {
        match self {
            BuildCall::OfReady(Ready::GraphiteAnode | Ready::LfpCathode | Ready::NmcCathode) => {
                SHEET_BYTES
            }
            BuildCall::OfReady(Ready::Lipf6EcDmc) => ELECTROLYTE_PARAMS_BYTES,
            BuildCall::OfReady(Ready::NmcGraphite | Ready::LfpGraphite) => DFN_PARAMS_BYTES,
            BuildCall::OfNew(New::Particle) => PARTICLE_BYTES,
            BuildCall::OfNew(New::Cell(_)) => CELL_BYTES,
            BuildCall::OfNew(New::Electrolyte) => ELECTROLYTE_BYTES,
            BuildCall::OfNew(New::Dfn) => DFN_BYTES,
        }
    }
}

// The length in bytes of the image that a record is built from, by the number of its call: 0 is taken for 1, and what is above 12 for 12.
#[tactic(auto, unfolding(crate::specs::Builds::build_length))]
pub fn build_length(call: u64) -> usize
    ensures { result ≡ build_length call }
{
    match BuildCall::try_from(call) {
        Ok(of) => of.image_length(),
        Err(_) if call == 0 => 0,
        Err(_) => NEW_DFN_BYTES,
    }
}

// The length in bytes of the record that is built, by the number of its call: 0 is taken for 1, and what is above 12 for 12.
#[tactic(auto, unfolding(crate::specs::Builds::built_length))]
pub fn built_length(call: u64) -> usize
    ensures { result ≡ built_length call }
{
    match BuildCall::try_from(call) {
        Ok(of) => of.built_length(),
        Err(_) if call == 0 => SHEET_BYTES,
        Err(_) => DFN_BYTES,
    }
}
