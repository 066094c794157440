// The stepper for C: each call takes images and numbers, writes its answer's image and returns 0 or the number of a refusal. The layouts stand in
// harness/c/persimmonjib.h. The crate boundary_c exports each call under the same name.
// Calls, runs, counts and refusals are numbers here, one by one in C's order: it is C's interface.
#![tactic(auto)]

ghost use Rattle.std.specs.Prelude.{◌≡◌, length};
ghost use Rattle.codec.specs.Words.{put_row};
ghost use Rattle.runs.specs.Lowest.{room_of};
ghost use Rattle.cycle_run.specs.Cycle.{cycle_settings};
ghost use Rattle.boundary.specs.Calls.{lengths, number_call, build_return, build_after, particle_return, particle_after, cell_return, cell_after, electrolyte_return, electrolyte_after, dfn_return, dfn_after, dense_return, dense_after};
ghost use Rattle.boundary.specs.Search.{search_return, search_after};
ghost use Rattle.boundary.specs.Runs.{discharge_return, discharge_rows, discharge_lowest, discharge_after, replay_return, replay_rows, replay_after, cycle_lengths, cycle_return, cycle_rows, cycle_after, galvanostatic_return, galvanostatic_rows, galvanostatic_lowest, galvanostatic_after};

use image_builds::calls::BuildCall;
use image_layout::{
    CELL_BYTES, CELL_RUN_BYTES, CELL_STEP_BYTES, DFN_BYTES, DFN_RUN_BYTES, DFN_STEP_BYTES,
    ELECTROLYTE_BYTES, FOUND_BYTES, FOUND_HOW, FOUND_ROW, NUMBER_BYTES, PARTICLE_BYTES,
    PHASES_BYTES, SOLUTION_BYTES,
};
use image_numbers::calls::NumberCall;
use refusal::{Refusal, number_or_0};

// Whether the image and the answer have the lengths m and n.
fn lengths_fit(image: usize, m: usize, answer: usize, n: usize) -> bool
    ensures { result ≡ lengths image m answer n }
{
    (image == m) & (answer == n)
}

// A number from an image: numbers 1 to 19.
#[tactic(auto, unfolding(crate::specs::Calls::number_call, codec::specs::Words::put_places))]
pub fn pj_number(call: u64, image: &[u8], x: f64, y: f64, answer: &mut [u8]) -> u64
    ensures number { result ≡ (number_call call image.now x y (length answer.old)).refusal }
    ensures written { answer.new ≡ put_row answer.old 0 (number_call call image.now x y (length answer.old)).values }
{
    let call = match NumberCall::try_from(call) {
        Ok(call) => call,
        Err(e) => return e.number(),
    };
    if !lengths_fit(image.len(), call.image_length(), answer.len(), NUMBER_BYTES) {
        return Refusal::Length.number();
    }
    match call.answer(image, x, y) {
        Ok(v) => {
            codec::write_f64(answer, 0, v);
            0
        }
        Err(e) => e.number(),
    }
}

// A ready or a new record: numbers 1 to 12.
#[tactic(auto, unfolding(crate::specs::Calls::build_return, crate::specs::Calls::build_after, crate::specs::Calls::after_lengths))]
pub fn pj_build(call: u64, image: &[u8], answer: &mut [u8]) -> u64
    ensures number { result ≡ build_return call image.now (length answer.old) }
    ensures written { answer.new ≡ build_after call image.now answer.old }
{
    let call = match BuildCall::try_from(call) {
        Ok(call) => call,
        Err(e) => return e.number(),
    };
    if !lengths_fit(
        image.len(),
        call.image_length(),
        answer.len(),
        call.built_length(),
    ) {
        return Refusal::Length.number();
    }
    match call {
        BuildCall::OfReady(of) => {
            of.put(answer);
            0
        }
        BuildCall::OfNew(of) => number_or_0(of.put(image, answer)),
    }
}

// A step of a particle.
#[tactic(auto, unfolding(crate::specs::Calls::particle_return, crate::specs::Calls::particle_after, crate::specs::Calls::after_lengths))]
pub fn pj_particle_step(particle: &[u8], j_n: f64, dt: f64, temp_k: f64, answer: &mut [u8]) -> u64
    ensures number { result ≡ particle_return particle.now j_n dt temp_k (length answer.old) }
    ensures written { answer.new ≡ particle_after particle.now j_n dt temp_k answer.old }
{
    if !lengths_fit(particle.len(), PARTICLE_BYTES, answer.len(), PARTICLE_BYTES) {
        return Refusal::Length.number();
    }
    number_or_0(cell_calls::particle_step(particle, j_n, dt, temp_k, answer))
}

// A step of a single-particle cell.
#[tactic(auto, unfolding(crate::specs::Calls::cell_return, crate::specs::Calls::cell_after, crate::specs::Calls::after_lengths))]
pub fn pj_cell_step(cell: &[u8], current_a: f64, dt: f64, temp_k: f64, answer: &mut [u8]) -> u64
    ensures number { result ≡ cell_return cell.now current_a dt temp_k (length answer.old) }
    ensures written { answer.new ≡ cell_after cell.now current_a dt temp_k answer.old }
{
    if !lengths_fit(cell.len(), CELL_BYTES, answer.len(), CELL_STEP_BYTES) {
        return Refusal::Length.number();
    }
    number_or_0(cell_calls::cell_step(cell, current_a, dt, temp_k, answer))
}

// A step of an electrolyte.
#[tactic(auto, unfolding(crate::specs::Calls::electrolyte_return, crate::specs::Calls::electrolyte_after, crate::specs::Calls::after_lengths))]
pub fn pj_electrolyte_step(
    electrolyte: &[u8],
    j_n_neg: f64,
    j_n_pos: f64,
    dt: f64,
    temp_k: f64,
    answer: &mut [u8],
) -> u64
    ensures number { result ≡ electrolyte_return electrolyte.now j_n_neg j_n_pos dt temp_k (length answer.old) }
    ensures written { answer.new ≡ electrolyte_after electrolyte.now j_n_neg j_n_pos dt temp_k answer.old }
{
    if !lengths_fit(
        electrolyte.len(),
        ELECTROLYTE_BYTES,
        answer.len(),
        ELECTROLYTE_BYTES,
    ) {
        return Refusal::Length.number();
    }
    number_or_0(dfn_calls::electrolyte_step(electrolyte, j_n_neg, j_n_pos, dt, temp_k, answer))
}

// A step of a Doyle-Fuller-Newman cell.
#[tactic(auto, unfolding(crate::specs::Calls::dfn_return, crate::specs::Calls::dfn_after, crate::specs::Calls::after_lengths))]
pub fn pj_dfn_step(cell: &[u8], current_a: f64, dt_s: f64, answer: &mut [u8]) -> u64
    ensures number { result ≡ dfn_return cell.now current_a dt_s (length answer.old) }
    ensures written { answer.new ≡ dfn_after cell.now current_a dt_s answer.old }
{
    if !lengths_fit(cell.len(), DFN_BYTES, answer.len(), DFN_STEP_BYTES) {
        return Refusal::Length.number();
    }
    number_or_0(dfn_calls::dfn_step(cell, current_a, dt_s, answer))
}

// A run of a single-particle cell. The answer is written unless the run is refused before its first row.
#[tactic(auto, unfolding(crate::specs::Runs::discharge_return, crate::specs::Runs::discharge_rows, crate::specs::Runs::discharge_lowest, crate::specs::Runs::discharge_after, crate::specs::Calls::after_lengths))]
pub fn pj_simulate_discharge(
    cell: &[u8],
    current_a: f64,
    dt: f64,
    temp_k: f64,
    max_time_s: f64,
    rows: &mut [f64],
    lowest: &mut [f64],
    answer: &mut [u8],
) -> u64
    ensures number { result ≡ discharge_return cell.now current_a dt temp_k max_time_s (room_of (length rows.old) (length lowest.old)) (length answer.old) }
    ensures rows { rows.new ≡ discharge_rows cell.now current_a dt temp_k max_time_s rows.old lowest.old (length answer.old) }
    ensures lowest { lowest.new ≡ discharge_lowest cell.now current_a dt temp_k max_time_s rows.old lowest.old (length answer.old) }
    ensures written { answer.new ≡ discharge_after cell.now current_a dt temp_k max_time_s (room_of (length rows.old) (length lowest.old)) answer.old }
{
    if !lengths_fit(cell.len(), CELL_BYTES, answer.len(), CELL_RUN_BYTES) {
        return Refusal::Length.number();
    }
    number_or_0(cell_calls::simulate_discharge(
        cell, current_a, dt, temp_k, max_time_s, rows, lowest, answer,
    ))
}

// A recorded load replayed on a single-particle cell; its answer as in a run. A text that is too long is 12, whatever the lengths.
#[tactic(auto, unfolding(crate::specs::Runs::replay_return, crate::specs::Runs::replay_rows, crate::specs::Runs::replay_after, crate::specs::Calls::after_lengths))]
pub fn pj_replay(cell: &[u8], text: &[u8], temp_k: f64, rows: &mut [f64], answer: &mut [u8]) -> u64
    ensures number { result ≡ replay_return cell.now text.now temp_k (length rows.old) (length answer.old) }
    ensures rows { rows.new ≡ replay_rows cell.now text.now temp_k rows.old (length answer.old) }
    ensures written { answer.new ≡ replay_after cell.now text.now temp_k (length rows.old) answer.old }
{
    if !replay_run::text_fits(text) {
        return Refusal::File.number();
    }
    if !lengths_fit(cell.len(), CELL_BYTES, answer.len(), CELL_RUN_BYTES) {
        return Refusal::Length.number();
    }
    number_or_0(cell_calls::replay(cell, text, temp_k, rows, answer))
}

// Whether the cell, the phases and the answer of a cycle have their lengths.
fn cycle_lengths_fit(cell: usize, phases: usize, answer: usize) -> bool
    ensures { result ≡ cycle_lengths cell phases answer }
{
    (cell == CELL_BYTES) & (phases == PHASES_BYTES) & (answer == CELL_RUN_BYTES)
}

// A cycle of phases on a single-particle cell; its answer as in a run.
#[tactic(auto, unfolding(crate::specs::Runs::cycle_return, crate::specs::Runs::cycle_rows, crate::specs::Runs::cycle_after, crate::specs::Calls::after_lengths))]
pub fn pj_cycle(
    cell: &[u8],
    phases: &[u8],
    count: usize,
    repeats: usize,
    budget: usize,
    dt: f64,
    temp_k: f64,
    rows: &mut [f64],
    answer: &mut [u8],
) -> u64
    ensures number { result ≡ cycle_return cell.now phases.now (cycle_settings count repeats budget dt temp_k) (length rows.old) (length answer.old) }
    ensures rows { rows.new ≡ cycle_rows cell.now phases.now (cycle_settings count repeats budget dt temp_k) rows.old (length answer.old) }
    ensures written { answer.new ≡ cycle_after cell.now phases.now (cycle_settings count repeats budget dt temp_k) (length rows.old) answer.old }
{
    if !cycle_lengths_fit(cell.len(), phases.len(), answer.len()) {
        return Refusal::Length.number();
    }
    number_or_0(cell_calls::cycle(
        cell, phases, count, repeats, budget, dt, temp_k, rows, answer,
    ))
}

// A run of a Doyle-Fuller-Newman cell; its answer as in a run of a single-particle cell.
#[tactic(auto, unfolding(crate::specs::Runs::galvanostatic_return, crate::specs::Runs::galvanostatic_rows, crate::specs::Runs::galvanostatic_lowest, crate::specs::Runs::galvanostatic_after, crate::specs::Calls::after_lengths))]
pub fn pj_run_galvanostatic(
    cell: &[u8],
    current_a: f64,
    dt_s: f64,
    max_time_s: f64,
    rows: &mut [f64],
    lowest: &mut [f64],
    answer: &mut [u8],
) -> u64
    ensures number { result ≡ galvanostatic_return cell.now current_a dt_s max_time_s (room_of (length rows.old) (length lowest.old)) (length answer.old) }
    ensures rows { rows.new ≡ galvanostatic_rows cell.now current_a dt_s max_time_s rows.old lowest.old (length answer.old) }
    ensures lowest { lowest.new ≡ galvanostatic_lowest cell.now current_a dt_s max_time_s rows.old lowest.old (length answer.old) }
    ensures written { answer.new ≡ galvanostatic_after cell.now current_a dt_s max_time_s (room_of (length rows.old) (length lowest.old)) answer.old }
{
    if !lengths_fit(cell.len(), DFN_BYTES, answer.len(), DFN_RUN_BYTES) {
        return Refusal::Length.number();
    }
    number_or_0(dfn_calls::run_galvanostatic(
        cell, current_a, dt_s, max_time_s, rows, lowest, answer,
    ))
}

// The first of `count` rows under a voltage, found by the lowest of each group; its answer is 1 and the row, or 2 and 0 for none.
#[tactic(auto, unfolding(crate::specs::Search::search_return, crate::specs::Search::search_after, crate::specs::Search::found_return, crate::specs::Search::found_after, crate::specs::Calls::after_lengths))]
pub fn pj_first_below(
    which: u64,
    rows: &[f64],
    lowest: &[f64],
    count: usize,
    voltage: f64,
    answer: &mut [u8],
) -> u64
    ensures number { result ≡ search_return which rows.now lowest.now count voltage (length answer.old) }
    ensures written { answer.new ≡ search_after which rows.now lowest.now count voltage answer.old }
{
    if answer.len() != FOUND_BYTES {
        return Refusal::Length.number();
    }
    match row_search::first_below(which, rows, lowest, count, voltage) {
        Ok(Some(j)) => {
            codec::write_word(answer, FOUND_HOW, 1);
            codec::write_word(answer, FOUND_ROW, j as u64);
            0
        }
        Ok(None) => {
            codec::write_word(answer, FOUND_HOW, 2);
            codec::write_word(answer, FOUND_ROW, 0);
            0
        }
        Err(e) => e.number(),
    }
}

// The solution of n equations.
#[tactic(auto, unfolding(crate::specs::Calls::dense_return, crate::specs::Calls::dense_after, crate::specs::Calls::after_lengths, image_rows::specs::Written::written))]
pub fn pj_solve_dense(a: &[f64], b: &[f64], n: usize, answer: &mut [u8]) -> u64
    ensures number { result ≡ dense_return a.now b.now n (length answer.old) }
    ensures written { answer.new ≡ dense_after a.now b.now n answer.old }
{
    if answer.len() != SOLUTION_BYTES {
        return Refusal::Length.number();
    }
    match dense::solve_dense(a, b, n) {
        Ok(x) => {
            image_rows::write_places(answer, 0, &x);
            0
        }
        Err(e) => e.number(),
    }
}
