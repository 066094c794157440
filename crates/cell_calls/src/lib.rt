// Steps and runs of a particle and of a single-particle cell on their images: each writes its answer's image or is refused.
#![tactic(auto)]

mod phases;

ghost use Rattle.std.specs.Prelude.{◌≡◌, length};
ghost use Rattle.refusal.specs.Refusals.{refusal_of};
ghost use Rattle.cell_calls.specs.Steps.{particle_return, particle_after, put_stepped, cell_return, cell_after};
ghost use Rattle.runs.specs.Lowest.{room_of};
ghost use Rattle.discharge_run.specs.Discharge.{run_outcome};
ghost use Rattle.cycle_run.specs.Cycle.{cycle_settings};
ghost use Rattle.cell_calls.specs.Runs.{run_written, discharge_return, discharge_rows, discharge_lowest, discharge_after, replay_return, replay_rows, replay_after, cycle_return, cycle_rows, cycle_after};

use cycle_run::CycleSettings;
use discharge_run::CellRun;
use image_layout::{
    CELL_ANODE, CELL_ANODE_PROFILE, CELL_CATHODE, CELL_CATHODE_PROFILE, CELL_CLOCK, CELL_ENDING,
};
use image_rows::{put_ending, read_places};
use refusal::Refusal;
use sheet_images::{put_config, put_parts};
use solver_step::{SpmParts, SpmReport};

// A step of a particle.
#[tactic(auto, unfolding(crate::specs::Steps::particle_return, crate::specs::Steps::particle_after, image_rows::specs::Written::written))]
pub fn particle_step(
    particle: &[u8],
    j_n: f64,
    dt: f64,
    temp_k: f64,
    answer: &mut [u8],
) -> Result<(), Refusal>
    ensures number { refusal_of result ≡ particle_return particle.now j_n dt temp_k }
    ensures written { answer.new ≡ particle_after particle.now j_n dt temp_k answer.old }
{
    let new = sheet_images::particle_at(particle, 0).step(j_n, dt, temp_k)?;
    sheet_images::put_particle(answer, 0, new);
    Ok(())
}

// Writes a cell by its parts and its clock, and after it the report of the step that led there.
fn put_stepped<'a>(
    answer: &mut [u8],
    q: SpmParts,
    c_neg: &'a [f64; 64],
    c_pos: &'a [f64; 64],
    time_s: f64,
    r: SpmReport,
)
    ensures { answer.new ≡ put_stepped answer.old q c_neg.now c_pos.now time_s r.state r.sub_steps }
{
    put_config(answer, q.config);
    put_parts(answer, CELL_ANODE, q.neg, q.n_neg, c_neg);
    put_parts(answer, CELL_CATHODE, q.pos, q.n_pos, c_pos);
    codec::write_f64(answer, CELL_CLOCK, time_s);
    cell_images::put_report(answer, r);
}

// A step of a single-particle cell, on its parts: the record of the cell is not built.
pub fn cell_step(
    cell: &[u8],
    current_a: f64,
    dt: f64,
    temp_k: f64,
    answer: &mut [u8],
) -> Result<(), Refusal>
    ensures number { refusal_of result ≡ cell_return cell.now current_a dt temp_k }
    ensures written { answer.new ≡ cell_after cell.now current_a dt temp_k answer.old }
{
    let q = cell_images::parts_at(cell);
    let mut c_neg = [0.0; 64];
    read_places(cell, CELL_ANODE_PROFILE, &mut c_neg);
    let mut c_pos = [0.0; 64];
    read_places(cell, CELL_CATHODE_PROFILE, &mut c_pos);
    let r = solver::step_in_place(q, &mut c_neg, &mut c_pos, current_a, dt, temp_k)?;
    put_stepped(answer, q, &c_neg, &c_pos, q.time_s + dt, r);
    Ok(())
}

// Writes the cell after a run, the ending and the count of rows, unless the run is refused before its first row, and answers with what refused it.
#[tactic(auto, unfolding(crate::specs::Runs::run_written))]
fn put_run(answer: &mut [u8], run: CellRun) -> Result<(), Refusal>
    ensures number { refusal_of result ≡ (run_outcome run).ended.refusal }
    ensures written { answer.new ≡ run_written (run_outcome run) answer.old }
{
    let ending = run.ending;
    let tested = ending.check();
    let made = run.rows;
    if tested.is_ok() | (made != 0) {
        let after = run.solver;
        cell_images::put_cell(answer, after);
        put_ending(answer, CELL_ENDING, runs::ending_number(ending), made);
    }
    tested
}

// A run of a single-particle cell. The answer is written unless the run is refused before its first row.
#[tactic(auto, unfolding(crate::specs::Runs::discharge_return, crate::specs::Runs::discharge_rows, crate::specs::Runs::discharge_lowest, crate::specs::Runs::discharge_after))]
pub fn simulate_discharge(
    cell: &[u8],
    current_a: f64,
    dt: f64,
    temp_k: f64,
    max_time_s: f64,
    rows: &mut [f64],
    lowest: &mut [f64],
    answer: &mut [u8],
) -> Result<(), Refusal>
    ensures number { refusal_of result ≡ discharge_return cell.now current_a dt temp_k max_time_s (room_of (length rows.old) (length lowest.old)) }
    ensures rows { rows.new ≡ discharge_rows cell.now current_a dt temp_k max_time_s rows.old lowest.old }
    ensures lowest { lowest.new ≡ discharge_lowest cell.now current_a dt temp_k max_time_s rows.old lowest.old }
    ensures written { answer.new ≡ discharge_after cell.now current_a dt temp_k max_time_s (room_of (length rows.old) (length lowest.old)) answer.old }
{
    let run = discharge_run::simulate_discharge(
        cell_images::cell_at(cell),
        current_a,
        dt,
        temp_k,
        max_time_s,
        rows,
        lowest,
    );
    put_run(answer, run)
}

// A recorded load replayed on a single-particle cell; its answer as in a run.
#[tactic(auto, unfolding(crate::specs::Runs::replay_return, crate::specs::Runs::replay_rows, crate::specs::Runs::replay_after))]
pub fn replay(
    cell: &[u8],
    text: &[u8],
    temp_k: f64,
    rows: &mut [f64],
    answer: &mut [u8],
) -> Result<(), Refusal>
    ensures number { refusal_of result ≡ replay_return cell.now text.now temp_k (length rows.old) }
    ensures rows { rows.new ≡ replay_rows cell.now text.now temp_k rows.old }
    ensures written { answer.new ≡ replay_after cell.now text.now temp_k (length rows.old) answer.old }
{
    let run = replay_run::replay(cell_images::cell_at(cell), text, temp_k, rows);
    put_run(answer, run)
}

// A cycle of phases on a single-particle cell; its answer as in a run. A kind of phase that is not listed is 2, after 1 and the rows' 10.
#[tactic(auto, unfolding(crate::specs::Runs::cycled_from, crate::specs::Runs::cycle_return, crate::specs::Runs::cycle_rows, crate::specs::Runs::cycle_after, crate::specs::Runs::run_written))]
pub fn cycle(
    cell: &[u8],
    phases: &[u8],
    count: usize,
    repeats: usize,
    budget: usize,
    dt: f64,
    temp_k: f64,
    rows: &mut [f64],
    answer: &mut [u8],
) -> Result<(), Refusal>
    ensures number { refusal_of result ≡ cycle_return cell.now phases.now (cycle_settings count repeats budget dt temp_k) (length rows.old) }
    ensures rows { rows.new ≡ cycle_rows cell.now phases.now (cycle_settings count repeats budget dt temp_k) rows.old }
    ensures written { answer.new ≡ cycle_after cell.now phases.now (cycle_settings count repeats budget dt temp_k) (length rows.old) answer.old }
{
    let s = cell_images::cell_at(cell);
    if phases::kinds_fit(phases, count) {
        let list = phases::phases_at(phases);
        let run = cycle_run::cycle(s, list, count, repeats, budget, dt, temp_k, rows);
        return put_run(answer, run);
    }
    let g = CycleSettings {
        count,
        repeats,
        budget,
        dt,
        temp_k,
    };
    cycle_run::check_counts(g, s, rows.len()).and(Err(Refusal::Sheet))
}
