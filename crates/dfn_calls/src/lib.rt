// Steps of an electrolyte, steps and runs of a Doyle-Fuller-Newman cell on their images: each writes its answer's image or
// is refused.
#![tactic(auto)]

ghost use Rattle.std.specs.Prelude.{◌≡◌, length};
ghost use Rattle.refusal.specs.Refusals.{refusal_of};
ghost use Rattle.dfn_calls.specs.Steps.{electrolyte_return, electrolyte_after, put_stepped, dfn_return, dfn_after};
ghost use Rattle.runs.specs.Lowest.{room_of};
ghost use Rattle.dfn_calls.specs.Runs.{galvanostatic_return, galvanostatic_rows, galvanostatic_lowest, galvanostatic_after};

use dfn::DfnStep;
use dfn_images::{put_last, put_places};
use dfn_parameters::{DfnConfig, DfnParams};
use image_layout::{DFN_ANODE, DFN_CATHODE, DFN_CLOCK, DFN_ELECTROLYTE, DFN_ENDING};
use image_rows::{put_ending, read_places};
use refusal::Refusal;

// A step of an electrolyte.
#[tactic(auto, unfolding(crate::specs::Steps::electrolyte_return, crate::specs::Steps::electrolyte_after, image_rows::specs::Written::written))]
pub fn electrolyte_step(
    electrolyte: &[u8],
    j_n_neg: f64,
    j_n_pos: f64,
    dt: f64,
    temp_k: f64,
    answer: &mut [u8],
) -> Result<(), Refusal>
    ensures number { refusal_of result ≡ electrolyte_return electrolyte.now j_n_neg j_n_pos dt temp_k }
    ensures written { answer.new ≡ electrolyte_after electrolyte.now j_n_neg j_n_pos dt temp_k answer.old }
{
    let new = electrolyte_images::electrolyte_at(electrolyte).step_concentration(
        j_n_neg, j_n_pos, dt, temp_k,
    )?;
    electrolyte_images::put_electrolyte(answer, new);
    Ok(())
}

// Writes a cell by its parts after the step that r reports, and after it the report.
fn put_stepped<'a>(
    answer: &mut [u8],
    p: DfnParams,
    g: DfnConfig,
    neg: &'a [f64; 512],
    pos: &'a [f64; 512],
    c_e: &'a [f64; 33],
    r: DfnStep,
)
    ensures { answer.new ≡ put_stepped answer.old p g neg.now pos.now c_e.now r }
{
    put_places(answer, p, g, neg, pos, c_e);
    put_last(
        answer,
        r.time_s,
        r.voltage,
        r.current,
        r.theta_neg,
        r.theta_pos,
    );
    dfn_images::put_report(answer, r);
}

// A step of a Doyle-Fuller-Newman cell, on its parts: the record of the cell is not built.
pub fn dfn_step(cell: &[u8], current_a: f64, dt_s: f64, answer: &mut [u8]) -> Result<(), Refusal>
    ensures number { refusal_of result ≡ dfn_return cell.now current_a dt_s }
    ensures written { answer.new ≡ dfn_after cell.now current_a dt_s answer.old }
{
    let p = parameter_images::params_at(cell);
    let g = parameter_images::config_at(cell);
    let t = codec::read_f64(cell, DFN_CLOCK);
    let mut neg = [0.0; 512];
    read_places(cell, DFN_ANODE, &mut neg);
    let mut pos = [0.0; 512];
    read_places(cell, DFN_CATHODE, &mut pos);
    let mut c_e = [0.0; 33];
    read_places(cell, DFN_ELECTROLYTE, &mut c_e);
    let r = dfn::step_in_place(p, g, t, &mut neg, &mut pos, &mut c_e, current_a, dt_s)?;
    put_stepped(answer, p, g, &neg, &pos, &c_e, r);
    Ok(())
}

// A run of a Doyle-Fuller-Newman cell. The answer is written unless the run is refused before its first row.
// Its end is that of `cell_calls::put_run` for another record: a trait for both is no plainer.
#[tactic(auto, unfolding(crate::specs::Runs::galvanostatic_return, crate::specs::Runs::galvanostatic_rows, crate::specs::Runs::galvanostatic_lowest, crate::specs::Runs::galvanostatic_after))]
pub fn run_galvanostatic(
    cell: &[u8],
    current_a: f64,
    dt_s: f64,
    max_time_s: f64,
    rows: &mut [f64],
    lowest: &mut [f64],
    answer: &mut [u8],
) -> Result<(), Refusal>
    ensures number { refusal_of result ≡ galvanostatic_return cell.now current_a dt_s max_time_s (room_of (length rows.old) (length lowest.old)) }
    ensures rows { rows.new ≡ galvanostatic_rows cell.now current_a dt_s max_time_s rows.old lowest.old }
    ensures lowest { lowest.new ≡ galvanostatic_lowest cell.now current_a dt_s max_time_s rows.old lowest.old }
    ensures written { answer.new ≡ galvanostatic_after cell.now current_a dt_s max_time_s (room_of (length rows.old) (length lowest.old)) answer.old }
{
    let run = galvanostatic_run::run_galvanostatic(
        dfn_images::cell_at(cell),
        current_a,
        dt_s,
        max_time_s,
        rows,
        lowest,
    );
    let ending = run.ending;
    let tested = ending.check();
    let made = run.rows;
    if tested.is_ok() | (made != 0) {
        let after = run.cell;
        dfn_images::put_cell(answer, after);
        put_ending(answer, DFN_ENDING, runs::ending_number(ending), made);
    }
    tested
}
