// What C links: each call of the library boundary under its own name, with the same contract. The archive libboundary.a is made of this crate; harness/c/persimmonjib.h
// declares its functions.
// Numbers, and lengths beside slices, are C's interface.
#![tactic(auto)]

ghost use Rattle.std.specs.Prelude.{◌≡◌, length};
ghost use Rattle.codec.specs.Words.{put_row};
ghost use Rattle.runs.specs.Lowest.{room_of};
ghost use Rattle.cycle_run.specs.Cycle.{cycle_settings};
ghost use Rattle.boundary.specs.Calls.{number_call, build_return, build_after, particle_return, particle_after, cell_return, cell_after, electrolyte_return, electrolyte_after, dfn_return, dfn_after, dense_return, dense_after};
ghost use Rattle.boundary.specs.Search.{search_return, search_after};
ghost use Rattle.boundary.specs.Runs.{discharge_return, discharge_rows, discharge_lowest, discharge_after, replay_return, replay_rows, replay_after, cycle_return, cycle_rows, cycle_after, galvanostatic_return, galvanostatic_rows, galvanostatic_lowest, galvanostatic_after};

// A number from an image: numbers 1 to 19.
#[unsafe(no_mangle)]
pub extern "C" fn pj_number(call: u64, image: &[u8], x: f64, y: f64, answer: &mut [u8]) -> u64
    ensures number { result ≡ (number_call call image.now x y (length answer.old)).refusal }
    ensures written { answer.new ≡ put_row answer.old 0 (number_call call image.now x y (length answer.old)).values }
{
    boundary::pj_number(call, image, x, y, answer)
}

// A ready or a new record: numbers 1 to 12.
#[unsafe(no_mangle)]
pub extern "C" fn pj_build(call: u64, image: &[u8], answer: &mut [u8]) -> u64
    ensures number { result ≡ build_return call image.now (length answer.old) }
    ensures written { answer.new ≡ build_after call image.now answer.old }
{
    boundary::pj_build(call, image, answer)
}

// A step of a particle.
#[unsafe(no_mangle)]
pub extern "C" fn pj_particle_step(
    particle: &[u8],
    j_n: f64,
    dt: f64,
    temp_k: f64,
    answer: &mut [u8],
) -> u64
    ensures number { result ≡ particle_return particle.now j_n dt temp_k (length answer.old) }
    ensures written { answer.new ≡ particle_after particle.now j_n dt temp_k answer.old }
{
    boundary::pj_particle_step(particle, j_n, dt, temp_k, answer)
}

// A step of a single-particle cell.
#[unsafe(no_mangle)]
pub extern "C" fn pj_cell_step(
    cell: &[u8],
    current_a: f64,
    dt: f64,
    temp_k: f64,
    answer: &mut [u8],
) -> u64
    ensures number { result ≡ cell_return cell.now current_a dt temp_k (length answer.old) }
    ensures written { answer.new ≡ cell_after cell.now current_a dt temp_k answer.old }
{
    boundary::pj_cell_step(cell, current_a, dt, temp_k, answer)
}

// A step of an electrolyte.
#[unsafe(no_mangle)]
pub extern "C" fn pj_electrolyte_step(
    electrolyte: &[u8],
    j_n_neg: f64,
    j_n_pos: f64,
    dt: f64,
    temp_k: f64,
    answer: &mut [u8],
) -> u64
    ensures number { result ≡ electrolyte_return electrolyte.now j_n_neg j_n_pos dt temp_k (length answer.old) }
    ensures written { answer.new ≡ electrolyte_after electrolyte.now j_n_neg j_n_pos dt temp_k answer.old }
{
    boundary::pj_electrolyte_step(electrolyte, j_n_neg, j_n_pos, dt, temp_k, answer)
}

// A step of a Doyle-Fuller-Newman cell.
#[unsafe(no_mangle)]
pub extern "C" fn pj_dfn_step(cell: &[u8], current_a: f64, dt_s: f64, answer: &mut [u8]) -> u64
    ensures number { result ≡ dfn_return cell.now current_a dt_s (length answer.old) }
    ensures written { answer.new ≡ dfn_after cell.now current_a dt_s answer.old }
{
    boundary::pj_dfn_step(cell, current_a, dt_s, answer)
}

// A run of a single-particle cell. The answer is written unless the run is refused before its first row.
#[unsafe(no_mangle)]
pub extern "C" fn pj_simulate_discharge(
    cell: &[u8],
    current_a: f64,
    dt: f64,
    temp_k: f64,
    max_time_s: f64,
    rows: &mut [f64],
    lowest: &mut [f64],
    answer: &mut [u8],
) -> u64
    ensures number { result ≡ discharge_return cell.now current_a dt temp_k max_time_s (room_of (length rows.old) (length lowest.old)) (length answer.old) }
    ensures rows { rows.new ≡ discharge_rows cell.now current_a dt temp_k max_time_s rows.old lowest.old (length answer.old) }
    ensures lowest { lowest.new ≡ discharge_lowest cell.now current_a dt temp_k max_time_s rows.old lowest.old (length answer.old) }
    ensures written { answer.new ≡ discharge_after cell.now current_a dt temp_k max_time_s (room_of (length rows.old) (length lowest.old)) answer.old }
{
    boundary::pj_simulate_discharge(
        cell, current_a, dt, temp_k, max_time_s, rows, lowest, answer,
    )
}

// A recorded load replayed on a single-particle cell; its answer as in a run. A text that is too long is 12, whatever the lengths.
#[unsafe(no_mangle)]
pub extern "C" fn pj_replay(
    cell: &[u8],
    text: &[u8],
    temp_k: f64,
    rows: &mut [f64],
    answer: &mut [u8],
) -> u64
    ensures number { result ≡ replay_return cell.now text.now temp_k (length rows.old) (length answer.old) }
    ensures rows { rows.new ≡ replay_rows cell.now text.now temp_k rows.old (length answer.old) }
    ensures written { answer.new ≡ replay_after cell.now text.now temp_k (length rows.old) answer.old }
{
    boundary::pj_replay(cell, text, temp_k, rows, answer)
}

// A cycle of phases on a single-particle cell; its answer as in a run.
#[unsafe(no_mangle)]
pub extern "C" fn pj_cycle(
    cell: &[u8],
    phases: &[u8],
    count: usize,
    repeats: usize,
    budget: usize,
    dt: f64,
    temp_k: f64,
    rows: &mut [f64],
    answer: &mut [u8],
) -> u64
    ensures number { result ≡ cycle_return cell.now phases.now (cycle_settings count repeats budget dt temp_k) (length rows.old) (length answer.old) }
    ensures rows { rows.new ≡ cycle_rows cell.now phases.now (cycle_settings count repeats budget dt temp_k) rows.old (length answer.old) }
    ensures written { answer.new ≡ cycle_after cell.now phases.now (cycle_settings count repeats budget dt temp_k) (length rows.old) answer.old }
{
    boundary::pj_cycle(
        cell, phases, count, repeats, budget, dt, temp_k, rows, answer,
    )
}

// A run of a Doyle-Fuller-Newman cell; its answer as in a run of a single-particle cell.
#[unsafe(no_mangle)]
pub extern "C" fn pj_run_galvanostatic(
    cell: &[u8],
    current_a: f64,
    dt_s: f64,
    max_time_s: f64,
    rows: &mut [f64],
    lowest: &mut [f64],
    answer: &mut [u8],
) -> u64
    ensures number { result ≡ galvanostatic_return cell.now current_a dt_s max_time_s (room_of (length rows.old) (length lowest.old)) (length answer.old) }
    ensures rows { rows.new ≡ galvanostatic_rows cell.now current_a dt_s max_time_s rows.old lowest.old (length answer.old) }
    ensures lowest { lowest.new ≡ galvanostatic_lowest cell.now current_a dt_s max_time_s rows.old lowest.old (length answer.old) }
    ensures written { answer.new ≡ galvanostatic_after cell.now current_a dt_s max_time_s (room_of (length rows.old) (length lowest.old)) answer.old }
{
    boundary::pj_run_galvanostatic(cell, current_a, dt_s, max_time_s, rows, lowest, answer)
}

// The first of `count` rows under a voltage, found by the lowest of each group; its answer is 1 and the row, or 2 and 0 for none.
#[unsafe(no_mangle)]
pub extern "C" fn pj_first_below(
    which: u64,
    rows: &[f64],
    lowest: &[f64],
    count: usize,
    voltage: f64,
    answer: &mut [u8],
) -> u64
    ensures number { result ≡ search_return which rows.now lowest.now count voltage (length answer.old) }
    ensures written { answer.new ≡ search_after which rows.now lowest.now count voltage answer.old }
{
    boundary::pj_first_below(which, rows, lowest, count, voltage, answer)
}

// The solution of n equations.
#[unsafe(no_mangle)]
pub extern "C" fn pj_solve_dense(a: &[f64], b: &[f64], n: usize, answer: &mut [u8]) -> u64
    ensures number { result ≡ dense_return a.now b.now n (length answer.old) }
    ensures written { answer.new ≡ dense_after a.now b.now n answer.old }
{
    boundary::pj_solve_dense(a, b, n, answer)
}
