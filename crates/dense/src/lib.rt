// Dense linear systems of up to 32 unknowns: Gaussian elimination with partial pivoting, then back substitution column by
// column. A changed translation of `solve_dense` of oxigrid's src/battery/p2d/dfn.rs. The work is done on copies: the matrix
// of order n in n rows of 32 places, and the right side in 32, which becomes the solution.
// A matrix is a flat slice with its order beside it: the definitions and theorems of Solve, and C, have it so.
#![tactic(auto)]

ghost use Rattle.std.specs.Prelude.{◌≡◌, ◌+◌, ◌*◌, ◌<◌, ◌≤◌, length};
ghost use Rattle.refusal.specs.Refusals.{refusal_of};
ghost use Rattle.matrix_rows.specs.Loops.{for_range, outcome};
ghost use Rattle.matrix_rows.specs.Places.{zeros};
ghost use Rattle.iterate.specs.Iterate.{first_by};
ghost use Rattle.arrays.specs.Places.{at};
ghost use Rattle.matrix_columns.specs.Columns.{system};
ghost use Rattle.dense.specs.Substitution.{taken_out, substituted};
ghost use Rattle.dense.specs.Answers.{solved_of};
ghost use Rattle.dense.specs.Solve.{row_loaded, matrix_loaded, input_refusal, reduced, solution, solution_refusal, answer, solved};

use dense_elimination::eliminate;
use refusal::{Refusal, refuse_unless};

// Takes the unknown `col`, which is known, out of the rows above it. By index: each turn reads x at `col` and writes it at `row`.
fn take_out(a: &[f64], x: &mut [f64; 32], col: usize)
    requires { (col < 32) × (col * 32 + 32 ≤ length a.now) }
    ensures { x.new ≡ for_range 0 col (taken_out a.now col) x.old }
{
    for row in 0..col {
        x[row] = x[row] - a[row * 32 + col] * x[col];
    }
}

// From the last unknown to the first. Refused where a pivot is below 1e-14: the Rust's second test of the pivots.
// By number: a column's is that of its unknown and of its pivot's row.
fn substitute(a: &[f64], x: &mut [f64; 32], n: usize) -> Result<(), Refusal>
    requires { (n ≤ 32) × (length a.now ≡ n * 32) }
    ensures { outcome (refusal_of result) x.new ≡ substituted a.now n x.old }
{
    for col in (0..n).rev() {
        let pivot = a[col * 32 + col];
        if min_max::abs(pivot) < 1e-14 {
            return Err(Refusal::Singular);
        }
        x[col] = x[col] / pivot;
        take_out(a, x, col);
    }
    Ok(())
}

// Copies the n places of `a` from row * n on into row `row`.
fn load_row(m: &mut [f64], a: &[f64], row: usize, n: usize)
    requires { (row < n) × ((n ≤ 32) × ((length m.old ≡ n * 32) × (row * n + n ≤ length a.now))) }
    ensures { m.new ≡ row_loaded a.now n row m.old }
{
    // Place by place: the library's copy goes by memmove, which the archive has not.
    let from = row * n;
    for k in 0..n {
        m[row * 32 + k] = a[from + k];
    }
}

// By number: rows of n and of 32 places go side by side.
fn load_matrix(m: &mut [f64], a: &[f64], n: usize)
    requires { (n ≤ 32) × ((length m.old ≡ n * 32) × (length a.now ≡ n * n)) }
    ensures { m.new ≡ matrix_loaded a.now n m.old }
{
    for row in 0..n {
        load_row(m, a, row, n);
    }
}

fn load_side(x: &mut [f64; 32], b: &[f64], n: usize)
    requires { (n ≤ 32) × (length b.now ≡ n) }
    ensures { x.new ≡ first_by n (at b.now) x.old }
{
    // Place by place, as in `load_row`.
    for k in 0..n {
        x[k] = b[k];
    }
}

// Copies a system into m and x, both cleared, and eliminates there.
fn reduce(m: &mut [f64], x: &mut [f64; 32], a: &[f64], b: &[f64], n: usize) -> Result<(), Refusal>
    requires { (n ≤ 32) × ((m.old ≡ zeros (n * 32)) × ((x.old ≡ zeros 32) × ((length a.now ≡ n * n) × (length b.now ≡ n)))) }
    ensures { outcome (refusal_of result) (system m.new x.new) ≡ reduced a.now b.now n }
{
    load_matrix(m, a, n);
    load_side(x, b, n);
    eliminate(m, x, n)
}

// Solves a system whose order, lengths and entries are fit, on the copy m: n rows, cleared.
#[tactic(auto, unfolding(crate::specs::Solve::solution_refusal, crate::specs::Solve::solution, crate::specs::Solve::answer, refusal::specs::Numbers::refusal_unless, refusal::specs::Numbers::first_refusal))]
fn solve_in(m: &mut [f64], a: &[f64], b: &[f64], n: usize) -> Result<[f64; 32], Refusal>
    requires { (n ≤ 32) × ((m.old ≡ zeros (n * 32)) × ((length a.now ≡ n * n) × (length b.now ≡ n))) }
    ensures { solved_of result ≡ answer (solution_refusal a.now b.now n) (solution a.now b.now n).value }
{
    let mut x = [0.0; 32];
    reduce(m, &mut x, a, b, n)?;
    substitute(m, &mut x, n)?;
    refuse_unless(arrays::all_finite(&x, 32), Refusal::NotFinite)?;
    Ok(x)
}

// The same on a copy of its own, in an array of P places.
fn solve_on<const P: usize>(a: &[f64], b: &[f64], n: usize) -> Result<[f64; 32], Refusal>
    requires { (n ≤ 32) × ((n * 32 ≤ P) × ((P ≤ 1024) × ((length a.now ≡ n * n) × (length b.now ≡ n)))) }
    ensures { solved_of result ≡ answer (solution_refusal a.now b.now n) (solution a.now b.now n).value }
{
    let mut m = [0.0; P];
    solve_in(&mut m[..n * 32], a, b, n)
}

// The same in the smallest of three arrays that holds the copy: at order 8 a fifth of the time would go into clearing the
// largest.
fn solve_fit(a: &[f64], b: &[f64], n: usize) -> Result<[f64; 32], Refusal>
    requires { (n ≤ 32) × ((length a.now ≡ n * n) × (length b.now ≡ n)) }
    ensures { solved_of result ≡ answer (solution_refusal a.now b.now n) (solution a.now b.now n).value }
{
    if n <= 8 {
        solve_on::<256>(a, b, n)
    } else if n <= 16 {
        solve_on::<512>(a, b, n)
    } else {
        solve_on::<1024>(a, b, n)
    }
}

// Refuses what is handed in, in the table's order. No entry is read before the lengths are right.
#[tactic(auto, unfolding(crate::specs::Solve::input_refusal, refusal::specs::Numbers::refusal_unless, refusal::specs::Numbers::first_refusal))]
fn check_input(a: &[f64], b: &[f64], n: usize) -> Result<(), Refusal>
    ensures { refusal_of result ≡ input_refusal a.now b.now n }
{
    refuse_unless(n <= 32, Refusal::Grid)?;
    refuse_unless((a.len() == n * n) & (b.len() == n), Refusal::Length)?;
    let finite = arrays::all_finite(a, a.len()) & arrays::all_finite(b, b.len());
    refuse_unless(finite, Refusal::Sheet)
}

// The solution of the n equations with the entries a, row after row, and the right side b, its unused places +0. Refused: Grid
// for n above 32, Length for slices that are not n * n and n long, Sheet for an entry that is not finite, NotFinite for a
// solution that is not, Singular for a column whose largest pivot is below 1e-14.
#[tactic(auto, unfolding(crate::specs::Solve::solved, crate::specs::Solve::answer, refusal::specs::Numbers::refusal_unless, refusal::specs::Numbers::first_refusal))]
pub fn solve_dense(a: &[f64], b: &[f64], n: usize) -> Result<[f64; 32], Refusal>
    ensures { solved_of result ≡ solved a.now b.now n }
{
    check_input(a, b, n)?;
    solve_fit(a, b, n)
}
