// Gaussian elimination with partial pivoting, of up to 32 unknowns: the first half of `solve_dense` of oxigrid's
// src/battery/p2d/dfn.rs, changed. Order n: the matrix has n rows of 32 places, the right side 32 places.
// A flat slice with its order beside it, as the definitions of Elimination have it.
#![tactic(auto)]

ghost use Rattle.std.specs.Prelude.{◌≡◌, ◌+◌, ◌*◌, ◌<◌, ◌≤◌, length};
ghost use Rattle.refusal.specs.Refusals.{refusal_of};
ghost use Rattle.matrix_rows.specs.Loops.{outcome};
ghost use Rattle.matrix_columns.specs.Columns.{system};
ghost use Rattle.dense_elimination.specs.Elimination.{candidate, larger, eliminated};

use matrix_columns::take_pivot;
use refusal::Refusal;

// An entry of a column that may become its pivot: its row and its absolute value.
#[derive(Clone, Copy)]
struct Pivot {
    row: usize,
    val: f64,
}

fn candidate(a: &[f64], row: usize, col: usize) -> Pivot
    requires { (col < 32) × (row * 32 + 32 ≤ length a.now) }
    ensures { result ≡ candidate a.now row col }
{
    Pivot {
        row,
        val: min_max::abs(a[row * 32 + col]),
    }
}

// The larger of two; of equals the first. A NaN is larger than nothing.
#[tactic(auto, unfolding(crate::specs::Elimination::larger))]
fn larger(p: Pivot, q: Pivot) -> Pivot
    ensures { result ≡ larger p q }
{
    if q.val > p.val { q } else { p }
}

// Column by column: the largest entry on or below the diagonal is the pivot. Refused where it is below 1e-14. The search starts on the
// diagonal, where an entry is compared with itself, so that the last column has a turn to leave too.
// A labelled break, the form that the paper names, leaves both loops.
// By number: a pivot is known by its column and its row.
pub fn eliminate(a: &mut [f64], x: &mut [f64; 32], n: usize) -> Result<(), Refusal>
    requires { (n ≤ 32) × (length a.old ≡ n * 32) }
    ensures { outcome (refusal_of result) (system a.new x.new) ≡ eliminated n (system a.old x.old) }
{
    let mut tested = Ok(());
    'columns: for col in 0..n {
        let mut p = candidate(a, col, col);
        for row in col..n {
            p = larger(p, candidate(a, row, col));
            if row + 1 == n {
                if p.val < 1e-14 {
                    tested = Err(Refusal::Singular);
                    break 'columns;
                }
            }
        }
        take_pivot(a, x, col, p.row, n);
    }
    tested
}
