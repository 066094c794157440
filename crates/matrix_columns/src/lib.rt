// A column of a system cleared by its pivot, as in `solve_dense` of oxigrid's src/battery/p2d/dfn.rs, changed.
// A flat slice with its order beside it, as the definitions of Columns have it.
#![tactic(auto)]

ghost use Rattle.std.specs.Prelude.{◌≡◌, ◌*◌, ◌<◌, ◌≤◌, length};
ghost use Rattle.matrix_columns.specs.Columns.{system, column_cleared, rows_exchanged, pivot_taken};

use matrix_rows::{reduce_row, swap_places, swap_rows};

// Clears column `col` below its pivot, on both sides.
// By number: a row's is its place on both sides.
fn clear_column(a: &mut [f64], x: &mut [f64; 32], col: usize, n: usize)
    requires { (col < n) × ((n ≤ 32) × (length a.old ≡ n * 32)) }
    ensures { system a.new x.new ≡ column_cleared n col (system a.old x.old) }
{
    let pivot = a[col * 32 + col];
    for row in col + 1..n {
        let f = a[row * 32 + col] / pivot;
        reduce_row(a, row, col, n, f);
        x[row] = x[row] - f * x[col];
    }
}

// Exchanges the rows `col` and `row`, on both sides; a row with itself stays as it is.
fn exchange_rows(a: &mut [f64], x: &mut [f64; 32], col: usize, row: usize, n: usize)
    requires { (col < n) × ((row < n) × ((n ≤ 32) × (length a.old ≡ n * 32))) }
    ensures { system a.new x.new ≡ rows_exchanged n col row (system a.old x.old) }
{
    if row == col {
        return;
    }
    swap_rows(a, col, row, n);
    swap_places(x, col, row);
}

// Takes the pivot of column `col` from row `row`.
pub fn take_pivot(a: &mut [f64], x: &mut [f64; 32], col: usize, row: usize, n: usize)
    requires { (col < n) × ((row < n) × ((n ≤ 32) × (length a.old ≡ n * 32))) }
    ensures { system a.new x.new ≡ pivot_taken n col row (system a.old x.old) }
{
    exchange_rows(a, x, col, row, n);
    clear_column(a, x, col, n);
}
