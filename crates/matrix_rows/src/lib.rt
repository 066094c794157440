// The rows of a system of up to 32 unknowns: their exchange and their reduction, as in `solve_dense` of oxigrid's
// src/battery/p2d/dfn.rs, changed. Order n: the matrix has n rows of 32 places, the right side 32 places.
// A flat slice with its order beside it, as the definitions of Rows have it.
#![tactic(auto)]

ghost use Rattle.std.specs.Prelude.{◌≡◌, ◌*◌, ◌<◌, ◌≤◌, length};
ghost use Rattle.matrix_rows.specs.Rows.{swapped, rows_swapped, row_reduced};

pub fn swap_places(x: &mut [f64; 32], p: usize, q: usize)
    requires { (p < 32) × (q < 32) }
    ensures { x.new ≡ swapped p q x.old }
{
    x.swap(p, q);
}

// Swaps the first n places of the rows p and q. Place by place: both rows are parts of one slice, as the definitions have it.
pub fn swap_rows(a: &mut [f64], p: usize, q: usize, n: usize)
    requires { (p < n) × ((q < n) × ((n ≤ 32) × (length a.old ≡ n * 32))) }
    ensures { a.new ≡ rows_swapped p q n a.old }
{
    for k in 0..n {
        a.swap(p * 32 + k, q * 32 + k);
    }
}

// Takes f times row `col` from row `row`, from column `col` on. By index: both rows are parts of one slice.
pub fn reduce_row(a: &mut [f64], row: usize, col: usize, n: usize, f: f64)
    requires { (row < n) × ((col ≤ n) × ((n ≤ 32) × (length a.old ≡ n * 32))) }
    ensures { a.new ≡ row_reduced row col n f a.old }
{
    for k in col..n {
        let i = row * 32 + k;
        a[i] = a[i] - f * a[col * 32 + k];
    }
}
