// The list of `solve_dense`: the order, the matrix and the right side; the number, and where it is 0 the solution.
use crate::line::{Line, is_array, same_answer};

// With room for a place more than any order asks for, a slice that is cut is still too long.
pub(crate) fn line(line: &mut Line<'_>) -> bool {
    let n = line.next_usize();
    let mut a = [0.0; 1025];
    let mut b = [0.0; 33];
    let rows = line.read_slice(&mut a);
    let side = line.read_slice(&mut b);
    let listed = line.next_answer(|line| line.next_array());
    let solved = dense::solve_dense(rows, side, n);
    same_answer(solved, listed, |x, c| is_array(&x, c))
}
