// The list of a recorded load on the single-particle cell.
use crate::cells::next_solver;
use crate::discharges::is_run;
use crate::line::Line;
use crate::rows::mark_all;
use replay_run::replay;
use solver::SpmSolver;

// Reads a text, whose length is read already: how many bytes are listed, then these, eight to a word and the first in its highest byte;
// bytes that are not listed are 0.
fn read_text(line: &mut Line<'_>, text: &mut [u8]) {
    let listed = line.next_usize().min(text.len());
    for part in text[..listed].chunks_mut(8) {
        let bytes = line.next_u64().to_be_bytes();
        for (byte, listed) in part.iter_mut().zip(bytes) {
            *byte = listed;
        }
    }
}

// No replay of the list has more than 256 places.
fn replay_agrees(line: &mut Line<'_>, s: SpmSolver, text: &[u8]) -> bool {
    let temp_k = line.next_f64();
    let n = line.next_usize();
    if n > 256 {
        return false;
    }
    let mut room = [0.0; 256];
    let rows = &mut room[..n];
    mark_all(rows);
    let r = replay(s, text, temp_k, rows);
    is_run(line, s, r, rows)
}

// No text of the list has more than 65,537 bytes.
pub(crate) fn run_line(line: &mut Line<'_>) -> bool {
    let s = next_solver(line);
    let n = line.next_usize();
    if n > 65537 {
        return false;
    }
    let mut room = [0u8; 65537];
    let text = &mut room[..n];
    read_text(line, text);
    replay_agrees(line, s, text)
}
