// The lists of the elementary functions.
use crate::line::Line;

// E, L, S and H.
pub(crate) fn elementary_line(line: &mut Line<'_>) -> bool {
    let x = line.next_f64();
    line.is_f64(elementary::exp(x))
        & line.is_f64(elementary::ln(x))
        & line.is_f64(square_root::sqrt(x))
        & line.is_f64(elementary::asinh(x))
}

pub(crate) fn exp_line(line: &mut Line<'_>) -> bool {
    let t = line.next_f64();
    line.is_f64(elementary::exp(t))
}

pub(crate) fn powf_line(line: &mut Line<'_>) -> bool {
    let [x, b] = line.next_f64s::<2>();
    line.is_f64(elementary::powf(x, b))
}

// Powers, clamp, max, min and size.
pub(crate) fn small_line(line: &mut Line<'_>) -> bool {
    let [x, low, high, y] = line.next_f64s::<4>();
    line.is_f64(elementary::square(x))
        & line.is_f64(elementary::cube(x))
        & line.is_f64(elementary::fourth(x))
        & line.is_f64(min_max::clamp(x, low, high))
        & line.is_f64(min_max::max(x, y))
        & line.is_f64(min_max::min(x, y))
        & line.is_f64(min_max::abs(x))
}

pub(crate) fn count_line(line: &mut Line<'_>) -> bool {
    let q = line.next_f64();
    line.is_u64(min_max::ceil_count(q))
}
