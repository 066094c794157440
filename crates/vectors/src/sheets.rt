// The lists of the electrode sheet's calls.
use crate::line::{Line, same_arrays};
use electrode::ElectrodeParams;

pub(crate) fn next_sheet(line: &mut Line<'_>) -> ElectrodeParams {
    let electrode_type = line.next_u64();
    ElectrodeParams::of_numbers(electrode_type, &line.next_f64s())
}

pub(crate) fn same_sheet(a: ElectrodeParams, b: ElectrodeParams) -> bool {
    a.electrode_type == b.electrode_type && same_arrays(&a.numbers(), &b.numbers())
}

// Whether the next sheet is p.
fn is_sheet(line: &mut Line<'_>, p: ElectrodeParams) -> bool {
    line.is_u64(p.electrode_type) & line.is_f64s(&p.numbers())
}

pub(crate) fn ready_line(line: &mut Line<'_>) -> bool {
    is_sheet(line, ElectrodeParams::graphite_anode())
        & is_sheet(line, ElectrodeParams::lfp_cathode())
        & is_sheet(line, ElectrodeParams::nmc_cathode())
}

pub(crate) fn d_s_line(line: &mut Line<'_>) -> bool {
    let p = next_sheet(line);
    let temp_k = line.next_f64();
    line.is_answer(p.d_s(temp_k))
}

pub(crate) fn area_line(line: &mut Line<'_>) -> bool {
    let p = next_sheet(line);
    line.is_answer(p.specific_area())
}

pub(crate) fn ocp_line(line: &mut Line<'_>) -> bool {
    let p = next_sheet(line);
    let theta = line.next_f64();
    line.is_answer(p.ocp(theta)) & line.is_answer(p.docp_dtheta(theta))
}

pub(crate) fn volume_line(line: &mut Line<'_>) -> bool {
    let r = line.next_f64();
    line.is_answer(electrode::sphere_volume(r))
}
