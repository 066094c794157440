// The lists of the electrolyte's calls.
use crate::line::{Line, is_array, same_answer, same_arrays};
use electrolyte::ElectrolyteState;
use electrolyte_parameters::ElectrolyteParams;
use refusal::Refusal;

fn next_params(line: &mut Line<'_>) -> ElectrolyteParams {
    let [
        d_e_ref,
        kappa_ref,
        t_plus,
        bruggeman,
        c_e_init,
        e_a_de,
        e_a_kappa,
        t_ref,
    ] = line.next_f64s::<8>();
    ElectrolyteParams {
        d_e_ref,
        kappa_ref,
        t_plus,
        bruggeman,
        c_e_init,
        e_a_de,
        e_a_kappa,
        t_ref,
    }
}

fn param_numbers(p: ElectrolyteParams) -> [f64; 8] {
    [
        p.d_e_ref,
        p.kappa_ref,
        p.t_plus,
        p.bruggeman,
        p.c_e_init,
        p.e_a_de,
        p.e_a_kappa,
        p.t_ref,
    ]
}

// A state with no node filled.
fn next_regions(line: &mut Line<'_>) -> ElectrolyteState {
    let params = next_params(line);
    let [l_neg, l_sep, l_pos, eps_neg, eps_sep, eps_pos] = line.next_f64s::<6>();
    let n_neg = line.next_usize();
    let n_sep = line.next_usize();
    let n_pos = line.next_usize();
    ElectrolyteState {
        params,
        l_neg,
        l_sep,
        l_pos,
        eps_neg,
        eps_sep,
        eps_pos,
        n_neg,
        n_sep,
        n_pos,
        c_e: [0.0; 96],
    }
}

fn next_state(line: &mut Line<'_>) -> ElectrolyteState {
    let mut e = next_regions(line);
    e.c_e = line.next_places();
    e
}

fn region_numbers(e: ElectrolyteState) -> [f64; 6] {
    [e.l_neg, e.l_sep, e.l_pos, e.eps_neg, e.eps_sep, e.eps_pos]
}

// Whether two states have the same parameters and regions.
fn same_regions(a: ElectrolyteState, b: ElectrolyteState) -> bool {
    same_arrays(&param_numbers(a.params), &param_numbers(b.params))
        && same_arrays(&region_numbers(a), &region_numbers(b))
        && a.n_neg == b.n_neg
        && a.n_sep == b.n_sep
        && a.n_pos == b.n_pos
}

// Whether the next answer, a number of the table and a profile where that is 0, is a; the regions must be those of `given`.
fn is_state(
    line: &mut Line<'_>,
    a: Result<ElectrolyteState, Refusal>,
    given: ElectrolyteState,
) -> bool {
    let listed = line.next_answer(|line| line.next_array());
    same_answer(a, listed, |e, c| {
        is_array(&e.c_e, c) && same_regions(e, given)
    })
}

pub(crate) fn rates_line(line: &mut Line<'_>) -> bool {
    let p = next_params(line);
    let [porosity, temp_k] = line.next_f64s::<2>();
    line.is_answer(p.d_e(temp_k))
        & line.is_answer(p.kappa(temp_k))
        & line.is_answer(p.d_e_eff(porosity, temp_k))
        & line.is_answer(p.kappa_eff(porosity, temp_k))
}

pub(crate) fn new_line(line: &mut Line<'_>) -> bool {
    let e = next_regions(line);
    let a = ElectrolyteState::new(
        e.params, e.l_neg, e.l_sep, e.l_pos, e.eps_neg, e.eps_sep, e.eps_pos, e.n_neg, e.n_sep,
        e.n_pos,
    );
    is_state(line, a, e)
}

pub(crate) fn numbers_line(line: &mut Line<'_>) -> bool {
    let e = next_state(line);
    let listed = line.next_answer(|line| line.next_usize());
    same_answer(e.n_total(), listed, |n, count| n == count) & line.is_answer(e.c_avg())
}

pub(crate) fn step_line(line: &mut Line<'_>) -> bool {
    let e = next_state(line);
    let [j_n_neg, j_n_pos, dt, temp_k] = line.next_f64s::<4>();
    is_state(line, e.step_concentration(j_n_neg, j_n_pos, dt, temp_k), e)
}

pub(crate) fn dt_stable_line(line: &mut Line<'_>) -> bool {
    let e = next_state(line);
    let temp_k = line.next_f64();
    line.is_answer(e.dt_stable(temp_k))
}

// Whether the next words are the ready parameters.
pub(crate) fn is_ready(line: &mut Line<'_>) -> bool {
    line.is_f64s(&param_numbers(ElectrolyteParams::lipf6_ec_dmc()))
}
