// The lists of the particle's calls.
use crate::line::{Line, is_array, same_answer, same_arrays};
use crate::sheets::{next_sheet, same_sheet};
use particle::ParticleDiffusion;

pub(crate) fn next_particle(line: &mut Line<'_>) -> ParticleDiffusion {
    let params = next_sheet(line);
    let n_nodes = line.next_usize();
    let c_s = line.next_places();
    ParticleDiffusion {
        params,
        n_nodes,
        c_s,
    }
}

// Whether two particles have the same sheet and count of nodes.
pub(crate) fn same_make(a: ParticleDiffusion, b: ParticleDiffusion) -> bool {
    same_sheet(a.params, b.params) && a.n_nodes == b.n_nodes
}

pub(crate) fn same_particle(a: ParticleDiffusion, b: ParticleDiffusion) -> bool {
    same_make(a, b) && same_arrays(&a.c_s, &b.c_s)
}

pub(crate) fn new_line(line: &mut Line<'_>) -> bool {
    let params = next_sheet(line);
    let n = line.next_usize();
    let listed = line.next_answer(|line| line.next_array());
    same_answer(ParticleDiffusion::new(params, n), listed, |p, c| {
        same_sheet(p.params, params) && p.n_nodes == n && is_array(&p.c_s, c)
    })
}

pub(crate) fn step_line(line: &mut Line<'_>) -> bool {
    let p = next_particle(line);
    let [j_n, dt, temp_k] = line.next_f64s::<3>();
    let listed = line.next_answer(|line| line.next_array());
    same_answer(p.step(j_n, dt, temp_k), listed, |q, c| {
        same_make(p, q) && is_array(&q.c_s, c)
    })
}

pub(crate) fn dt_stable_line(line: &mut Line<'_>) -> bool {
    let p = next_particle(line);
    let temp_k = line.next_f64();
    line.is_answer(p.dt_stable(temp_k))
}

pub(crate) fn number_line(line: &mut Line<'_>) -> bool {
    let p = next_particle(line);
    line.is_answer(p.theta_surface())
        & line.is_answer(p.theta_avg())
        & line.is_answer(p.c_avg())
        & line.is_answer(p.ocp_surface())
}
