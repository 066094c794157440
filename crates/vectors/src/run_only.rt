// The worked examples that are run only, a line each: what it is, and the number of the refusal, 0 where it passes.
use dfn::DfnSolver;
use dfn_parameters::{DfnConfig, DfnParams};
use electrode::ElectrodeParams;
use particle::ParticleDiffusion;
use refusal::{Refusal, number_or_0};

pub(crate) fn particles<R: Print>(rt: &R) {
    for n in [2, 3, 64, 65] {
        let made = ParticleDiffusion::new(ElectrodeParams::graphite_anode(), n);
        let _ = println!(rt;
            "particle of {n} nodes gives {}",
            number_or_0(made.map(|_p| ()))
        );
    }
}

// The ready NMC cell with an electrolyte of high concentration whose diffusivity falls off steeply, three nodes in the anode.
fn salty_cell() -> Result<DfnSolver, Refusal> {
    let mut params = DfnParams::nmc_graphite();
    params.c_e0 = 1e5;
    params.gamma_e = 1000.0;
    let config = DfnConfig {
        n_x_neg: 3,
        n_x_pos: 3,
        n_r: 5,
        v_min: 2.5,
        v_max: 4.2,
    };
    DfnSolver::new(params, config)
}

pub(crate) fn salty_steps<R: Print>(rt: &R) {
    let mut cell = salty_cell();
    for which in ["first", "second"] {
        cell = cell.and_then(|c| Ok(c.step(0.0, 1.0)?.cell));
        let _ = println!(rt;
            "DFN with c_e0 = 1e5, gamma_e = 1000, no current: {which} step gives {}",
            number_or_0(cell.map(|_c| ()))
        );
    }
}
