// The open-circuit curves of the three chemistries, and their slope: of oxigrid's src/battery/p2d/electrode.rs, changed.
#![tactic(auto, unfolding(crate::specs::Curves::graphite_curve, crate::specs::Curves::lfp_curve, crate::specs::Curves::nmc_curve, crate::specs::Curves::chemistry_curve, crate::specs::Curves::chemistry_slope))]

ghost use Rattle.std.specs.Prelude.{◌≡◌};
ghost use Rattle.curves.specs.Curves.{graphite_curve, lfp_curve, nmc_curve, chemistry_curve, chemistry_slope};

// Graphite.
fn ocp_graphite(x: f64) -> f64
    ensures { result ≡ graphite_curve x }
{
    0.7222 + 0.1387 * x + 0.029 * elementary::powf(x, 0.5) - 0.0172 / x
        + 0.0019 / elementary::powf(x, 1.5)
        + 0.2808 * elementary::exp(-0.9 / x)
        - 0.7984 * elementary::exp(0.4465 * x - 0.4108)
}

// LiFePO4: a flat plateau, with a logistic term at each end.
fn ocp_lfp(x0: f64) -> f64
    ensures { result ≡ lfp_curve x0 }
{
    let x = min_max::clamp(x0, 0.01, 0.99);
    let backbone = 3.414 + 0.12 * elementary::square(x) - 0.17 * elementary::cube(x)
        + 0.05 * elementary::fourth(x);
    let low_soc = 0.20 / (1.0 + elementary::exp(80.0 * (x - 0.08)));
    let high_soc = 0.15 / (1.0 + elementary::exp(80.0 * (0.92 - x)));
    backbone - low_soc + high_soc
}

// NMC811: a polynomial for 0.1 to 0.9, and a bounded logistic term.
fn ocp_nmc(x0: f64) -> f64
    ensures { result ≡ nmc_curve x0 }
{
    let x = min_max::clamp(x0, 0.1, 0.9);
    4.20 - 1.50 * x + 1.20 * elementary::square(x) - 0.60 * elementary::cube(x)
        + 0.08 / (1.0 + elementary::exp(30.0 * (x - 0.85)))
}

// The open-circuit potential at a stoichiometry, by the curve of the chemistry's number, as a sheet from C has it; +0 where no chemistry has the number.
pub fn open_circuit(chemistry: u64, theta: f64) -> f64
    ensures { result ≡ chemistry_curve chemistry theta }
{
    let x = min_max::clamp(theta, 0.01, 0.99);
    match chemistry {
        1 => ocp_graphite(x),
        2 => ocp_lfp(x),
        3 => ocp_nmc(x),
        _ => 0.0,
    }
}

// The slope of the open-circuit potential, by a difference of 1e-4 to both sides.
pub fn open_circuit_slope(chemistry: u64, theta: f64) -> f64
    ensures { result ≡ chemistry_slope chemistry theta }
{
    let t = min_max::clamp(theta, 1e-4, 1.0 - 1e-4);
    (open_circuit(chemistry, t + 1e-4) - open_circuit(chemistry, t - 1e-4)) / (2.0 * 1e-4)
}
