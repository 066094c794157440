// The first curve, and the shortest program that calls the stepper: graphite with NMC is discharged at 5 A down to 3 V, and its rows are written as CSV.
// `discharge` does the same for any cell, current and limits.
#![tactic(auto)]

use kinetics::SpmConfig;
use solver::SpmSolver;

fn main() {
    let config = SpmConfig {
        n_nodes: 11,
        v_min: 3.0,
        v_max: 4.2,
        faraday: 96485.0,
        r_gas: 8.314,
        r_electrolyte_ohm_m2: 2e-4,
    };
    if let Ok(cell) = SpmSolver::graphite_nmc(config) {
        // at most 10,000 rows of eight numbers, in groups of 64; a row each 10 s for an hour, at 298.15 K
        let mut rows = [0.0; 80000];
        let mut lowest = [0.0; 157];
        let r = discharge_run::simulate_discharge(
            cell,
            5.0,
            10.0,
            298.15,
            3600.0,
            &mut rows,
            &mut lowest,
        );
        csv_rows::write_rows(&rows, r.rows);
        // for who draws the rows
        io::write_all(
            csv_rows::OUT,
            b"# nmc current=5 A temperature=298.15 K v_min=3 V v_max=4.2 V\n",
        );
    }
}
