// The numbers that a run is set by: those it starts from, and the records that they make.
ghost use Rattle.std.specs.Prelude.{◌≡◌, ◌+◌, ◌≤◌};
ghost use Rattle.setting_table.specs.Names.{cathode, none};
ghost use Rattle.cell_file.specs.Records.{put_by, with_sheet, ready_with, ten_at, sheet_at, config_at};

use electrode::ElectrodeParams;
use kinetics::SpmConfig;
use setting_table::names::{
    ANODE, CATHODE, FARADAY, N_NODES, NONE, R_GAS, RESISTANCE, V_MAX, V_MIN,
};

// Puts ten numbers from a place on.
fn put_ten(v: [f64; NONE], base: usize, x: &[f64; 10]) -> [f64; NONE]
    requires { base + 10 ≤ none }
    ensures { result ≡ put_by 10 base x.now v }
{
    let mut all = v;
    for (i, y) in x.iter().enumerate() {
        all[base + i] = *y;
    }
    all
}

// Puts a sheet, its chemistry at a place and its numbers after it.
fn put_sheet(v: [f64; NONE], base: usize, p: ElectrodeParams) -> [f64; NONE]
    requires { base ≤ cathode }
    ensures { result ≡ with_sheet v base p }
{
    let mut all = v;
    all[base] = std::num::nearest_u64_to_f64(p.electrode_type);
    let ten = p.numbers();
    put_ten(all, base + 1, &ten)
}

// A graphite anode with a cathode: 5 A at 298.15 K, a row each 10 s, for an hour or down to 3 V; else the Rust's default config.
pub fn ready(q: ElectrodeParams) -> [f64; NONE]
    ensures { result ≡ ready_with q }
{
    let ten = [
        5.0, 10.0, 298.15, 3600.0, 11.0, 3.0, 4.2, 96485.0, 8.314, 2e-4,
    ];
    let run = put_ten([0.0; NONE], 0, &ten);
    let half = put_sheet(run, ANODE, ElectrodeParams::graphite_anode());
    put_sheet(half, CATHODE, q)
}

// The ten numbers from a place on.
fn ten_at(v: &[f64; NONE], base: usize) -> [f64; 10]
    requires { base + 10 ≤ none }
    ensures { result ≡ ten_at v.now base }
{
    let mut ten = [0.0; 10];
    ten.copy_from_slice(&v[base..base + 10]);
    ten
}

// The sheet whose chemistry is at a place: the anode's at ANODE, the cathode's at CATHODE.
pub fn sheet_at(v: &[f64; NONE], base: usize) -> ElectrodeParams
    requires { base ≤ cathode }
    ensures { result ≡ sheet_at v.now base }
{
    let ten = ten_at(v, base + 1);
    ElectrodeParams::of_numbers(min_max::ceil_count(v[base]), &ten)
}

// The config.
pub fn config_of(v: &[f64; NONE]) -> SpmConfig
    ensures { result ≡ config_at v.now }
{
    SpmConfig {
        n_nodes: min_max::ceil_count(v[N_NODES]) as usize,
        v_min: v[V_MIN],
        v_max: v[V_MAX],
        faraday: v[FARADAY],
        r_gas: v[R_GAS],
        r_electrolyte_ohm_m2: v[RESISTANCE],
    }
}
