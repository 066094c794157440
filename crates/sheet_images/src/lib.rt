// Sheets, particles and a single-particle cell's configuration as images: words in a string of bytes, in the order of the records' fields.
// The word `at` is a constant at each caller: a type for its limit is no plainer.
#![tactic(auto)]

ghost use Rattle.std.specs.Prelude.{◌≡◌, ◌≤◌};
ghost use Rattle.particle.specs.Particle.{particle_of};
ghost use Rattle.sheet_images.specs.Images.{sheet_at, put_sheet, particle_at, put_particle, config_at, put_config};

use codec::{read_word, write_word};
use electrode::ElectrodeParams;
use image_layout::{PARTICLE_NODES, PARTICLE_PROFILE};
use image_rows::{read_places, write_places};
use kinetics::SpmConfig;
use particle::ParticleDiffusion;

// The sheet whose first word is word `at`.
#[tactic(auto, unfolding(crate::specs::Images::sheet_at))]
pub fn sheet_at(s: &[u8], at: usize) -> ElectrodeParams
    requires { at ≤ 1024 }
    ensures { result ≡ sheet_at s.now at }
{
    let mut x = [0.0; 10];
    read_places(s, at + 1, &mut x);
    ElectrodeParams::of_numbers(read_word(s, at), &x)
}

#[tactic(auto, unfolding(crate::specs::Images::put_sheet))]
pub fn put_sheet(s: &mut [u8], at: usize, p: ElectrodeParams)
    requires { at ≤ 1024 }
    ensures { s.new ≡ put_sheet s.old at p }
{
    let x = p.numbers();
    write_word(s, at, p.electrode_type);
    write_places(s, at + 1, &x);
}

// The particle whose first word is word `at`.
#[tactic(auto, unfolding(crate::specs::Images::particle_at))]
pub fn particle_at(s: &[u8], at: usize) -> ParticleDiffusion
    requires { at ≤ 1024 }
    ensures { result ≡ particle_at s.now at }
{
    let params = sheet_at(s, at);
    let n_nodes = read_word(s, at + PARTICLE_NODES) as usize;
    let mut p = ParticleDiffusion {
        params,
        n_nodes,
        c_s: [0.0; 64],
    };
    read_places(s, at + PARTICLE_PROFILE, &mut p.c_s);
    p
}

// Writes a particle by its parts: sheet, count of nodes, profile.
#[tactic(auto, unfolding(crate::specs::Images::put_particle))]
pub fn put_parts(s: &mut [u8], at: usize, params: ElectrodeParams, n_nodes: usize, c: &[f64; 64])
    requires { at ≤ 1024 }
    ensures { s.new ≡ put_particle s.old at (particle_of params n_nodes c.now) }
{
    put_sheet(s, at, params);
    write_word(s, at + PARTICLE_NODES, n_nodes as u64);
    write_places(s, at + PARTICLE_PROFILE, c);
}

pub fn put_particle(s: &mut [u8], at: usize, p: ParticleDiffusion)
    requires { at ≤ 1024 }
    ensures { s.new ≡ put_particle s.old at p }
{
    put_parts(s, at, p.params, p.n_nodes, &p.c_s);
}

// The configuration in the first six words.
#[tactic(auto, unfolding(crate::specs::Images::config_at, iterate::specs::Iterate::first_by))]
pub fn config_at(s: &[u8]) -> SpmConfig
    ensures { result ≡ config_at s.now }
{
    let mut x = [0.0; 5];
    read_places(s, 1, &mut x);
    SpmConfig {
        n_nodes: read_word(s, 0) as usize,
        v_min: x[0],
        v_max: x[1],
        faraday: x[2],
        r_gas: x[3],
        r_electrolyte_ohm_m2: x[4],
    }
}

#[tactic(auto, unfolding(crate::specs::Images::put_config))]
pub fn put_config(s: &mut [u8], c: SpmConfig)
    ensures { s.new ≡ put_config s.old c }
{
    let x = [c.v_min, c.v_max, c.faraday, c.r_gas, c.r_electrolyte_ohm_m2];
    write_word(s, 0, c.n_nodes as u64);
    write_places(s, 1, &x);
}
