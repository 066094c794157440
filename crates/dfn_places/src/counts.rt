// Counts within their limits, and configurations that passed their check.

ghost use Rattle.std.specs.Prelude.{◌≡◌, ◌+◌, ◌*◌, ◌≤◌, IfOk};
ghost use Rattle.refusal.specs.Numbers.{refusal_unless, grid};
ghost use Rattle.refusal.specs.Refusals.{refusal_of};
ghost use Rattle.dfn_parameters.specs.Ranges.{grid_fits};

use dfn_parameters::DfnConfig;
use refusal::{Refusal, refuse_unless};
use std::marker::Model;

// A count from LOW to HIGH.
#[derive(Clone, Copy)]
pub struct Count<const LOW: usize, const HIGH: usize> {
    count: usize,
}

impl<const LOW: usize, const HIGH: usize> Model for Count<LOW, HIGH> {
    ghost use Rattle.std.specs.Prelude.{ℕ, ◌≤◌};

    ghost Value = { ℕ };

    ghost view = { λ n. n.count };

    ghost invariant = { λ n. (LOW ≤ n.count) × (n.count ≤ HIGH) };

    ghost inverse = { λ n. record { count = n } };
}

impl<const LOW: usize, const HIGH: usize> Count<LOW, HIGH> {
    pub fn get(&self) -> usize
        ensures value { result ≡ self.now }
        ensures within { (LOW ≤ self.now) × (self.now ≤ HIGH) }
    {
        self.count
    }
}

// A configuration whose counts are in their limits.
#[derive(Clone, Copy)]
pub struct FitConfig {
    pub config: DfnConfig,
    pub ghost anode: { (1 ≤ config.n_x_neg) × (config.n_x_neg ≤ 16) },
    pub ghost cathode: { (1 ≤ config.n_x_pos) × (config.n_x_pos ≤ 16) },
    pub ghost radius: { (2 ≤ config.n_r) × (config.n_r ≤ 32) },
}

impl FitConfig {
    // The configuration, or the refusal of a count outside its limits.
    pub fn new(config: DfnConfig) -> Result<FitConfig, Refusal>
        ensures refused { refusal_of result ≡ refusal_unless (grid_fits config) grid }
        ensures same { IfOk result (λ f. f.config ≡ config) }
    {
        refuse_unless(config.grid_fits(), Refusal::Grid)?;
        Ok(FitConfig { config })
    }

    // The three counts are three methods: each names a field of its own, as the images have it.
    pub fn n_x_neg(self) -> Count<1, 16>
        ensures { result ≡ self.config.n_x_neg }
    {
        Count {
            count: self.config.n_x_neg,
        }
    }

    pub fn n_x_pos(self) -> Count<1, 16>
        ensures { result ≡ self.config.n_x_pos }
    {
        Count {
            count: self.config.n_x_pos,
        }
    }

    pub fn n_r(self) -> Count<2, 32>
        ensures { result ≡ self.config.n_r }
    {
        Count {
            count: self.config.n_r,
        }
    }

    // How many places the particles along n nodes take.
    pub fn used_solid(self, n: Count<1, 16>) -> usize
        ensures value { result ≡ n * self.config.n_r }
        ensures room { result ≤ 512 }
    {
        n.get() * self.config.n_r
    }

    // How many nodes the electrolyte has: the anode's, one for the separator, the cathode's.
    pub fn used_electrolyte(self) -> usize
        ensures value { result ≡ self.config.n_x_neg + 1 + self.config.n_x_pos }
        ensures room { result ≤ 33 }
    {
        self.config.n_x_neg + 1 + self.config.n_x_pos
    }
}
