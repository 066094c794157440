// How many nodes a particle has: 3 to 64.

ghost use Rattle.std.specs.Prelude.{◌≡◌, ◌≤◌, IfOk};
ghost use Rattle.refusal.specs.Numbers.{refusal_unless, grid};
ghost use Rattle.refusal.specs.Ranges.{count_in_range};
ghost use Rattle.refusal.specs.Refusals.{refusal_of};

use refusal::{Refusal, count_within, refuse_unless};
use std::marker::Model;

#[derive(Clone, Copy)]
pub struct Nodes {
    count: usize,
}

impl Model for Nodes {
    ghost use Rattle.std.specs.Prelude.{ℕ, ◌≤◌};

    ghost Value = { ℕ };

    ghost view = { λ n. n.count };

    ghost invariant = { λ n. (3 ≤ n.count) × (n.count ≤ 64) };

    ghost inverse = { λ n. record { count = n } };
}

impl Nodes {
    // The count, or the refusal of one outside 3 to 64.
    pub fn new(count: usize) -> Result<Nodes, Refusal>
        ensures refused { refusal_of result ≡ refusal_unless (count_in_range count 3 64) grid }
        ensures counted { IfOk result (λ n. n ≡ count) }
    {
        refuse_unless(count_within(count as u64, 3, 64), Refusal::Grid)?;
        Ok(Nodes { count })
    }

    pub fn count(self) -> usize
        ensures value { result ≡ self }
        ensures few { (3 ≤ self) × (self ≤ 64) }
    {
        self.count
    }
}
