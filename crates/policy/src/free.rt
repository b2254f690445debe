// A policy of one region that stays open.

ghost use Rattle.std.specs.Prelude.{◌≡◌, ℕ};
ghost use Rattle.policy.specs.Kinds.{alone, below, Closes, free_closes, free_means, free_opens};
ghost use Rattle.policy.specs.Laws.{kind_laws, free_facts};

use crate::span::Span;
use crate::traits::Policy;

/// Free: one region, number 0, whose 65,536 offsets are all open for ever.
#[derive(Drop)]
pub struct Free;

impl Free {
    /// All offsets are open.
    pub fn new() -> Free
        ensures starts { (region offset : ℕ) → free_opens result region offset ≡ alone (below 65536) region offset }
    {
        Free
    }
}

impl Policy for Free {
    ghost means = { free_means };

    ghost laws = { kind_laws free_facts };

    fn regions(&self) -> u64 {
        1
    }

    #[tactic(auto, using(crate::specs::Laws::permitted_alone, crate::proofs::Permitting::first_open))]
    fn permits(&self, region: u64, span: Span) -> bool {
        region == 0
    }

    #[tactic(auto, using(crate::specs::Laws::permitted_alone))]
    fn told(&mut self, region: u64, span: Span)
        ensures after { self.new ≡ free_means.after self.old region span.offset span.length }
        ensures same { free_means.count self.new ≡ free_means.count self.old }
        ensures closes { Closes free_means free_closes self.old self.new region span.offset span.length }
    {}
}
