// A policy of one region whose every offset is written once.

ghost use Rattle.std.specs.Prelude.{◌≡◌, ℕ};
ghost use Rattle.policy.specs.Kinds.{alone, below, Closes, write_once_means, write_once_opens};
ghost use Rattle.policy.specs.Laws.{kind_laws, write_once_facts};
ghost use Rattle.policy.specs.Spans.{covers};

use crate::span::Span;
use crate::traits::Policy;

/// A write-once region has so many offsets that can be written, from 0 up.
pub const ONCE: u64 = 4096;

// So many flags stand for them.
const FLAGS: usize = ONCE as usize;

/// Write-once: one region, number 0. A write closes its span.
#[derive(Drop)]
pub struct WriteOnce {
    // The offsets that have not been written yet.
    fresh: [bool; FLAGS],
}

impl WriteOnce {
    /// The offsets below 4,096 are open, all others closed.
    #[tactic(auto, using(crate::proofs::Flags::flags_set))]
    pub fn new() -> WriteOnce
        ensures starts { (region offset : ℕ) → write_once_opens result region offset ≡ alone (below 4096) region offset }
    {
        WriteOnce {
            fresh: [true; FLAGS],
        }
    }
}

impl Policy for WriteOnce {
    ghost means = { write_once_means };

    ghost laws = { kind_laws write_once_facts };

    fn regions(&self) -> u64 {
        1
    }

    #[tactic(auto, using(crate::specs::Laws::permitted_alone, crate::proofs::Flags::stretch_open, crate::proofs::Flags::past_flags))]
    fn permits(&self, region: u64, span: Span) -> bool {
        region == 0
            && span.end() <= ONCE
            && !self.fresh[span.offset() as usize..span.end() as usize].contains(&false)
    }

    #[tactic(auto, using(crate::proofs::Permitting::write_once_told, crate::specs::Laws::permitted_alone, crate::proofs::Flags::inside, crate::proofs::Flags::fill_clears))]
    fn told(&mut self, region: u64, span: Span)
        ensures after { self.new ≡ write_once_means.after self.old region span.offset span.length }
        ensures same { write_once_means.count self.new ≡ write_once_means.count self.old }
        ensures closes { Closes write_once_means covers self.old self.new region span.offset span.length }
    {
        if self.permits(region, span) {
            self.fresh[span.offset() as usize..span.end() as usize].fill(false);
        }
    }
}
