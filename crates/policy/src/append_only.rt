// A policy of one region that is written from front to back.

ghost use Rattle.std.specs.Prelude.{◌≡◌, ℕ, ◌+◌};
ghost use Rattle.policy.specs.Kinds.{alone, append_only_closes, append_only_means, append_only_opens, below, Closes};
ghost use Rattle.policy.specs.Laws.{kind_laws, append_only_facts};

use crate::span::Span;
use crate::traits::Policy;

/// Append-only: one region, number 0. A write closes every offset below its end, so what lies below the end of
/// one is never written again.
#[derive(Drop)]
pub struct AppendOnly {
    // The offsets below it are closed.
    mark: u64,
}

impl AppendOnly {
    /// All 65,536 offsets are open.
    pub fn new() -> AppendOnly
        ensures starts { (region offset : ℕ) → append_only_opens result region offset ≡ alone (below 65536) region offset }
    {
        AppendOnly { mark: 0 }
    }
}

impl Policy for AppendOnly {
    ghost means = { append_only_means };

    ghost laws = { kind_laws append_only_facts };

    fn regions(&self) -> u64 {
        1
    }

    #[tactic(auto, using(crate::specs::Laws::permitted_alone, crate::proofs::Permitting::first_open))]
    fn permits(&self, region: u64, span: Span) -> bool {
        region == 0 && self.mark <= span.offset()
    }

    #[tactic(auto, using(crate::proofs::Permitting::append_only_told, crate::specs::Laws::permitted_alone))]
    fn told(&mut self, region: u64, span: Span)
        ensures after { self.new ≡ append_only_means.after self.old region span.offset span.length }
        ensures same { append_only_means.count self.new ≡ append_only_means.count self.old }
        ensures closes { Closes append_only_means append_only_closes self.old self.new region span.offset span.length }
    {
        if self.permits(region, span) {
            self.mark = span.end();
        }
    }
}
