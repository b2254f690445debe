// Any two policies side by side.

ghost use Rattle.std.specs.Prelude.{◌≡◌};
ghost use Rattle.policy.specs.PairLaws.{pair_laws};
ghost use Rattle.policy.specs.Pairs.{pair_means, SideBySide};

use crate::span::Span;
use crate::traits::Policy;
use frames::numbers::REGIONS;
use std::marker::Model;

// No policy shows more regions.
const MOST_REGIONS: u64 = REGIONS as u64;

/// Two policies as one: the second's regions follow the first's, up to 16 in all.
#[derive(Drop)]
pub struct Pair<A, B> {
    first: A,
    second: B,
}

impl<A, B> Model for Pair<A, B> {
    ghost Value = { A × B };

    ghost view = { λ pair. (pair.first, pair.second) };
}

impl<A: Policy, B: Policy> Pair<A, B> {
    /// The two side by side.
    pub fn new(first: A, second: B) -> Pair<A, B>
        ensures same { result ≡ (first, second) }
        ensures shows { SideBySide A.Policy.means B.Policy.means result }
    {
        Pair { first, second }
    }
}

impl<A: Policy, B: Policy> Policy for Pair<A, B> {
    ghost means = { pair_means A.Policy.means B.Policy.means };

    ghost laws = { pair_laws A.Policy.laws B.Policy.laws };

    fn regions(&self) -> u64 {
        let both = self.first.regions() + self.second.regions();
        both.min(MOST_REGIONS)
    }

    #[tactic(auto, using(crate::proofs::Permitting::permitted_none))]
    fn permits(&self, region: u64, span: Span) -> bool {
        let firsts = self.first.regions();
        if region < firsts {
            return self.first.permits(region, span);
        }
        if region >= MOST_REGIONS {
            return false;
        }
        self.second.permits(region - firsts, span)
    }

    fn told(&mut self, region: u64, span: Span) {
        let firsts = self.first.regions();
        if region < firsts {
            self.first.told(region, span);
        } else if region < MOST_REGIONS {
            self.second.told(region - firsts, span);
        }
    }
}
