// What every policy does.

ghost use Rattle.std.specs.Prelude.{◌≡◌, ◌≤◌};
ghost use Rattle.policy.specs.Policies.{Lawful, Meaning, permitted};

use crate::span::Span;

/// Decides which offsets of its regions may still be written. How many regions there are never changes.
// A policy that can close an offset is better not `Copy`: whoever kept a copy could go back to what it was before a write.
pub trait Policy {
    /// What is open, how many regions there are, and what a write makes of the policy.
    ghost means: { Meaning Self };

    /// How many regions there are, 0 to 16. Those from here up are closed.
    fn regions(&self) -> u64
        ensures is { result ≡ means.count self.now }
        ensures few { result ≤ 16 };

    /// Whether every offset of the span is open. Any region can be asked about.
    // Region and span stay two parameters here and in `told`: a pair asks its parts by another number, and would have to
    // take a `Write` apart and make a new one.
    fn permits(&self, region: u64, span: Span) -> bool
        ensures { result ≡ permitted (means.opens self.now region) span.offset span.length };

    /// Takes note of a write. Where `permits` would say no, nothing is altered; no other region ever is, and closed
    /// stays closed: the laws say so of `after`.
    fn told(&mut self, region: u64, span: Span)
        ensures after { self.new ≡ means.after self.old region span.offset span.length }
        ensures same { means.count self.new ≡ means.count self.old };

    /// What holds of all of these.
    ghost laws: { Lawful means };
}
