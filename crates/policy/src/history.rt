// Lists of writes, told to any policy.

ghost use Rattle.policy.specs.Histories.{History};

use crate::span::Span;
use crate::traits::Policy;

/// A write as a policy is told of it: the region's number and the bytes in it.
#[derive(Clone, Copy, Debug, PartialEq, Eq)]
pub struct Write {
    pub region: u64,
    pub span: Span,
}

/// Tells the policy of writes, in their order. At every point of such a history, what was closed before is closed.
#[tactic(auto, using(crate::proofs::Telling::none_told, crate::proofs::Telling::all_told))]
pub fn tell_all<P: Policy>(policy: &mut P, writes: &[Write])
    ensures { History P.means policy.old writes.now policy.new }
{
    for write in writes {
        policy.told(write.region, write.span);
    }
}
