// Policies on examples: spans at the edges, each kind's figures, and pairs with 16 regions and with more.

use crate::append_only::AppendOnly;
use crate::free::Free;
use crate::history::{Write, tell_all};
use crate::pair::Pair;
use crate::span::Span;
use crate::traits::Policy;
use crate::write_once::WriteOnce;
use std::process::Abort;

type Twice<P> = Pair<P, P>;

// Two policies that are made alike, side by side.
fn twice<P: Policy, F: Fn() -> P>(make: F) -> Twice<P>
    requires { F.IsAlwaysCallable make }
{
    Pair::new(make(), make())
}

fn sixteen() -> Twice<Twice<Twice<Twice<AppendOnly>>>> {
    twice(|| twice(|| twice(|| twice(AppendOnly::new))))
}

// Asks about a stretch; what is no span is not permitted.
fn asks<P: Policy>(policy: &P, region: u64, offset: u64, length: u64) -> bool {
    Span::new(offset, length).is_some_and(|span| policy.permits(region, span))
}

// Tells of a write.
fn tells<P: Policy>(rt: &impl Abort, policy: &mut P, region: u64, offset: u64, length: u64) {
    let span = Span::new(offset, length).expect(rt, "these make a span");
    tell_all(policy, &[Write { region, span }]);
}

// The region takes a write of its first 16 bytes, once, and no other region is the worse for it.
fn appends<P: Policy>(rt: &impl Abort, policy: &mut P, region: u64, other: u64) {
    assert!(rt; asks(policy, region, 0, 16));
    tells(rt, policy, region, 0, 16);
    assert!(rt; !asks(policy, region, 15, 1));
    assert!(rt; asks(policy, region, 16, 1));
    assert!(rt; asks(policy, other, 0, 16));
}

#[test]
fn spans(rt: HostRuntime) {
    let last = Span::new(65535, 1).expect(&rt, "the last span");
    assert_eq!(rt; last.offset(), 65535);
    assert_eq!(rt; last.length(), 1);
    assert_eq!(rt; last.end(), 65536);
    assert!(rt; Span::new(0, 65536).is_some());
    for (offset, length) in [
        (65535, 2),
        (65536, 0),
        (65536, 1),
        (0, 0),
        (0, 65537),
        (u64::MAX, 1),
        (u64::MAX, 2),
        (2, u64::MAX),
        (0xffff_ffff, 2),
    ] {
        assert!(rt; Span::new(offset, length).is_none());
    }
}

#[test]
fn write_once(rt: HostRuntime) {
    let mut policy = WriteOnce::new();
    assert_eq!(rt; policy.regions(), 1);
    assert!(rt; asks(&policy, 0, 4095, 1));
    assert!(rt; !asks(&policy, 0, 4095, 2));
    assert!(rt; !asks(&policy, 0, 4096, 1));
    tells(&rt, &mut policy, 0, 100, 10);
    assert!(rt; asks(&policy, 0, 0, 100) && asks(&policy, 0, 110, 3986));
    assert!(rt; !asks(&policy, 0, 100, 1) && !asks(&policy, 0, 109, 1));
    assert!(rt; !asks(&policy, 0, 90, 11));
    tells(&rt, &mut policy, 0, 90, 11);
    assert!(rt; asks(&policy, 0, 90, 10));
    tells(&rt, &mut policy, 1, 90, 10);
    assert!(rt; asks(&policy, 0, 90, 10));
    assert!(rt; !asks(&policy, 1, 0, 1) && !asks(&policy, u64::MAX, 0, 1));
}

#[test]
fn append_only(rt: HostRuntime) {
    let mut policy = AppendOnly::new();
    assert_eq!(rt; policy.regions(), 1);
    assert!(rt; asks(&policy, 0, 65535, 1));
    tells(&rt, &mut policy, 0, 0, 16);
    assert!(rt; !asks(&policy, 0, 15, 1));
    assert!(rt; asks(&policy, 0, 16, 1));
    tells(&rt, &mut policy, 0, 15, 100);
    assert!(rt; asks(&policy, 0, 16, 1));
    tells(&rt, &mut policy, 0, 65535, 1);
    assert!(rt; !asks(&policy, 0, 65535, 1));
    assert!(rt; !asks(&policy, 1, 0, 1) && !asks(&policy, u64::MAX, 0, 1));
}

#[test]
fn free(rt: HostRuntime) {
    let mut policy = Free::new();
    assert_eq!(rt; policy.regions(), 1);
    tells(&rt, &mut policy, 0, 0, 65536);
    assert!(rt; asks(&policy, 0, 0, 65536));
    assert!(rt; !asks(&policy, 1, 0, 1) && !asks(&policy, u64::MAX, 0, 1));
}

#[test]
fn sixteen_regions(rt: HostRuntime) {
    let mut policy = sixteen();
    assert_eq!(rt; policy.regions(), 16);
    appends(&rt, &mut policy, 0, 1);
    appends(&rt, &mut policy, 7, 8);
    appends(&rt, &mut policy, 15, 14);
    assert!(rt; !asks(&policy, 16, 0, 1) && !asks(&policy, u64::MAX, 0, 1));
}

#[test]
fn more_than_sixteen_regions(rt: HostRuntime) {
    let mut policy = Pair::new(Pair::new(WriteOnce::new(), Free::new()), sixteen());
    assert_eq!(rt; policy.regions(), 16);
    assert!(rt; asks(&policy, 0, 0, 4096) && !asks(&policy, 0, 4096, 1));
    assert!(rt; asks(&policy, 1, 0, 65536));
    appends(&rt, &mut policy, 2, 3);
    appends(&rt, &mut policy, 15, 14);
    assert!(rt; !asks(&policy, 16, 0, 1) && !asks(&policy, 17, 0, 1));
    let mut policy = Pair::new(sixteen(), WriteOnce::new());
    assert_eq!(rt; policy.regions(), 16);
    appends(&rt, &mut policy, 15, 14);
    assert!(rt; !asks(&policy, 16, 0, 1));
}
