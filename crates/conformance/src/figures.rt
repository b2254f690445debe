// The marked figures for acceptance, and what the engine's functions answer on them.

ghost use Rattle.std.specs.Prelude.{◌≡◌, ◌≤◌, ◌++◌, drop, length, replicate};
ghost use Rattle.journal.specs.Records.{change_of, encode};
ghost use Rattle.policy.specs.Policies.{permitted};
ghost use Rattle.conformance.specs.Figures.{Figures, after_write, marked};

use frames::regions::frames_needed;
use journal::records::{Record, Stretch};
use memory::kinds::Words;
use paging::addresses::split;
use paging::faults::Access;
use paging::parts::Split;
use paging::walk::translate;
use policy::append_only::AppendOnly;
use policy::span::Span;
use policy::traits::Policy;
use policy::write_once::WriteOnce;
use scanner::passes;

/// The addresses that are split.
pub const ADDRESSES: [u64; 3] = [0x0000_7fff_ffff_fff8, 0xffff_8000_0000_0000, 0x20_1008];

/// An address that is not canonical.
pub const BEYOND: u64 = 0x0000_8000_0000_0000;

/// The runs of bytes that are scanned.
pub const RUNS: [&[u8]; 4] = [
    &[0x0f, 0x0f, 0x30],
    &[0x0f, 0x01, 0x18],
    &[0x0f, 0x01, 0xd8, 0x00],
    &[0x0f, 0x01, 0x0f, 0x22],
];

/// What the engine's functions answer.
#[derive(Clone, Copy, Debug, PartialEq, Eq)]
pub struct Answers {
    /// The parts of each of the addresses.
    pub parts: [Split; 3],
    /// The number of the refusal of a load, a store and a fetch at the address that is not canonical.
    pub refusals: [u8; 3],
    /// Whether the scanner passes each of the runs.
    pub passes: [bool; 4],
    /// Whether a new write-once region can be written at offset 4,095, with length 1 and with length 2.
    pub once: [bool; 2],
    /// Whether an append-only region can be written at offset 15 and at offset 16, with length 1, once 16 bytes were written at its front.
    pub appended: [bool; 2],
    /// The record of region 1, taken at frame 9 with 4,097 bytes, and how many frames that are.
    pub taken: u64,
    pub frames: u64,
    /// The record of 61 62 63, written at offset 16 of that region.
    pub written: [u64; 3],
}

// The number of an access's refusal, or 0 where it is not refused.
fn refusal(access: Access) -> u8
    ensures { result ≡ 40 }
{
    let mut words = [];
    let memory = Words::new(&mut words);
    match translate(&memory, None, BEYOND, access) {
        Ok(_) => 0,
        Err(fault) => u8::from(fault),
    }
}

// Whether a policy permits a write to its first region; no policy does where the two make no span.
fn permits<P: Policy>(policy: &P, offset: u64, length: u64) -> bool
    ensures { result ≡ permitted (P.means.opens policy.now 0) offset length }
{
    match Span::new(offset, length) {
        Some(span) => policy.permits(0, span),
        None => false,
    }
}

// What a new write-once region permits.
#[tactic(auto, using(crate::proofs::Figuring::once_last, crate::proofs::Figuring::once_past))]
fn once() -> [bool; 2]
    ensures { result ≡ marked.once }
{
    let policy = WriteOnce::new();
    [permits(&policy, 4095, 1), permits(&policy, 4095, 2)]
}

// Tells an append-only policy of a write at the beginning of its region, if there is such a span.
#[tactic(auto, using(crate::proofs::Figuring::not_told))]
fn append(policy: &mut AppendOnly, length: u64)
    ensures { policy.new ≡ after_write policy.old 0 length }
{
    if let Some(span) = Span::new(0, length) {
        policy.told(0, span);
    }
}

// What an append-only region permits, once 16 bytes were written at its front.
#[tactic(auto, using(crate::proofs::Figuring::appended_below, crate::proofs::Figuring::appended_next))]
fn after_append() -> [bool; 2]
    ensures { result ≡ marked.appended }
{
    let mut policy = AppendOnly::new();
    append(&mut policy, 16);
    [permits(&policy, 15, 1), permits(&policy, 16, 1)]
}

// The words of a record of at most three, with zeros behind them.
fn words_of(said: &Record<'_>) -> [u64; 3]
    requires { length (encode (change_of said.now)) ≤ 3 }
    ensures { result ≡ encode (change_of said.now) ++ drop (length (encode (change_of said.now))) (replicate 3 0) }
{
    let mut words = [0; 3];
    said.encode(&mut words);
    words
}

// The record of a region that is taken.
fn taken() -> u64
    ensures { result ≡ marked.taken }
{
    let taken = Record::Taken {
        region: 1,
        first: 9,
        length: 4097,
    };
    let [word, _, _] = words_of(&taken);
    word
}

// The record of a write into it.
#[tactic(auto, using(crate::proofs::Figuring::three_bytes, crate::proofs::Figuring::one_word))]
fn written() -> [u64; 3]
    ensures { result ≡ marked.written }
{
    let stretch = Stretch {
        words: &[0x63_6261],
        place: 0,
        length: 3,
    };
    words_of(&Record::Written {
        region: 1,
        offset: 16,
        stretch,
    })
}

/// What the engine's functions answer: the figures, which are what the definitions say.
#[tactic(auto, using(crate::proofs::Figuring::figures))]
pub fn compute() -> Answers
    ensures is { result ≡ marked }
    ensures figures { Figures }
{
    Answers {
        parts: ADDRESSES.map(split),
        refusals: [Access::Load, Access::Store, Access::Fetch].map(refusal),
        passes: RUNS.map(|run| passes(run)),
        once: once(),
        appended: after_append(),
        taken: taken(),
        frames: frames_needed(4097) as u64,
        written: written(),
    }
}
