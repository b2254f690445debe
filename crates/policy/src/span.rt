// Spans: the only stretches of a region that are ever asked about or written.

ghost use Rattle.std.specs.Prelude.{◌≡◌, ◌+◌, ◌≤◌};
ghost use Rattle.std.specs.Option.{option_map};
ghost use Rattle.policy.specs.Spans.{span_of};

use frames::numbers::OFFSETS;

/// Some of a region's offsets, one or more, that lie one behind the other. Both fields count bytes.
#[derive(Clone, Copy, Debug, PartialEq, Eq)]
pub struct Span {
    pub offset: u64,
    pub length: u64,
    ghost some: { 1 ≤ length },
    ghost inside: { offset + length ≤ 65536 },
}

impl Span {
    /// The span, or nothing where the two make none: where the length is 0, or the end past 65,536.
    // No sum is formed that could wrap.
    pub fn new(offset: u64, length: u64) -> Option<Span>
        ensures { option_map (λ s. (s.offset, s.length)) result ≡ span_of offset length }
    {
        if length == 0 || length > OFFSETS || offset > OFFSETS - length {
            return None;
        }
        Some(Span { offset, length })
    }

    /// Its first offset: 0 to 65,535. This call and the next are for those who would rather not name a field.
    pub fn offset(self) -> u64
        ensures { result ≡ self.offset }
    {
        self.offset
    }

    /// How many offsets it has: 1 to 65,536.
    pub fn length(self) -> u64
        ensures is { result ≡ self.length }
        ensures some { 1 ≤ result }
    {
        self.length
    }

    /// The offset behind its last one: 1 to 65,536.
    pub fn end(self) -> u64
        ensures is { result ≡ self.offset + self.length }
        ensures inside { result ≤ 65536 }
    {
        let Span { offset, length } = self;
        offset + length
    }
}
