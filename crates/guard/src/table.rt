// What is known of each frame.

ghost use Rattle.std.specs.Prelude.{◌≡◌, length, replicate, slice_get, slice_set, Some};
ghost use Rattle.frames.specs.declared.kinds.FrameKind.TheVariants.{Plain};
ghost use Rattle.guard.specs.Tables.{kinds_of};

use frames::kinds::FrameKind;
use memory::traits::MOST_FRAMES;

// There is a record for each frame that a memory can have.
const RECORDS: usize = MOST_FRAMES as usize;

// What is known of one frame.
#[derive(Clone, Copy, Debug)]
struct FrameRecord {
    kind: FrameKind,
}

/// One record for each frame that a memory can have.
#[derive(Debug, Drop)]
pub struct FrameTable {
    records: [FrameRecord; RECORDS],
}

impl FrameTable {
    /// A table of plain frames.
    #[tactic(auto, using(crate::proofs::Tables::all_alike))]
    pub fn new() -> FrameTable
        ensures { kinds_of result ≡ replicate 256 Plain }
    {
        FrameTable {
            records: [FrameRecord {
                kind: FrameKind::Plain,
            }; RECORDS],
        }
    }

    /// How many records there are.
    pub fn size(&self) -> u64
        ensures is { result ≡ length (kinds_of self.now) }
        ensures all { result ≡ 256 }
    {
        self.records.len() as u64
    }

    /// The kind in a record.
    pub fn kind(&self, frame: u8) -> FrameKind
        ensures { slice_get (kinds_of self.now) frame ≡ Some result }
    {
        self.records[frame as usize].kind
    }

    /// Changes one record, in its place.
    #[tactic(auto, using(crate::proofs::Tables::one_changed))]
    pub fn change(&mut self, frame: u8, kind: FrameKind)
        ensures { kinds_of self.new ≡ slice_set (kinds_of self.old) frame kind }
    {
        self.records[frame as usize].kind = kind;
    }
}
