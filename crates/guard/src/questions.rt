// Questions that calls ask of what the guard keeps.

ghost use Rattle.std.specs.Prelude.{◌≡◌, ◌≤◌, ◌<◌, ◌+◌, ◌^◌, Some};
ghost use Rattle.frames.specs.Kinds.{can_be_taken};
ghost use Rattle.frames.specs.declared.kinds.FrameKind.TheVariants.{Table};
ghost use Rattle.journal.specs.Pictures.{free_frames};
ghost use Rattle.paging.specs.Entries.{frame_of};
ghost use Rattle.guard.specs.Orders.{executes_code, is_one_lower, kind_of, unexecutable, unnamed_above, unwritable, writes_plain};
ghost use Rattle.guard.specs.Scans.{scanned};

use crate::guarded::GuardedMemory;
use crate::scans::{Sought, passes};
use frames::kinds::{FrameKind, Level};
use memory::traits::Memory;
use paging::entries::Entry;

impl<M: Memory> GuardedMemory<M> {
    // Whether a frame can be taken.
    fn is_free(&self, frame: u64) -> bool
        ensures { result ≡ can_be_taken (kind_of self.now frame) }
    {
        self.kind(frame).is_some_and(FrameKind::can_be_taken)
    }

    /// Whether each of so many frames from a first one on is plain or reserve.
    #[tactic(auto, unfolding(journal::specs::Pictures::free_frames), using(journal::proofs::Fillings::one_more_free, journal::proofs::Fillings::one_not_free))]
    pub fn are_free(&self, first: u8, count: u32) -> bool
        ensures { result ≡ free_frames self.now.picture.kinds first count }
    {
        for k in 0..count {
            if !self.is_free(u64::from(first) + u64::from(k)) {
                return false;
            }
        }
        true
    }

    /// Whether no writable entry anywhere names one of so many frames from a first one on.
    pub fn is_unwritable(&self, first: u64, count: u64) -> bool
        ensures { result ≡ unwritable self.now first count }
    {
        self.has_no_entry(Level::One, Sought::Writable { first, count })
    }

    /// Whether no executable entry anywhere names a frame.
    pub fn is_unexecutable(&self, frame: u64) -> bool
        ensures { result ≡ unexecutable self.now frame }
    {
        self.has_no_entry(Level::One, Sought::Executable { frame })
    }

    /// Whether no present entry one level above a table of a level names it.
    pub fn is_unnamed_above(&self, level: Level, frame: u64) -> bool
        ensures { result ≡ unnamed_above self.now (Some (Table level)) frame }
    {
        match Level::new(u64::from(u8::from(level)) + 1) {
            Some(above) => self.has_no_entry(above, Sought::Present { frame }),
            None => true,
        }
    }

    /// Whether the scanner passes a frame.
    pub fn is_scanned(&self, frame: u8) -> bool
        ensures { result ≡ scanned self.now.picture.words frame }
    {
        passes(self.framed.memory(), u64::from(frame))
    }

    /// Whether an entry names a table one level lower than one of this level.
    pub fn names_lower(&self, level: Level, entry: Entry) -> bool
        ensures { result ≡ is_one_lower (Some (Table level)) (kind_of self.now (frame_of entry.0)) }
    {
        match self.kind(entry.frame()) {
            Some(FrameKind::Table(lower)) => u8::from(lower) + 1 == u8::from(level),
            _ => false,
        }
    }

    /// Whether an entry names a plain frame, or is not writable.
    pub fn writes_plain(&self, entry: Entry) -> bool
        ensures { result ≡ writes_plain self.now entry.0 }
    {
        !entry.is_writable() || matches!(self.kind(entry.frame()), Some(FrameKind::Plain))
    }

    /// Whether an entry names a code frame, or is not executable.
    pub fn executes_code(&self, entry: Entry) -> bool
        ensures { result ≡ executes_code self.now entry.0 }
    {
        entry.is_no_execute() || matches!(self.kind(entry.frame()), Some(FrameKind::Code))
    }
}
