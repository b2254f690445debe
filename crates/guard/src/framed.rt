// A memory and its frame table as one: each word is written and each kind changed here.

ghost use Rattle.std.specs.Prelude.{◌≡◌, ◌≤◌, ◌<◌, ◌+◌, ◌^◌, length, replicate, slice_get, slice_set};
ghost use Rattle.frames.specs.declared.kinds.FrameKind.TheVariants.{Plain};
ghost use Rattle.journal.specs.Pictures.{filled};
ghost use Rattle.guard.specs.Tables.{over_kinds, over_words};

use crate::table::FrameTable;
use frames::kinds::FrameKind;
use memory::traits::Memory;
use std::marker::Model;

/// A memory, and what is known of each of its frames.
#[derive(Drop)]
pub struct Framed<M: Memory> {
    memory: M,
    table: FrameTable,
    count: u16,
}

impl<M: Memory> Model for Framed<M> {
    ghost use Rattle.std.specs.Prelude.{take};
    ghost use Rattle.guard.specs.Tables.{Frames, kinds_of};

    ghost Value = { Frames };

    ghost view = { λ f. record {
      words = M.means.words f.memory;
      kinds = take f.count (kinds_of f.table);
      beside = M.means.beside f.memory;
    } };
}

impl<M: Memory> Framed<M> {
    /// A memory whose frames are all plain.
    #[tactic(auto, using(crate::proofs::Tables::plain_kinds))]
    pub fn new(memory: M) -> Framed<M>
        ensures { result ≡ record {
          words = M.means.words memory;
          kinds = replicate (M.means.size memory) Plain;
          beside = M.means.beside memory;
        } }
    {
        let count = memory.frames() as u16;
        Framed {
            memory,
            table: FrameTable::new(),
            count,
        }
    }

    /// The memory, to be read.
    pub fn memory(&self) -> &M
        ensures words { M.means.words result.now ≡ self.now.words }
        ensures beside { M.means.beside result.now ≡ self.now.beside }
    {
        &self.memory
    }

    /// How many frames there are.
    pub fn count(&self) -> u64
        ensures is { result ≡ length self.now.kinds }
        ensures few { result ≤ 256 }
    {
        u64::from(self.count).min(self.table.size())
    }

    /// The kind of a frame, or nothing where there is no such frame.
    pub fn kind(&self, frame: u64) -> Option<FrameKind>
        ensures { result ≡ slice_get self.now.kinds frame }
    {
        if frame >= self.count() {
            return None;
        }
        Some(self.table.kind(frame as u8))
    }

    /// Replaces a word, where there is one.
    pub fn write(&mut self, place: u64, value: u64)
        ensures { self.new ≡ over_words self.old (slice_set self.old.words place value) }
    {
        let _ = self.memory.write(place, value);
    }

    /// Gives a frame another kind, where there is such a frame.
    #[tactic(auto, using(crate::proofs::Tables::one_among))]
    pub fn change(&mut self, frame: u8, kind: FrameKind)
        ensures { self.new ≡ over_kinds self.old (slice_set self.old.kinds frame kind) }
    {
        self.table.change(frame, kind);
    }

    // The same by a number of any size.
    #[tactic(auto, using(crate::proofs::Tables::none_past))]
    fn change_one(&mut self, frame: u64, kind: FrameKind)
        ensures { self.new ≡ over_kinds self.old (slice_set self.old.kinds frame kind) }
    {
        if frame < self.count() {
            self.change(frame as u8, kind);
        }
    }

    /// Gives so many frames from a first one on another kind.
    #[tactic(auto, unfolding(journal::specs::Pictures::filled), using(journal::proofs::Fillings::filled_more))]
    pub fn turn(&mut self, first: u64, count: u64, kind: FrameKind)
        requires { first + count < 2 ^ 64 }
        ensures { self.new ≡ over_kinds self.old (filled self.old.kinds first count kind) }
    {
        for k in 0..count {
            self.change_one(first + k, kind);
        }
    }
}
