// The memory that a script supplies. It owns its list, and shows it as the lent kinds show theirs.
ghost use Rattle.std.specs.Prelude.{◌≡◌, ◌*◌, ◌/◌, min, length, replicate, nat_lt, slice_set, IfOk};
ghost use Rattle.script.specs.Supplies.{supplied_beside, supplied_words, supplied_size, supplied_means, frames_for, supplied_laws, zeros_beside, AfterWrite, ZeroList};

use crate::commands::ListKind;
use memory::items::Item;
use memory::list;
use memory::traits::Memory;
use std::alloc::{AllocError, Global};

/// A list of words or of bytes.
#[derive(Drop)]
pub enum Supplied {
    Words(Vec<u64>),
    Bytes(Vec<u8>),
}

// A list of zeros.
fn zeros<T: Item<N>, const N: usize>(heap: Global, size: u64) -> Result<Vec<T>, AllocError>
    ensures words { IfOk result (λ v. T.words v.items ≡ replicate (512 * min (size / (512 * N)) 256) 0) }
    ensures list { IfOk result (λ v. v.items ≡ replicate size T.nought) }
{
    vec![in heap; T::zero(); size as usize]
}

impl Supplied {
    /// A list of zeros. Kind and size are the fields of the command that asks for it, and a struct of the two would only be
    /// taken apart again.
    pub fn zeros(heap: Global, kind: ListKind, size: u64) -> Result<Supplied, AllocError>
        ensures list { IfOk result (ZeroList kind size) }
        ensures words { IfOk result (λ s. supplied_words s ≡ replicate (512 * frames_for kind size) 0) }
        ensures frames { IfOk result (λ s. supplied_size s ≡ frames_for kind size) }
        ensures beside { IfOk result (λ s. supplied_beside s ≡ zeros_beside kind size) }
    {
        Ok(match kind {
            ListKind::Words => Supplied::Words(zeros(heap, size)?),
            ListKind::Bytes => Supplied::Bytes(zeros(heap, size)?),
        })
    }
}

// One call for each kind of list, and the same one: a box of either would have to be made and handed out.
impl Memory for Supplied {
    ghost means = { supplied_means };

    ghost laws = { supplied_laws };

    fn frames(&self) -> u64 {
        match self {
            Supplied::Words(words) => list::frames(words.as_slice()),
            Supplied::Bytes(bytes) => list::frames(bytes.as_slice()),
        }
    }

    fn read(&self, index: u64) -> Option<u64> {
        match self {
            Supplied::Words(words) => list::read(words.as_slice(), index),
            Supplied::Bytes(bytes) => list::read(bytes.as_slice(), index),
        }
    }

    fn write(&mut self, index: u64, value: u64) -> bool
        ensures same { supplied_size self.new ≡ supplied_size self.old }
        ensures done { result ≡ nat_lt index (length (supplied_words self.old)) }
        ensures after { supplied_words self.new ≡ slice_set (supplied_words self.old) index value }
        ensures kept { supplied_beside self.new ≡ supplied_beside self.old }
        ensures list { AfterWrite self.old index value self.new }
    {
        match self {
            Supplied::Words(words) => list::write(words.as_mut_slice(), index, value),
            Supplied::Bytes(bytes) => list::write(bytes.as_mut_slice(), index, value),
        }
    }
}
