// The two kinds of memory: over a lent list of words, and over a lent list of bytes.

ghost use Rattle.std.specs.Prelude.{◌≡◌, ◌*◌, ◌≤◌, [], ◌∷◌, length, nat_lt, slice_set};
ghost use Rattle.memory.specs.Items.{list_laws};
ghost use Rattle.memory.specs.Memories.{behind, beside_list, frames_in, list_means, word_at, written};

use crate::items::Item;
use crate::list;
use crate::traits::Memory;

/// The memory that the whole frames of a lent list make, 256 at the most. Clauses name its field: a model would show the
/// list, but not the loan, by which a lender learns what was written.
#[derive(Drop)]
pub struct Lent<'a, T, const N: usize> {
    list: &'a mut [T],
}

/// Over a list of words.
pub type Words<'a> = Lent<'a, u64, 1>;

/// Over a list of bytes, eight to a word.
pub type Bytes<'a> = Lent<'a, u8, 8>;

impl<'a, T: Item<N>, const N: usize> Lent<'a, T, N> {
    /// Shows the lent list. By the name of the loan the lender learns what was written.
    pub fn new(list: &'a mut [T]) -> Self
        ensures same { result.list.now ≡ list.old }
        ensures lender { result.list.ghost_name ≡ list.entry.ghost_name }
    {
        Lent { list }
    }
}

impl<T: Item<N>, const N: usize> Memory for Lent<'_, T, N> {
    ghost means = { list_means N T.words T.numbers (λ m. m.list.now) (λ m. m.list.ghost_name ∷ []) };

    ghost laws = { list_laws T.laws T.numbers (λ m. m.list.now) (λ m. m.list.ghost_name ∷ []) };

    fn frames(&self) -> u64
        ensures is { result ≡ frames_in (512 * N) self.now.list.now }
        ensures whole { length (T.words self.now.list.now) ≡ 512 * result }
        ensures few { result ≤ 256 }
    {
        list::frames(self.list)
    }

    fn read(&self, index: u64) -> Option<u64>
        ensures { result ≡ word_at (T.words self.now.list.now) index }
    {
        list::read(self.list, index)
    }

    fn write(&mut self, index: u64, value: u64) -> bool
        ensures same { frames_in (512 * N) self.new.list.now ≡ frames_in (512 * N) self.old.list.now }
        ensures done { result ≡ nat_lt index (length (T.words self.old.list.now)) }
        ensures after { T.words self.new.list.now ≡ slice_set (T.words self.old.list.now) index value }
        ensures list { self.new.list.now ≡ written N T.put self.old.list.now index value }
        ensures rest { behind (512 * N) self.new.list.now ≡ behind (512 * N) self.old.list.now }
        ensures kept { beside_list N T.numbers self.new.list.now (self.new.list.ghost_name ∷ [])
            ≡ beside_list N T.numbers self.old.list.now (self.old.list.ghost_name ∷ []) }
        ensures lender { self.new.list.ghost_name ≡ self.old.list.ghost_name }
    {
        list::write(self.list, index, value)
    }
}
