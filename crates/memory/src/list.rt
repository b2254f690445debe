// A memory in a list of items: its whole frames are shown, and what lies behind them is never touched.

ghost use Rattle.std.specs.Prelude.{◌≡◌, ℕ, ◌*◌, ◌<◌, ◌≤◌, length, nat_lt, slice_index, slice_set};
ghost use Rattle.memory.specs.Memories.{behind, frames_in, word_at, written};

use crate::items::Item;
use crate::traits::{FRAME_WORDS, MOST_FRAMES};

/// How many whole frames the list shows: 0 to 256.
pub fn frames<T: Item<N>, const N: usize>(list: &[T]) -> u64
    ensures is { result ≡ frames_in (512 * N) list.now }
    ensures whole { length (T.words list.now) ≡ 512 * result }
    ensures few { result ≤ 256 }
{
    (list.len() as u64 / (FRAME_WORDS * N as u64)).min(MOST_FRAMES)
}

// How many words the list shows: `slice_set` from there on changes none of them.
fn count<T: Item<N>, const N: usize>(list: &[T]) -> u64
    ensures is { result ≡ 512 * frames_in (512 * N) list.now }
    ensures all { result ≡ length (T.words list.now) }
    ensures past { (i v : ℕ) → result ≤ i → slice_set (T.words list.now) i v ≡ T.words list.now }
{
    FRAME_WORDS * frames(list)
}

// A word that the list shows.
fn get<T: Item<N>, const N: usize>(list: &[T], index: u64) -> u64
    requires { index < 512 * frames_in (512 * N) list.now }
    ensures { result ≡ slice_index (T.words list.now) index }
{
    let (words, _) = list.as_chunks::<N>();
    T::word(words[index as usize])
}

// Replaces a word that the list shows. Its items are found by their place: `as_chunks_mut` promises nothing of what the
// list ends as. A single item is stored and not copied as a run, which would take three times the instructions.
fn put<T: Item<N>, const N: usize>(list: &mut [T], index: u64, value: u64)
    requires { index < 512 * frames_in (512 * N) list.old }
    ensures list { list.new ≡ T.put list.old index value }
    ensures rest { behind (512 * N) list.new ≡ behind (512 * N) list.old }
    ensures after { T.words list.new ≡ slice_set (T.words list.old) index value }
    ensures same { frames_in (512 * N) list.new ≡ frames_in (512 * N) list.old }
{
    let at = N * index as usize;
    match T::items(value).as_slice() {
        [item] => list[at] = *item,
        items => list[at..at + N].copy_from_slice(items),
    }
}

/// The word at the index, or nothing where the list shows none.
pub fn read<T: Item<N>, const N: usize>(list: &[T], index: u64) -> Option<u64>
    ensures { result ≡ word_at (T.words list.now) index }
{
    // Of `then` with a closure in place of the `if` the proof does not close.
    if index < count(list) {
        Some(get(list, index))
    } else {
        None
    }
}

/// Replaces the word at the index and says yes, or says no where the list shows none: a bool, as in the trait `Memory`.
pub fn write<T: Item<N>, const N: usize>(list: &mut [T], index: u64, value: u64) -> bool
    ensures list { list.new ≡ written N T.put list.old index value }
    ensures rest { behind (512 * N) list.new ≡ behind (512 * N) list.old }
    ensures done { result ≡ nat_lt index (length (T.words list.old)) }
    ensures after { T.words list.new ≡ slice_set (T.words list.old) index value }
    ensures same { frames_in (512 * N) list.new ≡ frames_in (512 * N) list.old }
{
    if index >= count(list) {
        return false;
    }
    put(list, index, value);
    true
}
