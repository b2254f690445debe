// What every kind of memory does.

ghost use Rattle.std.specs.Prelude.{◌≡◌, ◌*◌, ◌≤◌, length, nat_lt, slice_index, slice_set};
ghost use Rattle.memory.specs.Memories.{Lawful, Meaning, word_at};

/// The words of a frame, which is 4,096 bytes.
pub const FRAME_WORDS: u64 = 512;

/// No memory shows more frames.
pub const MOST_FRAMES: u64 = 256;

/// Some whole frames of words, whose count never changes. Every index of 64 bits gets an answer.
pub trait Memory {
    // Its words, how many frames they are, and what stands beside them.
    ghost means: { Meaning Self };

    /// How many frames there are: 0 to 256.
    fn frames(&self) -> u64
        ensures is { result ≡ means.size self.now }
        ensures whole { length (means.words self.now) ≡ 512 * result }
        ensures few { result ≤ 256 };

    /// The word at the index, or nothing where there is none.
    fn read(&self, index: u64) -> Option<u64>
        ensures { result ≡ word_at (means.words self.now) index };

    /// The word at the index, or zero where there is none.
    fn word(&self, index: u64) -> u64
        ensures { result ≡ slice_index (means.words self.now) index }
    {
        self.read(index).unwrap_or(0)
    }

    /// Replaces the word at the index and says yes, or says no where there is none: a plain bool, as a set's `insert`
    /// answers, for no value stands beside it. What stands beside the words is kept either way.
    fn write(&mut self, index: u64, value: u64) -> bool
        ensures same { means.size self.new ≡ means.size self.old }
        ensures done { result ≡ nat_lt index (length (means.words self.old)) }
        ensures after { means.words self.new ≡ slice_set (means.words self.old) index value }
        ensures kept { means.beside self.new ≡ means.beside self.old };

    // What holds of all of these.
    ghost laws: { Lawful means };
}
