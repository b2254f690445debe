// What a memory's list is made of: words, or the bytes of words.

ghost use Rattle.std.specs.Prelude.{◌≡◌, ℕ, List, [], ◌∷◌, slice_set};
ghost use Rattle.memory.specs.ByteLaws.{byte_facts};
ghost use Rattle.memory.specs.ByteOrder.{first, words_of, bytes_of, put_word, ByteOrder};
ghost use Rattle.memory.specs.ItemLaws.{shows};
ghost use Rattle.memory.specs.Items.{sole, Shows};
ghost use Rattle.memory.specs.Memories.{shown};
ghost use Rattle.memory.specs.WordLaws.{word_facts};

/// An item of a list, where each word is N of them. Its ghost members stay single: clauses name `words` and `put` alone,
/// and only the two records of facts take all of them together.
pub trait Item<const N: usize>: Copy {
    // The word that so many items make.
    ghost word_in: { List Self → ℕ };

    // The items of a word.
    ghost items_of: { ℕ → List Self };

    // The item of which the word 0 is made.
    ghost nought: { Self };

    // The items of a list as numbers.
    ghost numbers: { List Self → List ℕ };

    // The words of the whole frames of a list.
    ghost words: { List Self → List ℕ };

    // A list with a word put into it.
    ghost put: { List Self → ℕ → ℕ → List Self };

    /// The word that the items make.
    fn word(items: [Self; N]) -> u64
        ensures { result ≡ word_in items };

    /// The items of the word.
    fn items(word: u64) -> [Self; N]
        ensures { result ≡ items_of word };

    /// The item that is nought.
    fn zero() -> Self
        ensures { result ≡ nought };

    // What holds of all of these.
    ghost laws: { Shows N word_in items_of nought words put };

    // A clone of an item is that item.
    ghost clones: { (item clone : Self) → Self.Clone.is_clone item clone → clone ≡ item };
}

impl Item<1> for u64 {
    ghost word_in = { sole };

    ghost items_of = { λ w. w ∷ [] };

    ghost nought = { 0 };

    ghost clones = { λ _ _ same. same };

    ghost numbers = { λ list. list };

    ghost words = { shown };

    ghost put = { slice_set };

    ghost laws = { shows word_facts };

    fn word(items: [u64; 1]) -> u64
        ensures { result ≡ sole items }
    {
        let [word] = items;
        word
    }

    fn items(word: u64) -> [u64; 1]
        ensures { result ≡ word ∷ [] }
    {
        [word]
    }

    fn zero() -> u64
        ensures { result ≡ 0 }
    {
        0
    }
}

impl Item<8> for u8 {
    ghost word_in = { first };

    ghost items_of = { bytes_of };

    ghost nought = { 0 };

    ghost clones = { λ _ _ same. same };

    ghost numbers = { λ list. list };

    ghost words = { words_of };

    ghost put = { put_word };

    ghost laws = { shows byte_facts };

    #[tactic(auto, unfolding(crate::specs::ByteOrder::word_of))]
    fn word(items: [u8; 8]) -> u64
        ensures { result ≡ first items }
    {
        u64::from_le_bytes(items)
    }

    fn items(word: u64) -> [u8; 8]
        ensures { result ≡ bytes_of word }
    {
        word.to_le_bytes()
    }

    fn zero() -> u8
        ensures { result ≡ 0 }
    {
        b'\0'
    }
}

/// The order of bytes: a word begins with its low byte.
pub fn byte_order_stands()
    ensures { ByteOrder }
{}
