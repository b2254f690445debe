// The words that stand behind the name of a command. Numbers are decimal, words hexadecimal.
ghost use Rattle.std.specs.Prelude.{◌≡◌, ◌==◌, length};
ghost use Rattle.text.specs.Lines.{after_word, first_word};
ghost use Rattle.script.specs.Operands.{one_number, one_word, place_and_word, three_numbers, two_numbers, two_words};

use text::lines::Words;
use text::numbers::{decimal, hexadecimal};

// The next word of a text; empty where there is none.
pub(crate) fn next_word<'a>(words: &mut Words<'a>) -> &'a [u8]
    ensures is { result.now ≡ first_word words.old }
    ensures after { words.new ≡ after_word words.old }
{
    words.next().unwrap_or(b"")
}

// Whether no word is left.
pub(crate) fn ends(words: &mut Words<'_>) -> bool
    ensures is { result ≡ (length (first_word words.old) == 0) }
    ensures after { words.new ≡ after_word words.old }
{
    words.next().is_none()
}

// NUMBER, and no word behind it
#[tactic(auto, unfolding(crate::specs::Operands::one_number, text::specs::Lines::after_words))]
pub(crate) fn one_number(words: &mut Words<'_>) -> Option<u64>
    ensures { result ≡ one_number words.old }
{
    let number = decimal(next_word(words))?;
    ends(words).then_some(number)
}

// NUMBER NUMBER
#[tactic(auto, unfolding(crate::specs::Operands::two_numbers, text::specs::Lines::after_words))]
pub(crate) fn two_numbers(words: &mut Words<'_>) -> Option<(u64, u64)>
    ensures { result ≡ two_numbers words.old }
{
    let first = decimal(next_word(words))?;
    let second = decimal(next_word(words))?;
    ends(words).then_some((first, second))
}

// NUMBER NUMBER NUMBER
#[tactic(auto, unfolding(crate::specs::Operands::three_numbers, text::specs::Lines::after_words))]
pub(crate) fn three_numbers(words: &mut Words<'_>) -> Option<(u64, u64, u64)>
    ensures { result ≡ three_numbers words.old }
{
    let first = decimal(next_word(words))?;
    let second = decimal(next_word(words))?;
    let third = decimal(next_word(words))?;
    ends(words).then_some((first, second, third))
}

// NUMBER NUMBER WORD
#[tactic(auto, unfolding(crate::specs::Operands::place_and_word, text::specs::Lines::after_words))]
pub(crate) fn place_and_word(words: &mut Words<'_>) -> Option<(u64, u64, u64)>
    ensures { result ≡ place_and_word words.old }
{
    let first = decimal(next_word(words))?;
    let second = decimal(next_word(words))?;
    let word = hexadecimal(next_word(words))?;
    ends(words).then_some((first, second, word))
}

// WORD
#[tactic(auto, unfolding(crate::specs::Operands::one_word, text::specs::Lines::after_words))]
pub(crate) fn one_word(words: &mut Words<'_>) -> Option<u64>
    ensures { result ≡ one_word words.old }
{
    let word = hexadecimal(next_word(words))?;
    ends(words).then_some(word)
}

// WORD WORD
#[tactic(auto, unfolding(crate::specs::Operands::two_words, text::specs::Lines::after_words))]
pub(crate) fn two_words(words: &mut Words<'_>) -> Option<(u64, u64)>
    ensures { result ≡ two_words words.old }
{
    let first = hexadecimal(next_word(words))?;
    let second = hexadecimal(next_word(words))?;
    ends(words).then_some((first, second))
}
