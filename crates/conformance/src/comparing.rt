// A printed line beside the one that was expected.

ghost use Rattle.std.specs.Prelude.{◌≡◌, ◌↔◌, IsTrue};
ghost use Rattle.conformance.specs.Comparing.{Expected, agrees, names_level, is_place};

use frames::kinds::Level;
use text::lines::{is_word, word};
use text::numbers::decimal;

// Whether a number is that of a level.
fn names_level(number: Option<u64>) -> bool
    ensures { result ≡ names_level number }
{
    number.and_then(Level::new).is_some()
}

// Whether a text is the place of a walk's fault, and nothing else.
fn is_place(text: &[u8]) -> bool
    ensures { result ≡ is_place text.now }
{
    is_word(text, 0, b"at")
        && is_word(text, 1, b"level")
        && names_level(decimal(word(text, 2)))
        && is_word(text, 3, b"in")
        && is_word(text, 4, b"table")
        && decimal(word(text, 5)).is_some()
        && word(text, 6).is_empty()
}

// Whether a printed line begins with the expected one, and nothing or a place stands behind that.
fn continues(expected: &[u8], printed: &[u8]) -> bool
    ensures { result ≡ agrees expected.now printed.now }
{
    match printed.strip_prefix(expected) {
        Some(rest) => rest.is_empty() || is_place(rest),
        None => false,
    }
}

/// Whether a printed line is the expected one, in which the place of a walk's fault may be left out. What such answers mean follows from the
/// other, of any two lines.
pub fn agrees(expected: &[u8], printed: &[u8]) -> bool
    ensures is { result ≡ agrees expected.now printed.now }
    ensures means { IsTrue result ↔ Expected expected.now printed.now }
{
    continues(expected, printed)
}
