// A script line and its words. Lines are bytes: a script need not be valid text.
ghost use Rattle.std.specs.Prelude.{◌≡◌, slice_get, ◌==◌, ℕ, Bool, ◌<◌, ◌≤◌, List, [], length, MatchOption, ⊤};
ghost use Rattle.std.specs.Fn.{CalledAt};
ghost use Rattle.std.specs.Iterator.{YieldsFirstBy, item_count, MakesProgress};
ghost use Rattle.std.specs.List.{prefix_len, position_or_len, suffix_len};
ghost use Rattle.std.specs.Option.{option_copied};
ghost use Rattle.std.specs.Str.{bytes_eq};
ghost use Rattle.text.specs.Layout.{WordsFound};
ghost use Rattle.text.specs.Lines.{blank, chopped, line_text, command_part, unindented, first_word, after_word, next_word, word_at, words_of, trimmed, shown_text};

use std::marker::Model;

fn is_blank(byte: u8) -> bool
    ensures { result ≡ blank byte }
{
    matches!(byte, b' ' | b'\t')
}

// The line less one byte `end`, where it ends with it.
fn without(line: &[u8], end: u8) -> &[u8]
    ensures { result.now ≡ chopped end line.now }
{
    line.strip_suffix(&[end]).unwrap_or(line)
}

/// The line without its line feed, and without a carriage return before that.
pub fn line_text(line: &[u8]) -> &[u8]
    ensures { result.now ≡ line_text line.now }
{
    without(without(line, b'\n'), b'\r')
}

/// What stands before the line's comment.
pub fn command_part(line: &[u8]) -> &[u8]
    ensures { result.now ≡ command_part line.now }
{
    &line[..run_length(line, |byte| **byte != b'#')]
}

// How many bytes at the front of the text belong to a run, where the closure answers as some test `p` does.
fn run_length<F: FnMut(&&u8) -> bool + Drop>(text: &[u8], belongs: F) -> usize
    requires { (f : _) (x : _) → F.pre f x }
    ensures value { (p : ℕ → Bool) → ((x : _) (b : Bool) (q : F) → CalledAt F.FnMut belongs x b q → (q ≡ belongs) × (b ≡ p x.now)) → result ≡ prefix_len p text.now }
    ensures bound { result ≤ length text.now }
{
    text.iter().take_while(belongs).count()
}

fn blanks_at_end(text: &[u8]) -> usize
    ensures value { result ≡ suffix_len blank text.now }
    ensures bound { result ≤ length text.now }
{
    text.iter()
        .rev()
        .take_while(|byte| is_blank(**byte))
        .count()
}

fn without_indent(text: &[u8]) -> &[u8]
    ensures { result.now ≡ unindented text.now }
{
    let (_, rest) = text.split_at(run_length(text, |byte| is_blank(**byte)));
    rest
}

/// The words of a text in turn. A clause sees the text that is left.
#[derive(Drop)]
pub struct Words<'a> {
    left: &'a [u8],
}

impl<'a> Model for Words<'a> {
    ghost Value = { List ℕ };

    ghost view = { λ w. w.left.now };
}

impl<'a> Words<'a> {
    pub fn new(text: &'a [u8]) -> Words<'a>
        ensures { result ≡ text.now }
    {
        Words { left: text }
    }

    /// The text that is left.
    pub fn rest(&self) -> &'a [u8]
        ensures { result.now ≡ self.now }
    {
        let Words { left } = self;
        *left
    }
}

impl<'a> Iterator for Words<'a> {
    type Item = &'a [u8];

    ghost next_gives = { YieldsFirstBy (λ w. w.now) words_of };

    ghost remaining = { item_count words_of };

    #[tactic(auto, using(crate::proofs::Finding::yields, crate::proofs::Finding::nearer))]
    fn next(&mut self) -> Option<&'a [u8]>
        ensures word { option_copied result ≡ next_word self.old }
        ensures cases { MatchOption result (first_word self.old ≡ []) (λ w. (w.now ≡ first_word self.old) × (0 < length w.now)) }
        ensures left { self.new ≡ after_word self.old }
        ensures steps { YieldsFirstBy (λ w. w.now) words_of self.old result self.new }
        ensures goes { MakesProgress (λ _. ⊤) (item_count words_of) self.old result self.new }
    {
        let rest = without_indent(self.left);
        let (word, left) = rest.split_at(run_length(rest, |byte| !is_blank(**byte)));
        self.left = left;
        (!word.is_empty()).then_some(word)
    }
}

fn nth_word(text: &[u8], place: usize) -> Option<&[u8]>
    ensures { option_copied result ≡ slice_get (words_of text.now) place }
{
    Words::new(text).nth(place)
}

/// The word at a place of the text, counted from 0; empty where the text has fewer words.
#[tactic(auto, using(crate::proofs::Finding::word_found))]
pub fn word(text: &[u8], place: usize) -> &[u8]
    ensures { result.now ≡ word_at text.now place }
{
    nth_word(text, place).unwrap_or(b"")
}

/// Whether the word at a place of the text is spelled like a name.
pub fn is_word(text: &[u8], place: usize, name: &[u8]) -> bool
    ensures { result ≡ bytes_eq (word_at text.now place) name.now }
{
    word(text, place) == name
}

// The text without the blanks at its two ends.
fn trimmed(text: &[u8]) -> &[u8]
    ensures { result.now ≡ trimmed text.now }
{
    let rest = without_indent(text);
    &rest[..rest.len() - blanks_at_end(rest)]
}

/// The line as it is shown: without its line end, and without the blanks at its two ends.
pub fn shown_text(line: &[u8]) -> &[u8]
    ensures { result.now ≡ shown_text line.now }
{
    trimmed(line_text(line))
}

/// Every text is words set apart by blanks, and `word` finds each of them at its place.
pub fn words_are_found()
    ensures { WordsFound }
{}
