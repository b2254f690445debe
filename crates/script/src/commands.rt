// The commands of a script, and how a line is read into one.
ghost use Rattle.std.specs.Prelude.{◌≡◌, ◌==◌, false, [], is_some, length, vec_items, IsTrue, Some};
ghost use Rattle.std.specs.List.{list_all};
ghost use Rattle.std.specs.Option.{ok_or, option_map};
ghost use Rattle.script.specs.Commands.{set_apart, said, echo, kind_of, kind_name, most, machine_of, memory_of, word_of, drain_of, scan_of, split_of, numbers_behind, is_hexadecimal, journal_of, records_of, play_of, spelled, reading, takes_list, asks_for_list};
ghost use Rattle.text.specs.Lines.{after_word, first_word, words_of};
ghost use Rattle.text.specs.Outcomes.{Gives, wants_memory};
ghost use Rattle.text.specs.Texts.{hexadecimal};
ghost use Rattle.text.specs.declared.outcomes.Unread.TheVariants.{Unreadable};

use crate::calls::{Asked, call_named};
use crate::operands::{ends, next_word, one_word, place_and_word, two_numbers};
use std::alloc::Global;
use std::fmt;
use text::lines::{Words, command_part, line_text};
use text::numbers::{bytes, decimal, hexadecimal};
use text::outcomes::Unread;
use text::printing::{HexBytes, Hexadecimal};

/// What a supplied list is made of.
#[derive(Clone, Copy, Debug, PartialEq, Eq)]
pub enum ListKind {
    Words,
    Bytes,
}

impl ListKind {
    /// The longest list of this kind that a script may supply.
    pub fn longest(self) -> u64
        ensures { result ≡ most self }
    {
        match self {
            ListKind::Words => 1_048_576,
            ListKind::Bytes => 8_388_608,
        }
    }
}

// A kind by its name.
impl TryFrom<&[u8]> for ListKind {
    type Error = Unread;

    ghost try_from_gives = { λ word result. result ≡ ok_or (kind_of word.now) Unreadable };

    fn try_from(word: &[u8]) -> Result<ListKind, Unread> {
        match word {
            b"words" => Ok(ListKind::Words),
            b"bytes" => Ok(ListKind::Bytes),
            _ => Err(Unread::Unreadable),
        }
    }
}

impl fmt::Display for ListKind {
    ghost output = { λ kind. Some (kind_name kind) };

    fn fmt<W: fmt::Write>(&self, f: &mut fmt::Formatter<W>) -> fmt::Result {
        match self {
            ListKind::Words => write!(f, "words"),
            ListKind::Bytes => write!(f, "bytes"),
        }
    }
}

/// What a line asks for.
#[derive(Debug, Drop)]
pub enum Command {
    Memory { kind: ListKind, size: u64 },
    Word { frame: u64, index: u64, value: u64 },
    Machine { first: u64, count: u64 },
    Call(Asked),
    /// Drain the journal into a list of that length.
    Drain { length: u64 },
    Scan { bytes: Vec<u8> },
    Split { address: u64 },
    Journal { words: Vec<u64> },
    Records,
    /// Play with the log figures of the machine.
    PlayLog,
    Play { first: u64, count: u64 },
}

// Words that are shown in hexadecimal, each behind a blank.
#[derive(Clone, Copy)]
pub(crate) struct HexWords<'a>(pub(crate) &'a [u64]);

impl fmt::Display for HexWords<'_> {
    ghost output = { λ w. Some (set_apart hexadecimal w.0.now) };

    fn fmt<W: fmt::Write>(&self, f: &mut fmt::Formatter<W>) -> fmt::Result {
        for &word in self.0 {
            write!(f, " {}", Hexadecimal(word))?;
        }
        Ok(())
    }
}

// A command as it is printed, in one form.
impl fmt::Display for Command {
    ghost output = { λ command. Some (echo (said command)) };

    fn fmt<W: fmt::Write>(&self, f: &mut fmt::Formatter<W>) -> fmt::Result {
        match self {
            Command::Memory { kind, size } => write!(f, "memory {kind} {size}"),
            Command::Word {
                frame,
                index,
                value,
            } => write!(f, "word {frame} {index} {}", Hexadecimal(*value)),
            Command::Machine { first, count } => write!(f, "machine {first} {count}"),
            Command::Call(asked) => write!(f, "{asked}"),
            Command::Drain { length } => write!(f, "drain {length}"),
            Command::Scan { bytes } => write!(f, "scan {}", HexBytes(bytes.as_slice())),
            Command::Split { address } => write!(f, "split {}", Hexadecimal(*address)),
            Command::Journal { words } => write!(f, "journal{}", HexWords(words.as_slice())),
            Command::Records => write!(f, "records"),
            Command::PlayLog => write!(f, "play"),
            Command::Play { first, count } => write!(f, "play {first} {count}"),
        }
    }
}

// The names of the commands.
const MEMORY: &[u8] = b"memory";

const WORD: &[u8] = b"word";

const MACHINE: &[u8] = b"machine";

const DRAIN: &[u8] = b"drain";

const SCAN: &[u8] = b"scan";

const SPLIT: &[u8] = b"split";

const JOURNAL: &[u8] = b"journal";

const RECORDS: &[u8] = b"records";

const PLAY: &[u8] = b"play";

// memory words N, memory bytes N: the words behind the first
#[tactic(auto, unfolding(crate::specs::Commands::memory_of, text::specs::Lines::after_words))]
fn memory_command(words: &mut Words<'_>) -> Result<Command, Unread>
    ensures wants { wants_memory result ≡ false }
    ensures gives { Gives said result (memory_of words.old) }
{
    let kind = ListKind::try_from(next_word(words))?;
    let size = decimal(next_word(words)).ok_or(Unread::Unreadable)?;
    if size <= kind.longest() && ends(words) {
        return Ok(Command::Memory { kind, size });
    }
    Err(Unread::Unreadable)
}

// word FRAME INDEX WORD: the words behind the first
fn word_command(words: &mut Words<'_>) -> Option<Command>
    ensures { option_map said result ≡ word_of words.old }
{
    let (frame, index, value) = place_and_word(words)?;
    Some(Command::Word {
        frame,
        index,
        value,
    })
}

// machine FIRST COUNT: the words behind the first
fn machine_command(words: &mut Words<'_>) -> Option<Command>
    ensures { option_map said result ≡ machine_of words.old }
{
    let (first, count) = two_numbers(words)?;
    Some(Command::Machine { first, count })
}

// drain LENGTH: the word behind the first
#[tactic(auto, unfolding(crate::specs::Commands::drain_of, text::specs::Lines::after_words))]
fn drain_command(words: &mut Words<'_>) -> Option<Command>
    ensures { option_map said result ≡ drain_of words.old }
{
    let length = decimal(next_word(words))?;
    if length > ListKind::Words.longest() {
        return None;
    }
    ends(words).then_some(Command::Drain { length })
}

// scan BYTES: the words behind the first
#[tactic(auto, unfolding(crate::specs::Commands::scan_of, text::specs::Lines::after_words))]
fn scan_command(heap: Global, words: &mut Words<'_>) -> Result<Command, Unread>
    ensures wants { IsTrue (wants_memory result) → IsTrue (is_some (scan_of words.old)) }
    ensures gives { Gives said result (scan_of words.old) }
{
    let word = next_word(words);
    if !ends(words) {
        return Err(Unread::Unreadable);
    }
    let bytes = bytes(heap, word)?;
    Ok(Command::Scan { bytes })
}

// split ADDRESS: the word behind the first
fn split_command(words: &mut Words<'_>) -> Option<Command>
    ensures { option_map said result ≡ split_of words.old }
{
    let address = one_word(words)?;
    Some(Command::Split { address })
}

// The numbers that words write in hexadecimal.
#[tactic(auto, unfolding(crate::specs::Commands::numbers_behind))]
fn hexadecimals(heap: Global, words: &mut Words<'_>) -> Result<Vec<u64>, Unread>
    ensures { Gives vec_items result (numbers_behind [] (words_of words.old)) }
{
    let mut numbers = Vec::new(heap);
    for word in words {
        numbers.push(hexadecimal(word).ok_or(Unread::Unreadable)?)?;
    }
    Ok(numbers)
}

// Whether each of the words writes a number in hexadecimal.
fn are_hexadecimal(words: &mut Words<'_>) -> bool
    ensures { result ≡ list_all is_hexadecimal (words_of words.old) }
{
    for word in words {
        if hexadecimal(word).is_none() {
            return false;
        }
    }
    true
}

// Whether there is a word in a text, and each writes a number.
#[tactic(auto, using(crate::proofs::Numbers::none_there, crate::proofs::Numbers::read_where))]
fn are_numbers(text: &[u8]) -> bool
    ensures { result ≡ is_some (journal_of text.now) }
{
    Words::new(text).next().is_some() && are_hexadecimal(&mut Words::new(text))
}

// journal WORD WORD ..: the words behind the first. Room is asked for only where there are some and all of them can be read.
#[tactic(auto, using(crate::proofs::Numbers::none_read, crate::proofs::Numbers::none_behind, crate::proofs::Numbers::read))]
fn journal_command(heap: Global, words: &mut Words<'_>) -> Result<Command, Unread>
    ensures wants { IsTrue (wants_memory result) → IsTrue (is_some (journal_of words.old)) }
    ensures gives { Gives said result (journal_of words.old) }
{
    if !are_numbers(words.rest()) {
        return Err(Unread::Unreadable);
    }
    let words = hexadecimals(heap, words)?;
    Ok(Command::Journal { words })
}

// records: nothing stands behind it
#[tactic(auto, unfolding(crate::specs::Commands::records_of, text::specs::Lines::after_words))]
fn records_command(words: &mut Words<'_>) -> Result<Command, Unread>
    ensures wants { wants_memory result ≡ false }
    ensures gives { Gives said result (records_of words.old) }
{
    if ends(words) {
        return Ok(Command::Records);
    }
    Err(Unread::Unreadable)
}

// play FIRST COUNT, or play alone: the words behind the first
#[tactic(auto, unfolding(crate::specs::Commands::play_of, text::specs::Lines::after_words))]
fn play_command(words: &mut Words<'_>) -> Option<Command>
    ensures { option_map said result ≡ play_of words.old }
{
    let Some(first) = words.next() else {
        return Some(Command::PlayLog);
    };
    let first = decimal(first)?;
    let count = decimal(next_word(words))?;
    ends(words).then_some(Command::Play { first, count })
}

// The command of that name, with the words behind it. The names are compared one by one: of a `match` on them the way
// through a name of six bytes is not proved.
fn named(heap: Global, name: &[u8], words: &mut Words<'_>) -> Result<Command, Unread>
    ensures wants { IsTrue (wants_memory result) → IsTrue (takes_list name.now) × IsTrue (is_some (spelled name.now words.old)) }
    ensures gives { Gives said result (spelled name.now words.old) }
{
    if name == MEMORY {
        return memory_command(words);
    }
    if name == WORD {
        return word_command(words).ok_or(Unread::Unreadable);
    }
    if name == MACHINE {
        return machine_command(words).ok_or(Unread::Unreadable);
    }
    if name == DRAIN {
        return drain_command(words).ok_or(Unread::Unreadable);
    }
    if name == SCAN {
        return scan_command(heap, words);
    }
    if name == SPLIT {
        return split_command(words).ok_or(Unread::Unreadable);
    }
    if name == JOURNAL {
        return journal_command(heap, words);
    }
    if name == RECORDS {
        return records_command(words);
    }
    if name == PLAY {
        return play_command(words).ok_or(Unread::Unreadable);
    }
    let call = call_named(heap, name, words)?;
    Ok(Command::Call(call))
}

/// Reads a line, with or without its line end. A line that holds no word before its comment asks for nothing.
#[tactic(auto, unfolding(text::specs::Lines::after_words))]
pub fn read(heap: Global, line: &[u8]) -> Result<Option<Command>, Unread>
    ensures wants { IsTrue (wants_memory result) → IsTrue (asks_for_list line.now) × IsTrue (is_some (reading line.now)) }
    ensures gives { Gives (option_map said) result (reading line.now) }
{
    let mut words = Words::new(command_part(line_text(line)));
    let Some(name) = words.next() else {
        return Ok(None);
    };
    let command = named(heap, name, &mut words)?;
    Ok(Some(command))
}
