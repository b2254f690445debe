// Why a call is refused.

ghost use Rattle.std.specs.Prelude.{◌≡◌, Some};
ghost use Rattle.guard.specs.Refusals.{refusal_number, refusal_text};

use std::error::Error;
use std::fmt;

/// The question that had a no.
#[derive(Clone, Copy, Debug, PartialEq, Eq)]
pub enum Refusal {
    /// The machine was made on figures that no machine can have.
    BadFigures,
    /// There is no such frame.
    NoFrame,
    /// There is no such level.
    NoLevel,
    /// A frame is not plain, or for a take neither plain nor reserve.
    NotPlain,
    /// A writable entry names a frame.
    Writable,
    /// The frame is not a table.
    NotTable,
    /// A table has no such index.
    NoIndex,
    /// The entry names a frame that there is not.
    NamesNoFrame,
    /// The entry would name a large page.
    LargePage,
    /// The entry names no table one level lower.
    NamesNoTable,
    /// The entry is writable, and names a frame that is not plain.
    NamesNotPlain,
    /// The entry is executable, and names a frame that is not code.
    NamesNotCode,
    /// The frame is the root.
    Root,
    /// A present entry one level up names the frame.
    Named,
    /// The frame is not a table of level 4.
    NotTopTable,
    /// The value has not all of the register's starting bits.
    StartingBits,
    /// The policy does not govern the region.
    Ungoverned,
    /// The region was taken before, or for a write or a release it is not live.
    RegionState,
    /// The length is not one that such a call can have.
    Length,
    /// A frame does not exist, or the write does not end inside the region.
    Outside,
    /// The policy says no.
    Forbidden,
    /// The scanner does not pass the frame.
    Unscanned,
    /// The frame is not code.
    NotCode,
    /// An executable entry names the frame.
    Executable,
    /// The journal has no room for the record.
    JournalFull,
    /// The list is shorter than the journal.
    ShortList,
}

// The number of a no.
impl From<Refusal> for u8 {
    ghost from_gives = { λ refusal number. number ≡ refusal_number refusal };

    fn from(refusal: Refusal) -> u8 {
        match refusal {
            Refusal::BadFigures => 1,
            Refusal::NoFrame => 10,
            Refusal::NoLevel => 11,
            Refusal::NotPlain => 12,
            Refusal::Writable => 13,
            Refusal::NotTable => 14,
            Refusal::NoIndex => 15,
            Refusal::NamesNoFrame => 16,
            Refusal::LargePage => 17,
            Refusal::NamesNoTable => 18,
            Refusal::NamesNotPlain => 19,
            Refusal::NamesNotCode => 20,
            Refusal::Root => 21,
            Refusal::Named => 22,
            Refusal::NotTopTable => 23,
            Refusal::StartingBits => 24,
            Refusal::Ungoverned => 25,
            Refusal::RegionState => 26,
            Refusal::Length => 27,
            Refusal::Outside => 28,
            Refusal::Forbidden => 29,
            Refusal::Unscanned => 30,
            Refusal::NotCode => 31,
            Refusal::Executable => 32,
            Refusal::JournalFull => 33,
            Refusal::ShortList => 34,
        }
    }
}

impl fmt::Display for Refusal {
    ghost output = { λ refusal. Some (refusal_text refusal) };

    fn fmt<W: fmt::Write>(&self, f: &mut fmt::Formatter<W>) -> fmt::Result {
        f.write_str(match self {
            Refusal::BadFigures =>
                "the machine was made on bad figures: make another on 8 to 256 frames and 1 to 16 log frames of them",
            Refusal::NoFrame => "there is no such frame: name one below the memory's count",
            Refusal::NoLevel => "there is no such level: name one of 1 to 4",
            Refusal::NotPlain =>
                "a frame is in use: name plain frames, or for a take plain or reserve ones",
            Refusal::Writable =>
                "a writable entry names a frame: first set that entry without bit 1, or not present",
            Refusal::NotTable => "the frame is not a table: declare it first",
            Refusal::NoIndex => "a table has no such entry: name an index of at most 511",
            Refusal::NamesNoFrame =>
                "the entry names a frame that there is not: look at its bits 12 to 51",
            Refusal::LargePage => "the entry would name a large page: clear its bit 7",
            Refusal::NamesNoTable =>
                "the entry names no table one level lower: declare that frame first",
            Refusal::NamesNotPlain =>
                "a writable entry can name a plain frame alone: clear its bit 1",
            Refusal::NamesNotCode =>
                "an executable entry can name a code frame alone: set its bit 63, or accept that frame first",
            Refusal::Root => "the table is the root: load another root first",
            Refusal::Named =>
                "an entry one level up names the table: first set that entry not present",
            Refusal::NotTopTable => "the frame is not a table of level 4: declare one first",
            Refusal::StartingBits =>
                "a starting bit of the register is missing: set it in the value",
            Refusal::Ungoverned => "the policy has no such region: name one below its count",
            Refusal::RegionState => "the region was taken before, or is not live: name another",
            Refusal::Length =>
                "such a call cannot have that length: take 1 to 65536 bytes, write 1 to 1024",
            Refusal::Outside =>
                "this would end outside: a take in the memory's frames, a write in its region",
            Refusal::Forbidden => "the policy forbids it: some of these bytes are closed",
            Refusal::Unscanned =>
                "the frame's code could change the processor's protection: take out that sequence",
            Refusal::NotCode => "the frame is not code: nothing is to be undone",
            Refusal::Executable =>
                "an executable entry names the frame: first set that entry with bit 63, or not present",
            Refusal::JournalFull => "the journal has no room for the record: drain it first",
            Refusal::ShortList => "the list is shorter than the journal: supply a longer one",
        })
    }
}

impl Error for Refusal {}
