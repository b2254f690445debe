// Looking through the entries of every table there is, and through the code of a frame.

ghost use Rattle.std.specs.Prelude.{◌≡◌, ◌≤◌, ◌<◌, ◌+◌, ◌↔◌, ◌&&◌, not, IsTrue, slice_get};
ghost use Rattle.paging.specs.Entries.{entry_at};
ghost use Rattle.guard.specs.Scans.{EntryByEntry, clear_table, is_table_of, left_to_scan, no_entry, scanned, wanted};

use crate::guarded::GuardedMemory;
use frames::kinds::{FrameKind, Level};
use memory::traits::{FRAME_WORDS, Memory};
use paging::entries::Entry;
use scanner::Scanner;

/// Which entries are looked for.
#[derive(Clone, Copy, Debug, PartialEq, Eq)]
pub enum Sought {
    /// Writable ones that name one of so many frames from a first one on.
    Writable { first: u64, count: u64 },
    /// Executable ones that name the frame.
    Executable { frame: u64 },
    /// Present ones that name the frame.
    Present { frame: u64 },
}

impl Sought {
    // Whether an entry is one of these. Frame numbers are compared whole, and no sum is formed.
    fn is(self, entry: Entry) -> bool
        ensures { result ≡ wanted self entry.0 }
    {
        if !entry.is_present() {
            return false;
        }
        match self {
            Sought::Writable { first, count } => {
                entry.is_writable() && entry.frame() >= first && entry.frame() - first < count
            }
            Sought::Executable { frame } => !entry.is_no_execute() && entry.frame() == frame,
            Sought::Present { frame } => entry.frame() == frame,
        }
    }
}

// An entry of a table.
fn entry_of<M: Memory>(memory: &M, table: u64, index: u64) -> Entry
    requires table { table < 256 }
    requires index { index < 512 }
    ensures { result.0 ≡ entry_at (M.means.words memory.now) table index }
{
    Entry(memory.word(FRAME_WORDS * table + index))
}

// Whether no entry of a table is one of those that are looked for.
#[tactic(auto, using(crate::proofs::Scanning::no_entry_yet, crate::proofs::Scanning::entry_clear, crate::proofs::Scanning::entry_wanted))]
fn is_clear<M: Memory>(memory: &M, table: u64, sought: Sought) -> bool
    requires { table < 256 }
    ensures { result ≡ clear_table (M.means.words memory.now) sought table 512 }
{
    for index in 0..FRAME_WORDS {
        if sought.is(entry_of(memory, table, index)) {
            return false;
        }
    }
    true
}

// Scans a word of a frame; says no where it completes a forbidden sequence.
#[tactic(auto, using(crate::proofs::Scanning::fed_on))]
fn scan_word<M: Memory>(memory: &M, frame: u64, index: u64, scanner: &mut Scanner) -> bool
    requires frame { frame < 256 }
    requires index { index < 512 }
    ensures { left_to_scan (M.means.words memory.now) frame index scanner.old
        ≡ (result && left_to_scan (M.means.words memory.now) frame (index + 1) scanner.new) }
{
    let Entry(word) = entry_of(memory, frame, index);
    scanner.feed_word(word).is_ok()
}

// Whether the scanner passes the bytes of a frame.
#[tactic(auto, using(crate::proofs::Scanning::frame_start, crate::proofs::Scanning::frame_more, crate::proofs::Scanning::frame_stop, crate::proofs::Scanning::frame_end))]
pub(crate) fn passes<M: Memory>(memory: &M, frame: u64) -> bool
    requires { frame < 256 }
    ensures { result ≡ scanned (M.means.words memory.now) frame }
{
    let mut scanner = Scanner::new();
    for index in 0..FRAME_WORDS {
        if !scan_word(memory, frame, index, &mut scanner) {
            return false;
        }
    }
    scanner.may_end()
}

impl<M: Memory> GuardedMemory<M> {
    // Whether a frame is a table of that level.
    fn is_table_of(&self, frame: u64, level: Level) -> bool
        ensures { result ≡ is_table_of level (slice_get self.now.picture.kinds frame) }
    {
        self.kind(frame) == Some(FrameKind::Table(level))
    }

    // Whether a frame is a table of that level and has an entry that is looked for.
    fn holds(&self, frame: u64, level: Level, sought: Sought) -> bool
        requires { frame < 256 }
        ensures { let kind = slice_get self.now.picture.kinds frame in
            result ≡ (is_table_of level kind && not (clear_table self.now.picture.words sought frame 512)) }
    {
        self.is_table_of(frame, level) && !is_clear(self.framed.memory(), frame, sought)
    }

    /// Whether no entry of any table of a level is one of those that are looked for.
    #[tactic(auto, using(crate::proofs::Scanning::no_table_yet, crate::proofs::Scanning::table_clear, crate::proofs::Scanning::table_wanted, crate::proofs::Scanning::none_anywhere))]
    pub fn has_no_entry(&self, level: Level, sought: Sought) -> bool
        ensures is { result ≡ no_entry self.now.picture level sought }
        ensures each { EntryByEntry }
    {
        for table in 0..self.frame_count() {
            if self.holds(table, level, sought) {
                return false;
            }
        }
        true
    }
}
