// The walk from an address to its word.

ghost use Rattle.std.specs.Prelude.{◌≡◌, ◌<◌, ◌^◌, IfOk, IfSome};
ghost use Rattle.frames.specs.Questions.{refusal, first_no};
ghost use Rattle.paging.specs.Addresses.{part_at};
ghost use Rattle.paging.specs.Entries.{entry_at, present};
ghost use Rattle.paging.specs.Questions.{access_questions, fault_number, translated, place_reached};
ghost use Rattle.paging.specs.Walks.{AnswersTranslate, FaultsSay, lack_of, or_fault, permits, walked};

use crate::addresses::{is_aligned, is_canonical, split};
use crate::entries::Entry;
use crate::faults::{Access, AccessFault, Lack, Stopped, WalkFault};
use crate::parts::Split;
use frames::kinds::Level;
use memory::traits::{FRAME_WORDS, Memory};

// An entry that is present, and where it was read.
#[derive(Clone, Copy)]
struct Found {
    entry: Entry,
    level: Level,
    table: u64,
}

// Reads the entry of a table of a level at the address's index for it, and refuses it where it is not present. A word that the
// memory does not have is read as 0.
fn read_entry<M: Memory>(
    memory: &M,
    table: u64,
    parts: Split,
    level: Level,
) -> Result<Found, WalkFault>
    requires table { table < 2 ^ 40 }
    requires index { part_at level parts < 512 }
    ensures { let word = entry_at (M.means.words memory.now) table (part_at level parts) in result ≡ or_fault (present word) (record { entry = record { 0 = word }; level = level; table = table }) Lack.Absent level table }
{
    let at = FRAME_WORDS * table + u64::from(parts.index(level));
    let entry = Entry(memory.word(at));
    if !entry.is_present() {
        return Err(WalkFault {
            lack: Lack::Absent,
            level,
            table,
        });
    }
    Ok(Found {
        entry,
        level,
        table,
    })
}

impl Found {
    // Refuses the access where the entry does not permit it.
    fn permit(self, access: Access) -> Result<(), WalkFault>
        ensures { result ≡ or_fault (permits access self.entry.0) tt (lack_of access) self.level self.table }
    {
        let lack = match access {
            Access::Store if !self.entry.is_writable() => Lack::ReadOnly,
            Access::Fetch if self.entry.is_no_execute() => Lack::NoExecute,
            Access::Load | Access::Store | Access::Fetch => return Ok(()),
        };
        Err(WalkFault {
            lack,
            level: self.level,
            table: self.table,
        })
    }
}

// The frame that an address reaches from the root on. Presence is asked at all four levels before what the access needs.
fn reach<M: Memory>(memory: &M, root: u8, address: u64, access: Access) -> Result<u64, WalkFault>
    ensures is { result ≡ walked (M.means.words memory.now) root address access }
    ensures few { IfOk result (λ frame. frame < 2 ^ 40) }
{
    let parts = split(address);
    let four = read_entry(memory, u64::from(root), parts, Level::Four)?;
    let three = read_entry(memory, four.entry.frame(), parts, Level::Three)?;
    let two = read_entry(memory, three.entry.frame(), parts, Level::Two)?;
    let one = read_entry(memory, two.entry.frame(), parts, Level::One)?;
    four.permit(access)?;
    three.permit(access)?;
    two.permit(access)?;
    one.permit(access)?;
    Ok(one.entry.frame())
}

/// The same, and what such answers mean: this follows from the other, of any memory.
#[tactic(auto, using(crate::proofs::Walking::answers_translate, crate::proofs::Walking::faults_say))]
pub fn walk<M: Memory>(memory: &M, root: u8, address: u64, access: Access) -> Result<u64, WalkFault>
    ensures is { result ≡ walked (M.means.words memory.now) root address access }
    ensures few { IfOk result (λ frame. frame < 2 ^ 40) }
    ensures answers { AnswersTranslate }
    ensures faults { FaultsSay }
{
    reach(memory, root, address, access)
}

/// The index in the memory of the word that an address reaches.
pub fn translate<M: Memory>(
    memory: &M,
    root: Option<u8>,
    address: u64,
    access: Access,
) -> Result<u64, AccessFault>
    ensures number { refusal fault_number result ≡ first_no (access_questions (M.means.words memory.now) root address access) }
    ensures reaches { IfOk result (λ index. IfSome root (λ r. index ≡ place_reached (M.means.words memory.now) r address)) }
    ensures carries { result ≡ translated (M.means.words memory.now) root address access }
{
    if !is_canonical(address) {
        return Err(AccessFault::NotCanonical);
    }
    if !is_aligned(address) {
        return Err(AccessFault::Unaligned);
    }
    let Some(root) = root else {
        return Err(AccessFault::NoRoot);
    };
    let page = walk(memory, root, address, access).map_err(|fault| Stopped {
        fault,
        address,
        access,
    })?;
    Ok(FRAME_WORDS * page + u64::from(split(address).offset / 8))
}
