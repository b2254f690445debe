// A machine, and what each call does with it.

ghost use Rattle.std.specs.Prelude.{◌≡◌, ◌*◌, IsTrue, true, cond, length, nat_lt, Err, Ok};
ghost use Rattle.guard.specs.Orders.{is_frame};
ghost use Rattle.guard.specs.declared.refusals.Refusal.TheVariants.{BadFigures, NoFrame, Ungoverned};
ghost use Rattle.guard.specs.Calls.{declare, set, retire, take, write, release, accept, unaccept, load_register, load_root, load, store, fetch, drain, done_or_faulted, done_or_refused, drained_or_refused, word_or_faulted, request_of};
ghost use Rattle.guard.specs.States.{good, new_state};
ghost use Rattle.guard.specs.Steps.{Step, piece, with_piece};
ghost use Rattle.guarantee.specs.Guarantee.{Guaranteed, bytes_of_write};
ghost use Rattle.journal.specs.Bytes.{are_bytes};

use frames::figures::LogFigures;
use frames::kinds::{FrameKind, Level};
use frames::numbers::OFFSETS;
use frames::regions::{RegionState, frames_needed};
use guard::calls::{Answer, Call};
use guard::guarded::GuardedMemory;
use guard::packed::Packed;
use guard::refusals::Refusal;
use guard::registers::{Register, Registers};
use journal::records::Record;
use memory::traits::{FRAME_WORDS, Memory};
use paging::entries::Entry;
use paging::faults::{Access, AccessFault};
use policy::span::Span;
use policy::traits::Policy;
use std::marker::Model;

/// A memory with its guard, the registers, and a policy. A machine on figures that no machine can have refuses every call.
#[derive(Drop)]
pub struct Machine<M: Memory, P> {
    sound: bool,
    guarded: GuardedMemory<M>,
    root: Option<u8>,
    registers: Registers,
    policy: P,
}

impl<M: Memory, P> Model for Machine<M, P> {
    ghost use Rattle.guard.specs.States.{State};

    ghost Value = { State P };

    ghost view = { λ m. record { sound = m.sound; guarded = m.guarded; root = m.root; registers = m.registers; policy = m.policy } };
}

impl<M: Memory, P: Policy> Machine<M, P> {
    // The machine that `new` makes, without the guarantee: what is proved of it there follows from this.
    fn made(memory: M, policy: P, first: u64, count: u64) -> Machine<M, P>
        ensures whole { length (M.means.words memory) ≡ 512 * M.means.size memory }
        ensures is { result ≡ new_state M.means memory first count policy }
    {
        let frames = memory.frames();
        let figures = LogFigures {
            frames,
            first,
            count,
        };
        let sound = figures.check().is_ok();
        let guarded = if sound {
            GuardedMemory::new(memory, first as u8, count as u8)
        } else {
            GuardedMemory::new(memory, 0, 0)
        };
        Machine {
            sound,
            guarded,
            root: None,
            registers: Registers::new(),
            policy,
        }
    }

    /// A machine over a memory, with so many log frames from a first one on. On good figures the guarantee holds of every run from here.
    pub fn new(memory: M, policy: P, first: u64, count: u64) -> Machine<M, P>
        ensures is { result ≡ new_state M.means memory first count policy }
        ensures guarantee { IsTrue (good (M.means.size memory) first count) → Guaranteed P.means result }
    {
        Machine::made(memory, policy, first, count)
    }

    // The frame of that number (10), on a machine that was made on good figures (1).
    fn frame(&self, frame: u64) -> Result<u8, Refusal>
        ensures { result ≡ cond self.now.sound (cond (is_frame (self.now.guarded) frame) (Ok frame) (Err NoFrame)) (Err BadFigures) }
    {
        if !self.sound {
            return Err(Refusal::BadFigures);
        }
        if frame >= self.guarded.frame_count() {
            return Err(Refusal::NoFrame);
        }
        Ok(frame as u8)
    }

    // The region of that number, where the policy governs it (25), on a machine that was made on good figures (1).
    fn region(&self, region: u64) -> Result<u8, Refusal>
        ensures { result ≡ cond self.now.sound (cond (nat_lt region (P.means.count self.now.policy)) (Ok region) (Err Ungoverned)) (Err BadFigures) }
    {
        if !self.sound {
            return Err(Refusal::BadFigures);
        }
        if region >= self.policy.regions() {
            return Err(Refusal::Ungoverned);
        }
        Ok(region as u8)
    }

    /// A plain frame becomes a table of a level, and its words become zero.
    pub fn declare(&mut self, frame: u64, level: u64) -> Result<(), Refusal>
        ensures { Step P.means (declare frame level) (done_or_refused result) self.old self.new }
    {
        let table = self.frame(frame)?;
        let level = Level::new(level).ok_or(Refusal::NoLevel)?;
        if self.guarded.kind(u64::from(table)) != Some(FrameKind::Plain) {
            return Err(Refusal::NotPlain);
        }
        if !self.guarded.is_unwritable(u64::from(table), 1) {
            return Err(Refusal::Writable);
        }
        self.guarded.enact(&Record::Declared {
            frame: table,
            level,
        })
    }

    /// An entry is put into a table.
    pub fn set(&mut self, table: u64, index: u64, entry: u64) -> Result<(), Refusal>
        ensures { Step P.means (set table index entry) (done_or_refused result) self.old self.new }
    {
        let table = self.frame(table)?;
        let Some(FrameKind::Table(level)) = self.guarded.kind(u64::from(table)) else {
            return Err(Refusal::NotTable);
        };
        if index >= FRAME_WORDS {
            return Err(Refusal::NoIndex);
        }
        let entry = Entry(entry);
        if entry.is_present() {
            if entry.frame() >= self.guarded.frame_count() {
                return Err(Refusal::NamesNoFrame);
            }
            match level {
                Level::One if !self.guarded.writes_plain(entry) => {
                    return Err(Refusal::NamesNotPlain);
                }
                Level::One if !self.guarded.executes_code(entry) => {
                    return Err(Refusal::NamesNotCode);
                }
                Level::One => {}
                _ if entry.names_large_page() => return Err(Refusal::LargePage),
                _ if !self.guarded.names_lower(level, entry) => {
                    return Err(Refusal::NamesNoTable);
                }
                _ => {}
            }
        }
        self.guarded.enact(&Record::Set {
            table,
            index: index as u16,
            entry: entry.0,
        })
    }

    /// A table becomes plain.
    pub fn retire(&mut self, frame: u64) -> Result<(), Refusal>
        ensures { Step P.means (retire frame) (done_or_refused result) self.old self.new }
    {
        let frame = self.frame(frame)?;
        let Some(FrameKind::Table(level)) = self.guarded.kind(u64::from(frame)) else {
            return Err(Refusal::NotTable);
        };
        if self.root == Some(frame) {
            return Err(Refusal::Root);
        }
        if !self.guarded.is_unnamed_above(level, u64::from(frame)) {
            return Err(Refusal::Named);
        }
        self.guarded.enact(&Record::Retired { frame })
    }

    /// Frames become a region of so many bytes, and their words become zero.
    pub fn take(&mut self, region: u64, first: u64, length: u64) -> Result<(), Refusal>
        ensures { Step P.means (take region first length) (done_or_refused result) self.old self.new }
    {
        let region = self.region(region)?;
        if self.guarded.region(u64::from(region)) != Some(RegionState::Untaken) {
            return Err(Refusal::RegionState);
        }
        if !(1..=OFFSETS).contains(&length) {
            return Err(Refusal::Length);
        }
        let length = length as u32;
        let count = frames_needed(length) as u32;
        let frames = self.guarded.frame_count();
        if u64::from(count) > frames || first > frames - u64::from(count) {
            return Err(Refusal::Outside);
        }
        let first = first as u8;
        if !self.guarded.are_free(first, count) {
            return Err(Refusal::NotPlain);
        }
        if !self
            .guarded
            .is_unwritable(u64::from(first), u64::from(count))
        {
            return Err(Refusal::Writable);
        }
        self.guarded.enact(&Record::Taken {
            region,
            first,
            length,
        })
    }

    /// Bytes are copied into a region, and the policy is told once the journal has room for the record.
    #[tactic(auto, using(guard::proofs::Packings::all_bytes))]
    pub fn write(&mut self, region: u64, offset: u64, bytes: &[u8]) -> Result<(), Refusal>
        ensures bytes { are_bytes bytes.now ≡ true }
        ensures step { Step P.means (write region offset bytes.now) (done_or_refused result) self.old self.new }
    {
        let region = self.region(region)?;
        let Some(RegionState::Live { length: size, .. }) = self.guarded.region(u64::from(region))
        else {
            return Err(Refusal::RegionState);
        };
        let packed = Packed::new(bytes).ok_or(Refusal::Length)?;
        let length = packed.length();
        if length > u64::from(size) || offset > u64::from(size) - length {
            return Err(Refusal::Outside);
        }
        let span = Span::new(offset, length).ok_or(Refusal::Forbidden)?;
        if !self.policy.permits(u64::from(region), span) {
            return Err(Refusal::Forbidden);
        }
        self.guarded.enact_write(region, offset as u16, &packed)?;
        self.policy.told(u64::from(region), span);
        Ok(())
    }

    /// The frames of a region become reserve frames.
    pub fn release(&mut self, region: u64) -> Result<(), Refusal>
        ensures { Step P.means (release region) (done_or_refused result) self.old self.new }
    {
        let region = self.region(region)?;
        let Some(RegionState::Live { .. }) = self.guarded.region(u64::from(region)) else {
            return Err(Refusal::RegionState);
        };
        self.guarded.enact(&Record::Released { region })
    }

    /// A plain frame that the scanner passes becomes code.
    pub fn accept(&mut self, frame: u64) -> Result<(), Refusal>
        ensures { Step P.means (accept frame) (done_or_refused result) self.old self.new }
    {
        let frame = self.frame(frame)?;
        if self.guarded.kind(u64::from(frame)) != Some(FrameKind::Plain) {
            return Err(Refusal::NotPlain);
        }
        if !self.guarded.is_unwritable(u64::from(frame), 1) {
            return Err(Refusal::Writable);
        }
        if !self.guarded.is_scanned(frame) {
            return Err(Refusal::Unscanned);
        }
        self.guarded.enact(&Record::Accepted { frame })
    }

    /// A code frame becomes plain.
    pub fn unaccept(&mut self, frame: u64) -> Result<(), Refusal>
        ensures { Step P.means (unaccept frame) (done_or_refused result) self.old self.new }
    {
        let frame = self.frame(frame)?;
        if self.guarded.kind(u64::from(frame)) != Some(FrameKind::Code) {
            return Err(Refusal::NotCode);
        }
        if !self.guarded.is_unexecutable(u64::from(frame)) {
            return Err(Refusal::Executable);
        }
        self.guarded.enact(&Record::Unaccepted { frame })
    }

    /// A register other than CR3 holds the value.
    pub fn load_register(&mut self, register: Register, value: u64) -> Result<(), Refusal>
        ensures { Step P.means (load_register register value) (done_or_refused result) self.old self.new }
    {
        if !self.sound {
            return Err(Refusal::BadFigures);
        }
        if !register.starts_with(value) {
            return Err(Refusal::StartingBits);
        }
        self.registers = self.registers.with(register, value);
        Ok(())
    }

    /// CR3 holds the value, and the frame in its bits 12 to 51 is the root.
    pub fn load_root(&mut self, value: u64) -> Result<(), Refusal>
        ensures { Step P.means (load_root value) (done_or_refused result) self.old self.new }
    {
        let frame = self.frame(Entry(value).frame())?;
        if self.guarded.kind(u64::from(frame)) != Some(FrameKind::Table(Level::Four)) {
            return Err(Refusal::NotTopTable);
        }
        self.registers.cr3 = value;
        self.root = Some(frame);
        Ok(())
    }

    /// The word at an address.
    pub fn load(&self, address: u64) -> Result<u64, AccessFault>
        ensures { Step P.means (load address) (word_or_faulted result) self.now self.now }
    {
        if !self.sound {
            return Err(AccessFault::BadFigures);
        }
        self.guarded.word_reached(self.root, address, Access::Load)
    }

    /// The word at an address is replaced.
    pub fn store(&mut self, address: u64, value: u64) -> Result<(), AccessFault>
        ensures { Step P.means (store address value) (done_or_faulted result) self.old self.new }
    {
        if !self.sound {
            return Err(AccessFault::BadFigures);
        }
        self.guarded.store_word(self.root, address, value)
    }

    /// The word at an address, to be executed.
    pub fn fetch(&self, address: u64) -> Result<u64, AccessFault>
        ensures { Step P.means (fetch address) (word_or_faulted result) self.now self.now }
    {
        if !self.sound {
            return Err(AccessFault::BadFigures);
        }
        self.guarded.word_reached(self.root, address, Access::Fetch)
    }

    /// The words of the journal that are held are copied to the front of a list, and the journal holds none; or the list is too short (34), and nothing is changed.
    pub fn drain(&mut self, list: &mut [u64]) -> Result<u64, Refusal>
        ensures step { Step P.means (drain (length list.old)) (drained_or_refused result) self.old self.new }
        ensures list { list.new ≡ with_piece (piece (drain (length list.old)) (drained_or_refused result) self.old) list.old }
    {
        if !self.sound {
            return Err(Refusal::BadFigures);
        }
        self.guarded.drain(list)
    }

    /// Carries out a call.
    pub fn perform(&mut self, call: Call<'_>) -> Answer
        ensures bytes { are_bytes (bytes_of_write (request_of call.entry)) ≡ true }
        ensures step { Step P.means (request_of call.entry) result self.old self.new }
    {
        match call {
            Call::Declare { frame, level } => self.declare(frame, level).into(),
            Call::Set {
                table,
                index,
                entry,
            } => self.set(table, index, entry).into(),
            Call::Retire { frame } => self.retire(frame).into(),
            Call::Take {
                region,
                first,
                length,
            } => self.take(region, first, length).into(),
            Call::Write {
                region,
                offset,
                bytes,
            } => self.write(region, offset, bytes).into(),
            Call::Release { region } => self.release(region).into(),
            Call::Accept { frame } => self.accept(frame).into(),
            Call::Unaccept { frame } => self.unaccept(frame).into(),
            Call::LoadRegister { register, value } => self.load_register(register, value).into(),
            Call::LoadRoot { value } => self.load_root(value).into(),
            Call::Load { address } => self.load(address).into(),
            Call::Store { address, value } => self.store(address, value).into(),
            Call::Fetch { address } => self.fetch(address).into(),
        }
    }
}
