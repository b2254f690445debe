// Why an access is refused.

ghost use Rattle.std.specs.Prelude.{◌≡◌, Some};
ghost use Rattle.paging.specs.Faults.{access_text, fault_text, lack_text, stopped_text, walk_text};
ghost use Rattle.paging.specs.Questions.{fault_number, lack_number, stopped_in};
ghost use Rattle.paging.specs.declared.faults.AccessFault.TheVariants.{Walk};

use frames::kinds::Level;
use std::error::Error;
use std::fmt;

/// What an access does with the word at its address.
#[derive(Clone, Copy, Debug, PartialEq, Eq)]
pub enum Access {
    Load,
    Store,
    Fetch,
}

impl fmt::Display for Access {
    ghost output = { λ access. Some (access_text access) };

    fn fmt<W: fmt::Write>(&self, f: &mut fmt::Formatter<W>) -> fmt::Result {
        match self {
            Access::Load => write!(f, "load"),
            Access::Store => write!(f, "store"),
            Access::Fetch => write!(f, "fetch"),
        }
    }
}

/// What an entry lacks.
#[derive(Clone, Copy, Debug, PartialEq, Eq)]
pub enum Lack {
    /// It is not present.
    Absent,
    /// It permits no store: its bit 1 is clear.
    ReadOnly,
    /// It permits no fetch: its bit 63 is set.
    NoExecute,
}

// The number of a walk's no.
impl From<Lack> for u8 {
    ghost from_gives = { λ lack number. number ≡ lack_number lack };

    fn from(lack: Lack) -> u8 {
        match lack {
            Lack::Absent => 43,
            Lack::ReadOnly => 44,
            Lack::NoExecute => 45,
        }
    }
}

impl fmt::Display for Lack {
    ghost output = { λ lack. Some (lack_text lack) };

    fn fmt<W: fmt::Write>(&self, f: &mut fmt::Formatter<W>) -> fmt::Result {
        match self {
            Lack::Absent => write!(f, "the entry is not present: set one that is"),
            Lack::ReadOnly => write!(f, "the entry permits no store: set one with bit 1 set"),
            Lack::NoExecute => write!(f, "the entry permits no fetch: set one with bit 63 clear"),
        }
    }
}

impl Error for Lack {}

/// Where a walk ended: what the entry lacked, the level, and the table from which the entry was read.
#[derive(Clone, Copy, Debug, PartialEq, Eq)]
pub struct WalkFault {
    pub lack: Lack,
    pub level: Level,
    pub table: u64,
}

impl fmt::Display for WalkFault {
    ghost output = { λ fault. Some (walk_text fault) };

    fn fmt<W: fmt::Write>(&self, f: &mut fmt::Formatter<W>) -> fmt::Result {
        write!(
            f,
            "level {}, table {}: {}",
            u8::from(self.level),
            self.table,
            self.lack
        )
    }
}

impl Error for WalkFault {}

/// The walk's fault whole, with the address and the access beside it.
#[derive(Clone, Copy, Debug, PartialEq, Eq)]
pub struct Stopped {
    pub fault: WalkFault,
    pub address: u64,
    pub access: Access,
}

impl fmt::Display for Stopped {
    ghost output = { λ stopped. Some (stopped_text stopped) };

    fn fmt<W: fmt::Write>(&self, f: &mut fmt::Formatter<W>) -> fmt::Result {
        write!(
            f,
            "the {} at {:X} ended at {}",
            self.access, self.address, self.fault
        )
    }
}

impl Error for Stopped {}

/// Why an access is refused.
#[derive(Clone, Copy, Debug, PartialEq, Eq)]
pub enum AccessFault {
    /// The machine was made on figures that no machine can have.
    BadFigures,
    /// Bits 48 to 63 of the address do not repeat its bit 47.
    NotCanonical,
    /// The address is not a multiple of 8.
    Unaligned,
    /// No root was loaded.
    NoRoot,
    /// The walk ended at an entry.
    Walk(Stopped),
}

// The number of an access's no.
impl From<AccessFault> for u8 {
    ghost from_gives = { λ fault number. number ≡ fault_number fault };

    fn from(fault: AccessFault) -> u8 {
        match fault {
            AccessFault::BadFigures => 1,
            AccessFault::NotCanonical => 40,
            AccessFault::Unaligned => 41,
            AccessFault::NoRoot => 42,
            AccessFault::Walk(stopped) => stopped.fault.lack.into(),
        }
    }
}

impl From<Stopped> for AccessFault {
    ghost from_gives = { λ stopped fault. fault ≡ Walk stopped };

    fn from(stopped: Stopped) -> AccessFault {
        AccessFault::Walk(stopped)
    }
}

impl AccessFault {
    /// Where the walk ended, if it was the walk.
    pub fn stopped(self) -> Option<Stopped>
        ensures { result ≡ stopped_in self }
    {
        match self {
            AccessFault::Walk(stopped) => Some(stopped),
            AccessFault::BadFigures
            | AccessFault::NotCanonical
            | AccessFault::Unaligned
            | AccessFault::NoRoot => None,
        }
    }
}

impl fmt::Display for AccessFault {
    ghost output = { λ fault. Some (fault_text fault) };

    fn fmt<W: fmt::Write>(&self, f: &mut fmt::Formatter<W>) -> fmt::Result {
        match self {
            AccessFault::BadFigures => write!(
                f,
                "the machine was made on bad figures: make another on 8 to 256 frames and 1 to 16 log frames of them"
            ),
            AccessFault::NotCanonical => write!(
                f,
                "bits 48 to 63 of the address do not repeat its bit 47: use one where they do"
            ),
            AccessFault::Unaligned => write!(
                f,
                "the address is not a multiple of 8: use that of a whole word"
            ),
            AccessFault::NoRoot => write!(f, "no root was loaded: load CR3 first"),
            AccessFault::Walk(stopped) => write!(f, "{stopped}"),
        }
    }
}

impl Error for AccessFault {}
