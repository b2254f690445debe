// Why a line gave no command, or a command no answer.
ghost use Rattle.std.specs.Prelude.{◌≡◌, Some};
ghost use Rattle.text.specs.Outcomes.{sentence};
ghost use Rattle.text.specs.declared.outcomes.Unread.TheVariants.{Memory};

use std::alloc::{AllocError, AllocFailed};
use std::error::Error;
use std::fmt;

#[derive(Clone, Copy, Debug, PartialEq, Eq)]
pub enum Unread {
    /// The line cannot be read; nothing was done.
    Unreadable,
    /// There was no memory for what the line asks; nothing was done.
    Memory,
}

impl fmt::Display for Unread {
    ghost output = { λ e. Some (sentence e) };

    fn fmt<W: fmt::Write>(&self, f: &mut fmt::Formatter<W>) -> fmt::Result {
        match self {
            Unread::Unreadable => write!(f, "the line cannot be read: mend it and send it again"),
            Unread::Memory => write!(f, "no memory for the line: free some and send it again"),
        }
    }
}

impl Error for Unread {}

impl From<AllocError> for Unread {
    ghost from_gives = { λ _ r. r ≡ Memory };

    fn from(_e: AllocError) -> Unread {
        Unread::Memory
    }
}

impl<T: Drop> From<AllocFailed<T>> for Unread {
    ghost from_gives = { λ _ r. r ≡ Memory };

    fn from(_e: AllocFailed<T>) -> Unread {
        Unread::Memory
    }
}
