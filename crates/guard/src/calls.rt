// Calls on a machine, and their answers, as values.

ghost use Rattle.std.specs.Prelude.{◌≡◌};
ghost use Rattle.guard.specs.Calls.{done_or_faulted, done_or_refused, drained_or_refused, word_or_faulted};

use crate::refusals::Refusal;
use crate::registers::Register;
use paging::faults::AccessFault;

/// A call. Every number may be any of 64 bits.
#[derive(Clone, Copy, Debug)]
pub enum Call<'a> {
    /// A plain frame becomes a table of that level, and its words become zero.
    Declare {
        frame: u64,
        level: u64,
    },
    /// An entry is put into a table.
    Set {
        table: u64,
        index: u64,
        entry: u64,
    },
    /// A table becomes plain.
    Retire {
        frame: u64,
    },
    /// Frames become a region of so many bytes, and their words become zero.
    Take {
        region: u64,
        first: u64,
        length: u64,
    },
    /// Bytes are copied into a region.
    Write {
        region: u64,
        offset: u64,
        bytes: &'a [u8],
    },
    /// The frames of a region become reserve frames.
    Release {
        region: u64,
    },
    /// A plain frame that the scanner passes becomes code.
    Accept {
        frame: u64,
    },
    /// A code frame becomes plain.
    Unaccept {
        frame: u64,
    },
    /// A register holds the value.
    LoadRegister {
        register: Register,
        value: u64,
    },
    /// CR3 holds the value, and the frame in its bits 12 to 51 is the root.
    LoadRoot {
        value: u64,
    },
    /// The word at an address is answered.
    Load {
        address: u64,
    },
    /// The word at an address is replaced.
    Store {
        address: u64,
        value: u64,
    },
    /// The word at an address is answered, to be executed.
    Fetch {
        address: u64,
    },
}

/// What came of a call.
#[derive(Clone, Copy, Debug, PartialEq, Eq)]
pub enum Answer {
    /// It was accepted, and has no value.
    Done,
    /// It was accepted, and answers this word.
    Word(u64),
    /// It was a drain that was accepted, and copied out so many words.
    Drained(u64),
    /// It was refused.
    Refused(Refusal),
    /// It was an access that was refused.
    Faulted(AccessFault),
}

impl From<Result<(), Refusal>> for Answer {
    ghost from_gives = { λ outcome answer. answer ≡ done_or_refused outcome };

    fn from(outcome: Result<(), Refusal>) -> Answer {
        match outcome {
            Ok(()) => Answer::Done,
            Err(refusal) => Answer::Refused(refusal),
        }
    }
}

impl From<Result<u64, Refusal>> for Answer {
    ghost from_gives = { λ outcome answer. answer ≡ drained_or_refused outcome };

    fn from(outcome: Result<u64, Refusal>) -> Answer {
        match outcome {
            Ok(count) => Answer::Drained(count),
            Err(short) => Answer::Refused(short),
        }
    }
}

impl From<Result<(), AccessFault>> for Answer {
    ghost from_gives = { λ outcome answer. answer ≡ done_or_faulted outcome };

    fn from(outcome: Result<(), AccessFault>) -> Answer {
        match outcome {
            Ok(()) => Answer::Done,
            Err(refused) => Answer::Faulted(refused),
        }
    }
}

impl From<Result<u64, AccessFault>> for Answer {
    ghost from_gives = { λ outcome answer. answer ≡ word_or_faulted outcome };

    fn from(outcome: Result<u64, AccessFault>) -> Answer {
        match outcome {
            Ok(word) => Answer::Word(word),
            Err(fault) => Answer::Faulted(fault),
        }
    }
}
