// The scanner: its states, and how it is fed: by the class of a byte, by bytes, or by the bytes of a word.

ghost use Rattle.std.specs.Prelude.{◌≡◌, ◌↔◌, ℕ, ◌&&◌, List, ◌∷◌, ◌++◌, Some, IsTrue, is_ok};
ghost use Rattle.memory.specs.ByteOrder.{bytes_of};
ghost use Rattle.scanner.specs.Rule.{passing, Clean};
ghost use Rattle.scanner.specs.States.{forbidden_text, seen, step, Fed};
ghost use Rattle.scanner.specs.declared.scan.State.{State};
ghost use Rattle.scanner.specs.declared.scan.State.TheVariants.{Nothing};

use crate::classes::{ByteClass, class};
use std::error::Error;
use std::fmt;
use std::marker::Model;

/// How much of a forbidden sequence the last bytes are.
#[derive(Clone, Copy, Debug, PartialEq, Eq)]
pub enum State {
    /// None of it.
    Nothing,
    /// 0F.
    Lead,
    /// 0F 01.
    Group,
}

/// A byte completed a forbidden sequence.
#[derive(Clone, Copy, Debug, PartialEq, Eq)]
pub struct Forbidden;

impl fmt::Display for Forbidden {
    ghost output = { λ _. Some forbidden_text };

    fn fmt<W: fmt::Write>(&self, f: &mut fmt::Formatter<W>) -> fmt::Result {
        write!(
            f,
            "the code could change the processor's protection: take out that sequence"
        )
    }
}

impl Error for Forbidden {}

/// A scan under way. Contracts see it as its state.
#[derive(Clone, Copy, Debug)]
pub struct Scanner {
    state: State,
}

impl Model for Scanner {
    ghost Value = { State };

    ghost view = { λ s. s.state };

    ghost inverse = { λ state. record { state = state } };
}

impl Scanner {
    /// A scanner that has seen nothing.
    pub fn new() -> Scanner
        ensures { result ≡ Nothing }
    {
        Scanner {
            state: State::Nothing,
        }
    }

    /// Takes the class of the next byte. Where it completes a forbidden sequence, the state stays as it was.
    pub fn feed(&mut self, class: ByteClass) -> Result<(), Forbidden>
        ensures { (is_ok result, self.new) ≡ step self.old class }
    {
        self.state = match (self.state, class) {
            (State::Lead, ByteClass::Writes) | (State::Group, ByteClass::Loads) => {
                return Err(Forbidden);
            }
            (_, ByteClass::Lead) => State::Lead,
            (State::Lead, ByteClass::Group) => State::Group,
            _ => State::Nothing,
        };
        Ok(())
    }

    /// Takes bytes of code, up to the first that completes a forbidden sequence.
    #[tactic(auto, using(crate::proofs::Runs::one_more, crate::proofs::Runs::whole))]
    pub fn feed_bytes(&mut self, bytes: &[u8]) -> Result<(), Forbidden>
        ensures { Fed self.old bytes.now (is_ok result) self.new }
    {
        for byte in bytes {
            self.feed(class(*byte))?;
        }
        Ok(())
    }

    /// Takes the bytes of a word, the low one first.
    pub fn feed_word(&mut self, word: u64) -> Result<(), Forbidden>
        ensures { Fed self.old (bytes_of word) (is_ok result) self.new }
    {
        self.feed_bytes(&word.to_le_bytes())
    }

    /// Whether a run may end here: not after 0F, and not after 0F 01.
    pub fn may_end(&self) -> bool
        ensures { result ≡ passing (seen self.now) }
    {
        matches!(self.state, State::Nothing)
    }
}

/// Whether bytes of code pass.
pub fn passes(bytes: &[u8]) -> bool
    ensures value { result ≡ passing bytes.now }
    ensures means { IsTrue result ↔ Clean bytes.now }
{
    let mut scanner = Scanner::new();
    scanner.feed_bytes(bytes).is_ok() && scanner.may_end()
}
