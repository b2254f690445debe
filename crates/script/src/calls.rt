// The calls on a machine that a script can ask for.
ghost use Rattle.std.specs.Prelude.{◌≡◌, codes, is_some, IsTrue, Some};
ghost use Rattle.std.specs.Option.{option_map};
ghost use Rattle.std.specs.Str.{bytes_eq};
ghost use Rattle.guard.specs.Calls.{request_of};
ghost use Rattle.script.specs.Calls.{access_of, asked, asked_of, register_name, register_of, request_text, short_call_of, write_of};
ghost use Rattle.text.specs.Outcomes.{Gives, wants_memory};

use crate::operands::{
    ends, next_word, one_number, one_word, place_and_word, three_numbers, two_numbers, two_words,
};
use guard::calls::Call;
use guard::registers::Register;
use std::alloc::Global;
use std::fmt;
use text::lines::Words;
use text::numbers::{bytes, decimal};
use text::outcomes::Unread;
use text::printing::{HexBytes, Hexadecimal};

/// A call that a line asks for.
#[derive(Debug, Drop)]
pub enum Asked {
    /// A write, with its bytes.
    Write {
        region: u64,
        offset: u64,
        bytes: Vec<u8>,
    },
    /// Any other call.
    Other(Call<'static>),
}

impl Asked {
    /// The call, which borrows the bytes of a write.
    pub fn call(&self) -> Call<'_>
        ensures { request_of result ≡ asked self.now }
    {
        match self {
            Asked::Write {
                region,
                offset,
                bytes,
            } => Call::Write {
                region: *region,
                offset: *offset,
                bytes: bytes.as_slice(),
            },
            Asked::Other(call) => *call,
        }
    }
}

// A register by its name.
#[derive(Clone, Copy)]
struct Name(Register);

impl fmt::Display for Name {
    ghost output = { λ n. Some (register_name n.0) };

    fn fmt<W: fmt::Write>(&self, f: &mut fmt::Formatter<W>) -> fmt::Result {
        match self.0 {
            Register::Cr0 => write!(f, "cr0"),
            Register::Cr4 => write!(f, "cr4"),
            Register::Efer => write!(f, "efer"),
        }
    }
}

// A call as it is printed.
#[derive(Clone, Copy)]
struct Echo<'a>(Call<'a>);

impl fmt::Display for Echo<'_> {
    ghost output = { λ e. Some (request_text (request_of e.0)) };

    fn fmt<W: fmt::Write>(&self, f: &mut fmt::Formatter<W>) -> fmt::Result {
        match self.0 {
            Call::Declare { frame, level } => write!(f, "declare {frame} {level}"),
            Call::Set {
                table,
                index,
                entry,
            } => write!(f, "set {table} {index} {}", Hexadecimal(entry)),
            Call::Retire { frame } => write!(f, "retire {frame}"),
            Call::Take {
                region,
                first,
                length,
            } => write!(f, "take {region} {first} {length}"),
            Call::Write {
                region,
                offset,
                bytes,
            } => write!(f, "write {region} {offset} {}", HexBytes(bytes)),
            Call::Release { region } => write!(f, "release {region}"),
            Call::Accept { frame } => write!(f, "accept {frame}"),
            Call::Unaccept { frame } => write!(f, "unaccept {frame}"),
            Call::LoadRegister { register, value } => write!(
                f,
                "{} {}",
                Name(register),
                Hexadecimal(value)
            ),
            Call::LoadRoot { value } => write!(f, "cr3 {}", Hexadecimal(value)),
            Call::Load { address } => write!(f, "load {}", Hexadecimal(address)),
            Call::Store { address, value } => write!(
                f,
                "store {} {}",
                Hexadecimal(address),
                Hexadecimal(value)
            ),
            Call::Fetch { address } => write!(f, "fetch {}", Hexadecimal(address)),
        }
    }
}

impl fmt::Display for Asked {
    ghost output = { λ a. Some (request_text (asked a)) };

    fn fmt<W: fmt::Write>(&self, f: &mut fmt::Formatter<W>) -> fmt::Result {
        write!(f, "{}", Echo(self.call()))
    }
}

// The names of the calls but those of registers, which `register` knows.
const DECLARE: &[u8] = b"declare";

const SET: &[u8] = b"set";

const RETIRE: &[u8] = b"retire";

const TAKE: &[u8] = b"take";

const WRITE: &[u8] = b"write";

const RELEASE: &[u8] = b"release";

const ACCEPT: &[u8] = b"accept";

const UNACCEPT: &[u8] = b"unaccept";

const CR3: &[u8] = b"cr3";

const LOAD: &[u8] = b"load";

const STORE: &[u8] = b"store";

const FETCH: &[u8] = b"fetch";

// The register of that name, but CR3.
fn register(name: &[u8]) -> Option<Register>
    ensures { result ≡ register_of name.now }
{
    match name {
        b"cr0" => Some(Register::Cr0),
        b"cr4" => Some(Register::Cr4),
        b"efer" => Some(Register::Efer),
        _ => None,
    }
}

// write REGION OFFSET BYTES: the words behind the first
#[tactic(auto, unfolding(crate::specs::Calls::write_of, text::specs::Lines::after_words))]
fn write_call(heap: Global, words: &mut Words<'_>) -> Result<Asked, Unread>
    ensures wants { IsTrue (wants_memory result) → IsTrue (is_some (write_of words.old)) }
    ensures gives { Gives asked result (write_of words.old) }
{
    let region = decimal(next_word(words)).ok_or(Unread::Unreadable)?;
    let offset = decimal(next_word(words)).ok_or(Unread::Unreadable)?;
    let word = next_word(words);
    if !ends(words) {
        return Err(Unread::Unreadable);
    }
    let bytes = bytes(heap, word)?;
    Ok(Asked::Write {
        region,
        offset,
        bytes,
    })
}

// The load of a register, or the access, of that name, with the words behind it.
#[tactic(auto, unfolding(crate::specs::Calls::access_of))]
fn access(name: &[u8], words: &mut Words<'_>) -> Option<Call<'static>>
    ensures { option_map request_of result ≡ access_of name.now words.old }
{
    if name == CR3 {
        let value = one_word(words)?;
        return Some(Call::LoadRoot { value });
    }
    if name == LOAD {
        let address = one_word(words)?;
        return Some(Call::Load { address });
    }
    if name == STORE {
        let (address, value) = two_words(words)?;
        return Some(Call::Store { address, value });
    }
    if name == FETCH {
        let address = one_word(words)?;
        return Some(Call::Fetch { address });
    }
    let register = register(name)?;
    let value = one_word(words)?;
    Some(Call::LoadRegister { register, value })
}

// The call of that name but `write`, with the words behind it.
#[tactic(auto, unfolding(crate::specs::Calls::short_call_of))]
fn short_call(name: &[u8], words: &mut Words<'_>) -> Option<Call<'static>>
    ensures { option_map request_of result ≡ short_call_of name.now words.old }
{
    if name == DECLARE {
        let (frame, level) = two_numbers(words)?;
        return Some(Call::Declare { frame, level });
    }
    if name == SET {
        let (table, index, entry) = place_and_word(words)?;
        return Some(Call::Set {
            table,
            index,
            entry,
        });
    }
    if name == RETIRE {
        let frame = one_number(words)?;
        return Some(Call::Retire { frame });
    }
    if name == TAKE {
        let (region, first, length) = three_numbers(words)?;
        return Some(Call::Take {
            region,
            first,
            length,
        });
    }
    if name == RELEASE {
        let region = one_number(words)?;
        return Some(Call::Release { region });
    }
    if name == ACCEPT {
        let frame = one_number(words)?;
        return Some(Call::Accept { frame });
    }
    if name == UNACCEPT {
        let frame = one_number(words)?;
        return Some(Call::Unaccept { frame });
    }
    access(name, words)
}

// The call of that name, with the words behind it.
pub(crate) fn call_named(heap: Global, name: &[u8], words: &mut Words<'_>) -> Result<Asked, Unread>
    ensures wants { IsTrue (wants_memory result) → IsTrue (bytes_eq name.now (codes "write")) × IsTrue (is_some (asked_of name.now words.old)) }
    ensures gives { Gives asked result (asked_of name.now words.old) }
{
    if name == WRITE {
        return write_call(heap, words);
    }
    let call = short_call(name, words).ok_or(Unread::Unreadable)?;
    Ok(Asked::Other(call))
}
