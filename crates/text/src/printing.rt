// Texts behind what a list of bytes holds.
ghost use Rattle.std.specs.Prelude.{◌≡◌, ◌+◌, ◌<◌, ◌*◌, ◌≤◌, ◌++◌, Some, length, take, vec_len, vec_capacity, decimal, IfSome, OnErr};
ghost use Rattle.std.specs.List.{flat_map};
ghost use Rattle.std.specs.Fmt.{WritesOnOk};
ghost use Rattle.text.specs.RoundTrip.{ReadsBack};
ghost use Rattle.text.specs.Texts.{hex_digit, hexadecimal, two_digits, hex_bytes, Puts};

use std::alloc::AllocError;
use std::fmt::{self, Write};
use std::mem;

/// Puts a text behind what the list holds.
pub fn put(out: &mut Vec<u8>, text: &[u8]) -> Result<(), AllocError>
    ensures done { Puts result out.old.items text.now out.new.items }
    ensures same { OnErr result (out.new.items ≡ out.old.items) }
    ensures full { OnErr result (vec_capacity out.old < vec_len out.old + length text.now) }
{
    out.extend_from_slice(text)
}

// A list whose end is written to.
#[derive(Drop)]
struct Tail {
    list: Vec<u8>,
}

impl fmt::Write for Tail {
    ghost write_str_gives = { λ old text new. new.list.items ≡ old.list.items ++ text };

    fn write_str(&mut self, text: &str) -> fmt::Result {
        match self.list.extend_from_slice(text.as_bytes()) {
            Ok(()) => Ok(()),
            Err(_) => Err(fmt::Error),
        }
    }
}

// Puts what a value shows behind what the list holds, in the room of the list itself. Where there is no memory, part of it may
// stand there.
#[tactic(auto, using(crate::proofs::Writing::shown_behind))]
fn put_directly<T: fmt::Display + Drop>(out: &mut Vec<u8>, value: T) -> Result<(), AllocError>
    ensures { IfSome (T.output value) (λ text. Puts result out.old.items text out.new.items) }
{
    let empty = Vec::new(*out.allocator());
    let mut tail = Tail {
        list: mem::replace(out, empty),
    };
    let result = tail.write(value);
    *out = tail.list;
    match result {
        Ok(()) => Ok(()),
        Err(_) => Err(AllocError),
    }
}

/// Puts what a value shows behind what the list holds.
// Where the list holds something, the text is made apart: what a list that was written to holds after a failure is not known.
pub fn put_shown<T: fmt::Display + Drop>(out: &mut Vec<u8>, value: T) -> Result<(), AllocError>
    ensures done { IfSome (T.output value) (λ text. Puts result out.old.items text out.new.items) }
    ensures same { OnErr result (out.new.items ≡ out.old.items) }
{
    if out.is_empty() {
        let result = put_directly(out, value);
        if result.is_err() {
            out.clear();
        }
        return result;
    }
    let text = value.to_string(*out.allocator())?;
    out.extend_from_slice(text.as_bytes())
}

/// A number that is shown in upper-case hexadecimal digits, without leading zeros.
#[derive(Clone, Copy, Debug)]
pub struct Hexadecimal(pub u64);

impl fmt::Display for Hexadecimal {
    ghost output = { λ h. Some (hexadecimal h.0) };

    #[tactic(auto, using(crate::proofs::Hexadecimals::written_in_full))]
    fn fmt<W: fmt::Write>(&self, f: &mut fmt::Formatter<W>) -> fmt::Result {
        let number = self.0;
        write!(f, "{number:X}")
    }
}

// The digits of so many bytes are written at a time, which takes much less than byte by byte.
const RUN: usize = 32;

const TEXT: usize = 2 * RUN;

// The character of a hexadecimal digit.
fn digit(value: u8) -> u8
    requires { value < 16 }
    ensures { result ≡ hex_digit value }
{
    if value < 10 {
        b'0' + value
    } else {
        b'A' - 10 + value
    }
}

// Puts the two digits of each byte at the front of a text.
#[tactic(auto, using(crate::proofs::Hexadecimals::one_more_put))]
fn put_pairs(text: &mut [u8; TEXT], bytes: &[u8])
    requires { length bytes.now ≤ 32 }
    ensures { take (2 * length bytes.now) text.new ≡ flat_map two_digits bytes.now }
{
    for (place, byte) in bytes.iter().enumerate() {
        text[2 * place] = digit(byte / 16);
        text[2 * place + 1] = digit(byte % 16);
    }
}

// Writes the two digits of each byte of a run.
fn write_pairs<W: fmt::Write>(f: &mut fmt::Formatter<W>, bytes: &[u8]) -> fmt::Result
    requires { length bytes.now ≤ 32 }
    ensures { WritesOnOk W.write_str_gives f.old result (flat_map two_digits bytes.now) f.new }
{
    let mut text = [0; TEXT];
    put_pairs(&mut text, bytes);
    match str::from_utf8(&text[..2 * bytes.len()]) {
        Ok(digits) => f.write_str(digits),
        Err(_) => Err(fmt::Error),
    }
}

/// Bytes that are shown in two digits each, or as `-` where there are none.
#[derive(Clone, Copy, Debug)]
pub struct HexBytes<'a>(pub &'a [u8]);

impl<'a> fmt::Display for HexBytes<'a> {
    ghost output = { λ b. Some (hex_bytes b.0.now) };

    #[tactic(auto, using(crate::proofs::Hexadecimals::more_written, crate::proofs::Hexadecimals::rest_written))]
    fn fmt<W: fmt::Write>(&self, f: &mut fmt::Formatter<W>) -> fmt::Result {
        if self.0.is_empty() {
            return write!(f, "-");
        }
        let (runs, rest) = self.0.as_chunks::<RUN>();
        for run in runs {
            write_pairs(f, run)?;
        }
        write_pairs(f, rest)
    }
}

/// The number in decimal digits, without leading zeros. This function and the next two write to the list itself, and may leave
/// part of a text there where they find no memory; their clauses name the text outright.
pub fn put_decimal(out: &mut Vec<u8>, number: u64) -> Result<(), AllocError>
    ensures { Puts result out.old.items (decimal number) out.new.items }
{
    put_directly(out, number)
}

/// The number in upper-case hexadecimal digits, without leading zeros.
pub fn put_hexadecimal(out: &mut Vec<u8>, number: u64) -> Result<(), AllocError>
    ensures { Puts result out.old.items (hexadecimal number) out.new.items }
{
    put_directly(out, Hexadecimal(number))
}

/// The bytes in two digits each, or `-` where there are none.
pub fn put_bytes(out: &mut Vec<u8>, bytes: &[u8]) -> Result<(), AllocError>
    ensures { Puts result out.old.items (hex_bytes bytes.now) out.new.items }
{
    put_directly(out, HexBytes(bytes))
}

/// Numbers and bytes are read back, by the rules of `numbers`, as what they were when they were printed.
pub fn printed_reads_back()
    ensures { ReadsBack }
{}
