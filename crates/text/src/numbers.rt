// Numbers as scripts write them: digits alone, read at full width or not at all.
ghost use Rattle.std.specs.Prelude.{◌≡◌, ◌+◌, ◌*◌, ◌%◌, ◌^◌, ◌<◌, ◌≤◌, IsTrue, is_some, length, vec_items};
ghost use Rattle.std.specs.List.{list_all};
ghost use Rattle.std.specs.Option.{SomeIff};
ghost use Rattle.std.specs.Str.Parse.{digits_value};
ghost use Rattle.text.specs.Numbers.{base, digit_of, reads_on, number_of, Number, pair_of, writes_byte, pairs_of, bytes_of};
ghost use Rattle.text.specs.Outcomes.{Gives, wants_memory};

use crate::outcomes::Unread;
use std::alloc::Global;

// What the digits of a number count in.
#[derive(Clone, Copy)]
enum Radix {
    Decimal,
    Hexadecimal,
}

impl Radix {
    fn base(self) -> u32
        ensures value { result ≡ base self }
        ensures low { 2 ≤ result }
        ensures high { result ≤ 36 }
    {
        match self {
            Radix::Decimal => 10,
            Radix::Hexadecimal => 16,
        }
    }

    // The value of a byte that is a digit of the radix.
    fn digit(self, byte: u8) -> Option<u64>
        ensures { result ≡ digit_of (base self) byte }
    {
        char::from(byte).to_digit(self.base()).map(u64::from)
    }

    // A number with one more digit behind it, or nothing where that is 2^64 or more.
    fn with_digit(self, number: u64, digit: u64) -> Option<u64>
        ensures { SomeIff result (number * base self + digit < 2 ^ 64) (number * base self + digit) }
    {
        let radix = u64::from(self.base());
        number.checked_mul(radix)?.checked_add(digit)
    }

    // The number that the digits write, or nothing where one is no digit or the number is 2^64 or more. As a `try_fold` its
    // proof does not close.
    #[tactic(auto, using(crate::proofs::Reading::overflows))]
    fn total(self, digits: &[u8]) -> Option<u64>
        ensures { result ≡ reads_on (base self) 0 digits.now }
    {
        let mut total = 0;
        for byte in digits {
            total = self.with_digit(total, self.digit(*byte)?)?;
        }
        Some(total)
    }

    // The number that a word writes: an empty word writes none.
    #[tactic(auto, using(crate::proofs::Reading::number_means))]
    fn number(self, word: &[u8]) -> Option<u64>
        ensures value { result ≡ number_of (base self) word.now }
        ensures means { SomeIff result (Number (base self) word.now) (digits_value (base self) word.now) }
    {
        if word.is_empty() {
            return None;
        }
        self.total(word)
    }
}

/// The number that a word of decimal digits writes, or nothing: never a number cut down to 64 bits. This one and the next
/// are names for one method: a caller says `decimal(word)`, and needs to know of no radix.
pub fn decimal(word: &[u8]) -> Option<u64>
    ensures value { result ≡ number_of 10 word.now }
    ensures means { SomeIff result (Number 10 word.now) (digits_value 10 word.now) }
{
    Radix::Decimal.number(word)
}

/// The same in hexadecimal digits of either case.
pub fn hexadecimal(word: &[u8]) -> Option<u64>
    ensures value { result ≡ number_of 16 word.now }
    ensures means { SomeIff result (Number 16 word.now) (digits_value 16 word.now) }
{
    Radix::Hexadecimal.number(word)
}

// The byte that two hexadecimal digits write.
fn byte(high: u8, low: u8) -> Option<u8>
    ensures { result ≡ pair_of high low }
{
    let high = char::from(high).to_digit(16)?;
    let low = char::from(low).to_digit(16)?;
    Some((high * 16 + low) as u8)
}

// Whether each pair of digits writes a byte.
fn are_bytes(pairs: &[[u8; 2]]) -> bool
    ensures { result ≡ list_all writes_byte pairs.now }
{
    for [high, low] in pairs {
        if byte(*high, *low).is_none() {
            return false;
        }
    }
    true
}

// The bytes that digits write, two to a byte. Room is asked for only where all of them can be read.
#[tactic(auto, using(crate::proofs::Pairing::odd_none, crate::proofs::Pairing::all_pairs, crate::proofs::Pairing::all_write, crate::proofs::Pairing::one_writes_none))]
fn pairs(heap: Global, digits: &[u8]) -> Result<Vec<u8>, Unread>
    ensures wants { IsTrue (wants_memory result) → (length digits.now % 2 ≡ 0) × IsTrue (is_some (pairs_of digits.now)) }
    ensures gives { Gives vec_items result (pairs_of digits.now) }
{
    let (pairs, []) = digits.as_chunks::<2>() else {
        return Err(Unread::Unreadable);
    };
    if !are_bytes(pairs) {
        return Err(Unread::Unreadable);
    }
    let mut out = Vec::new(heap);
    for [high, low] in pairs {
        out.push(byte(*high, *low).ok_or(Unread::Unreadable)?)?;
    }
    Ok(out)
}

/// The bytes that a word writes, the one at the lowest address first. `-` writes none.
pub fn bytes(heap: Global, word: &[u8]) -> Result<Vec<u8>, Unread>
    ensures wants { IsTrue (wants_memory result) → (0 < length word.now) × (length word.now % 2 ≡ 0) × IsTrue (is_some (bytes_of word.now)) }
    ensures gives { Gives vec_items result (bytes_of word.now) }
{
    match word {
        b"-" => Ok(Vec::new(heap)),
        b"" => Err(Unread::Unreadable),
        digits => pairs(heap, digits),
    }
}
