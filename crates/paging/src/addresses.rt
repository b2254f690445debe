// Addresses.

ghost use Rattle.std.specs.Prelude.{◌≡◌, ◌+◌, ◌%◌, ◌^◌, ◌↔◌, IsTrue};
ghost use Rattle.paging.specs.Addresses.{aligned, canonical, joined, parts_of, repeated};

use crate::parts::Split;

/// Every number can be split. The parts joined again are its bits 0 to 47.
pub fn split(address: u64) -> Split
    ensures is { result ≡ parts_of address }
    ensures whole { joined result ≡ address % 2 ^ 48 }
{
    Split {
        four: (address >> 39 & 0x1ff) as u16,
        three: (address >> 30 & 0x1ff) as u16,
        two: (address >> 21 & 0x1ff) as u16,
        one: (address >> 12 & 0x1ff) as u16,
        offset: (address & 0xfff) as u16,
    }
}

/// Whether bits 48 to 63 repeat bit 47. Such an address is given by its parts.
pub fn is_canonical(address: u64) -> bool
    ensures is { result ≡ canonical address }
    ensures extends { IsTrue result ↔ (address ≡ joined (parts_of address) + repeated address) }
{
    let high = address >> 47;
    high == 0 || high == 0x1_ffff
}

/// Whether the address is that of a word: a multiple of 8.
pub fn is_aligned(address: u64) -> bool
    ensures { result ≡ aligned address }
{
    address % 8 == 0
}
