// The class of each byte, in one table.

ghost use Rattle.std.specs.Prelude.{◌≡◌, ◌<◌, map};
ghost use Rattle.std.specs.List.{range_with_len};
ghost use Rattle.scanner.specs.Classes.{class_of, number_of};
ghost use Rattle.scanner.specs.States.{Stands};

/// What a byte can be to a forbidden sequence.
#[derive(Clone, Copy, Debug, PartialEq, Eq)]
pub enum ByteClass {
    /// None of the below.
    Other,
    /// 0F, the byte that every forbidden sequence begins with.
    Lead,
    /// 22 and 30: after 0F, a write of a control register or of a model-specific register.
    Writes,
    /// 01: after 0F, a group of instructions, of which a third byte picks one.
    Group,
    /// 18 to 1F, 58 to 5F and 98 to 9F: after 0F 01, a load of the interrupt table register.
    Loads,
}

/// The number of a class: 0 to 4.
impl From<ByteClass> for u8 {
    ghost from_gives = { λ class number. number ≡ number_of class };

    fn from(class: ByteClass) -> u8 {
        match class {
            ByteClass::Other => 0,
            ByteClass::Lead => 1,
            ByteClass::Writes => 2,
            ByteClass::Group => 3,
            ByteClass::Loads => 4,
        }
    }
}

use ByteClass::{Group, Lead, Loads, Other, Writes};

// The class of each byte, from 00 to FF: a table, since the scanner is to take one look-up a byte.
const CLASSES: [ByteClass; 256] = [
    Other, Group, // 01
    Other, Other, Other, Other, Other, Other, Other, Other, Other, Other, Other, Other, Other,
    Lead, // 0F
    Other, Other, Other, Other, Other, Other, Other, Other, Loads, // 18
    Loads, // 19
    Loads, // 1A
    Loads, // 1B
    Loads, // 1C
    Loads, // 1D
    Loads, // 1E
    Loads, // 1F
    Other, Other, Writes, // 22
    Other, Other, Other, Other, Other, Other, Other, Other, Other, Other, Other, Other, Other,
    Writes, // 30
    Other, Other, Other, Other, Other, Other, Other, Other, Other, Other, Other, Other, Other,
    Other, Other, Other, Other, Other, Other, Other, Other, Other, Other, Other, Other, Other,
    Other, Other, Other, Other, Other, Other, Other, Other, Other, Other, Other, Other, Other,
    Loads, // 58
    Loads, // 59
    Loads, // 5A
    Loads, // 5B
    Loads, // 5C
    Loads, // 5D
    Loads, // 5E
    Loads, // 5F
    Other, Other, Other, Other, Other, Other, Other, Other, Other, Other, Other, Other, Other,
    Other, Other, Other, Other, Other, Other, Other, Other, Other, Other, Other, Other, Other,
    Other, Other, Other, Other, Other, Other, Other, Other, Other, Other, Other, Other, Other,
    Other, Other, Other, Other, Other, Other, Other, Other, Other, Other, Other, Other, Other,
    Other, Other, Other, Other, Loads, // 98
    Loads, // 99
    Loads, // 9A
    Loads, // 9B
    Loads, // 9C
    Loads, // 9D
    Loads, // 9E
    Loads, // 9F
    Other, Other, Other, Other, Other, Other, Other, Other, Other, Other, Other, Other, Other,
    Other, Other, Other, Other, Other, Other, Other, Other, Other, Other, Other, Other, Other,
    Other, Other, Other, Other, Other, Other, Other, Other, Other, Other, Other, Other, Other,
    Other, Other, Other, Other, Other, Other, Other, Other, Other, Other, Other, Other, Other,
    Other, Other, Other, Other, Other, Other, Other, Other, Other, Other, Other, Other, Other,
    Other, Other, Other, Other, Other, Other, Other, Other, Other, Other, Other, Other, Other,
    Other, Other, Other, Other, Other, Other, Other, Other, Other, Other, Other, Other, Other,
    Other, Other, Other, Other, Other,
];

/// The class of a byte.
#[tactic(auto, using(crate::proofs::Means::entry_class, crate::proofs::Means::entry_stands))]
pub fn class(byte: u8) -> ByteClass
    ensures is { result ≡ class_of byte }
    ensures stands { Stands byte result }
{
    table()[byte as usize]
}

// The table, which is the rule of the classes computed at every byte. A wrong entry is found here, and a wrong place in
// `class`.
fn table() -> &'static [ByteClass; 256]
    ensures { result.now ≡ map class_of (range_with_len 0 256) }
{
    &CLASSES
}
