// The registers, and the bits that each of them keeps.

ghost use Rattle.std.specs.Prelude.{◌≡◌, ◌<◌};
ghost use Rattle.guard.specs.Registers.{bit, new_registers, starting, with_register};

/// A register of which some bits have to stay set.
#[derive(Clone, Copy, Debug, PartialEq, Eq)]
pub enum Register {
    Cr0,
    Cr4,
    Efer,
}

/// What the four registers hold.
#[derive(Clone, Copy, Debug, PartialEq, Eq)]
pub struct Registers {
    pub cr0: u64,
    pub cr3: u64,
    pub cr4: u64,
    pub efer: u64,
}

// Whether a bit of a value is set.
fn has_bit(value: u64, place: u32) -> bool
    requires { place < 64 }
    ensures { result ≡ bit value place }
{
    value >> place & 1 == 1
}

impl Register {
    /// Whether a value has each of the register's starting bits set.
    pub fn starts_with(self, value: u64) -> bool
        ensures { result ≡ starting self value }
    {
        match self {
            Register::Cr0 => has_bit(value, 0) && has_bit(value, 16) && has_bit(value, 31),
            Register::Cr4 => has_bit(value, 5) && has_bit(value, 20),
            Register::Efer => has_bit(value, 8) && has_bit(value, 11),
        }
    }
}

impl Registers {
    /// The registers of a new machine: their starting bits, and no others.
    pub fn new() -> Registers
        ensures { result ≡ new_registers }
    {
        Registers {
            cr0: 1 << 0 | 1 << 16 | 1 << 31,
            cr3: 0,
            cr4: 1 << 5 | 1 << 20,
            efer: 1 << 8 | 1 << 11,
        }
    }

    /// The same, with a value in one of them.
    pub fn with(self, register: Register, value: u64) -> Registers
        ensures { result ≡ with_register self register value }
    {
        match register {
            Register::Cr0 => Registers { cr0: value, ..self },
            Register::Cr4 => Registers { cr4: value, ..self },
            Register::Efer => Registers {
                efer: value,
                ..self
            },
        }
    }
}
