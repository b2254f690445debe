// The parts of an address.

ghost use Rattle.std.specs.Prelude.{◌≡◌};
ghost use Rattle.paging.specs.Addresses.{part_at};

use frames::kinds::Level;

/// The index of an address at each level, and its offset in the frame, in bytes.
#[derive(Clone, Copy, Debug, PartialEq, Eq)]
pub struct Split {
    pub four: u16,
    pub three: u16,
    pub two: u16,
    pub one: u16,
    pub offset: u16,
}

impl Split {
    /// The index at a level.
    pub fn index(self, level: Level) -> u16
        ensures { result ≡ part_at level self }
    {
        match level {
            Level::Four => self.four,
            Level::Three => self.three,
            Level::Two => self.two,
            Level::One => self.one,
        }
    }
}
