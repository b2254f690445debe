// Entries of page tables.

ghost use Rattle.std.specs.Prelude.{◌≡◌};
ghost use Rattle.paging.specs.Entries.{frame_of, large, no_execute, present, writable};

/// A word of a table. Where it is not present it names nothing, whatever its other bits hold.
#[derive(Clone, Copy, Debug, PartialEq, Eq)]
pub struct Entry(pub u64);

impl Entry {
    /// Bit 0.
    pub fn is_present(self) -> bool
        ensures { result ≡ present self.0 }
    {
        self.0 & 1 == 1
    }

    /// Bit 1.
    pub fn is_writable(self) -> bool
        ensures { result ≡ writable self.0 }
    {
        self.0 >> 1 & 1 == 1
    }

    /// Bit 7: in a present entry of a table of level 2 to 4 it would name a large page.
    pub fn names_large_page(self) -> bool
        ensures { result ≡ large self.0 }
    {
        self.0 >> 7 & 1 == 1
    }

    /// Bit 63.
    pub fn is_no_execute(self) -> bool
        ensures { result ≡ no_execute self.0 }
    {
        self.0 >> 63 == 1
    }

    /// The number of the frame that the entry names: bits 12 to 51.
    pub fn frame(self) -> u64
        ensures { result ≡ frame_of self.0 }
    {
        self.0 >> 12 & 0xff_ffff_ffff
    }
}
