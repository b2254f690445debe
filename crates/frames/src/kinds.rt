// Kinds of frames, and levels of tables.

ghost use Rattle.std.specs.Prelude.{◌≡◌, Some};
ghost use Rattle.frames.specs.Kinds.{can_be_taken, keeps_words, level_number, level_of, number_of};

/// The level of a page table: an entry of a table of level 1 names a frame, and of any other a table one level lower.
#[derive(Clone, Copy, Debug, PartialEq, Eq)]
pub enum Level {
    One,
    Two,
    Three,
    Four,
}

impl Level {
    /// The level of that number, or nothing where it is none of 1 to 4.
    pub fn new(number: u64) -> Option<Level>
        ensures { result ≡ level_of number }
    {
        match number {
            1 => Some(Level::One),
            2 => Some(Level::Two),
            3 => Some(Level::Three),
            4 => Some(Level::Four),
            _ => None,
        }
    }
}

/// The number of a level: 1 to 4.
impl From<Level> for u8 {
    ghost from_gives = { λ level number. number ≡ level_number level };

    fn from(level: Level) -> u8 {
        match level {
            Level::One => 1,
            Level::Two => 2,
            Level::Three => 3,
            Level::Four => 4,
        }
    }
}

/// What a frame is used for.
#[derive(Clone, Copy, Debug, PartialEq, Eq)]
pub enum FrameKind {
    /// The kernel's own: the only kind that a store can reach.
    Plain,
    /// A page table of that level.
    Table(Level),
    /// A part of a region.
    Region,
    /// Code that the scanner passed: the only kind that a fetch can reach.
    Code,
    /// A part of the log, which holds the journal.
    Log,
    /// A part of a region that was released, whose words are kept.
    Reserve,
}

impl FrameKind {
    /// Whether a region can be made of such a frame.
    pub fn can_be_taken(self) -> bool
        ensures { result ≡ can_be_taken (Some self) }
    {
        match self {
            FrameKind::Plain | FrameKind::Reserve => true,
            FrameKind::Table(_) | FrameKind::Region | FrameKind::Code | FrameKind::Log => false,
        }
    }

    /// Whether a journal gives the words of such a frame: of a table, and of one that is or was a region's.
    pub fn keeps_words(self) -> bool
        ensures { result ≡ keeps_words (Some self) }
    {
        match self {
            FrameKind::Table(_) | FrameKind::Region | FrameKind::Reserve => true,
            FrameKind::Plain | FrameKind::Code | FrameKind::Log => false,
        }
    }
}

/// The number of a kind: 0 to 8, that of a table the number of its level.
impl From<FrameKind> for u8 {
    ghost from_gives = { λ kind number. number ≡ number_of kind };

    fn from(kind: FrameKind) -> u8 {
        match kind {
            FrameKind::Plain => 0,
            FrameKind::Table(level) => level.into(),
            FrameKind::Region => 5,
            FrameKind::Code => 6,
            FrameKind::Log => 7,
            FrameKind::Reserve => 8,
        }
    }
}
