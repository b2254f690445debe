// Regions: runs of frames that are protected together.

ghost use Rattle.std.specs.Prelude.{◌≡◌, ◌<◌, ◌^◌};
ghost use Rattle.frames.specs.Regions.{frames_needed};

use crate::numbers::FRAME_BYTES;

/// The state of a region.
#[derive(Clone, Copy, Debug, PartialEq, Eq)]
pub enum RegionState {
    /// It was never taken.
    Untaken,
    /// It is taken: its frames lie from a first one on, and it has so many bytes.
    Live { first: u8, length: u32 },
    /// It was released, and is never taken again.
    Released,
}

/// How many frames so many bytes need.
pub fn frames_needed(length: u32) -> usize
    ensures is { result ≡ frames_needed length }
    ensures few { result < 2 ^ 32 }
{
    (length as usize).div_ceil(FRAME_BYTES as usize)
}
