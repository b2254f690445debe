// The subject's numbers, each of which stands here alone. The words of a frame and the most frames of a memory stand
// beside the trait of memories.

use memory::traits::FRAME_WORDS;

/// The bytes of a frame.
pub const FRAME_BYTES: u64 = 8 * FRAME_WORDS;

/// A machine has no fewer frames.
pub const LEAST_FRAMES: u64 = 8;

/// A machine has no more log frames.
pub const MOST_LOG_FRAMES: u64 = 16;

/// How many regions there are, numbered from 0.
pub const REGIONS: usize = 16;

/// How many offsets a region has, in bytes: no region is longer.
pub const OFFSETS: u64 = 65536;

/// No write has more bytes.
pub const MOST_WRITE_BYTES: u64 = 1024;
