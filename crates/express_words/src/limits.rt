//! The limits of a system of mailboxes.
ghost use Rattle.std.specs.Prelude.{◌≡◌};
ghost use Rattle.express_words.specs.Limits.{levels_len};

/// A message has at least so many bytes.
pub const LEAST_WIDTH: u32 = 16;

/// A message has at most so many bytes.
pub const MOST_WIDTH: u32 = 4096;

/// There are at most so many boxes.
pub const MOST_BOXES: u32 = 4096;

/// There are at most so many lanes.
pub const MOST_LANES: u16 = 256;

/// At most so many commands are outstanding on the link.
pub const MOST_WINDOW: u8 = 32;

/// The bytes of a public part before its last block, which has a message's width: 128 words of 16 bytes, then 128 right
/// bits.
pub const LEVELS_LEN: usize = 2064;

/// What the limits are.
pub fn limits_are()
    ensures least_width { LEAST_WIDTH ≡ 16 }
    ensures most_width { MOST_WIDTH ≡ 4096 }
    ensures most_boxes { MOST_BOXES ≡ 4096 }
    ensures most_lanes { MOST_LANES ≡ 256 }
    ensures most_window { MOST_WINDOW ≡ 32 }
    ensures levels_len { LEVELS_LEN ≡ levels_len }
{}
