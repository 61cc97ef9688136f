//! The lane of a frame.
ghost use Rattle.std.specs.Prelude.{◌≡◌, ◌<◌, ◌^◌};
ghost use Rattle.frame_rules.specs.Frames.{PlainFrame};
ghost use Rattle.frame_rules.specs.Spelling.{spelling};

/// The lane that a frame's bytes name: two bytes at place 6, the most significant first.
pub fn lane_in(frame: &[u8]) -> u16
    ensures { (f : PlainFrame) → frame.now ≡ spelling f → f.lane < 2 ^ 16 → result ≡ f.lane }
{
    if frame.len() < 8 {
        return 0;
    }
    u16::from_be_bytes([frame[6], frame[7]])
}
