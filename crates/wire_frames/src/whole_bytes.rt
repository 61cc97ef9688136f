//! Bytes that should be exactly one frame.
ghost use Rattle.std.specs.Prelude.{◌≡◌, true, IfOk, IfErr, IfSome, Ok, Err, option_map};
ghost use Rattle.frame_rules.specs.Frames.{plain, plain_body};
ghost use Rattle.frame_rules.specs.Spelling.{IsFrame, Spells};
ghost use Rattle.frame_rules.specs.Whole.{whole as whole_bytes, linked, refused_bytes};
ghost use Rattle.frame_rules.specs.Whole.{is_command, is_reply, has_width};

use crate::decoding::decode;
use crate::received::Received;
use express_words::Refusal;
use frame_rules::{Frame, FrameFault};

/// The frame that the bytes are, or what a server refuses of them: the version, the first wrong field, or
/// where they or the frame end.
pub fn whole(bytes: &[u8]) -> Result<Frame<'_>, Refusal>
    ensures frame { IfOk result (λ f. whole_bytes bytes.now ≡ Ok (plain f)) }
    ensures spelled { IfOk result (λ f. Spells (plain f) bytes.now) }
    ensures refused { IfErr result (λ r. whole_bytes bytes.now ≡ Err r) }
    // The refusal can be answered.
    ensures is_refusal { IfErr result (λ r. IsFrame (refused_bytes r)) }
{
    match decode(bytes) {
        Ok((frame, length)) => {
            if length == bytes.len() {
                Ok(frame)
            } else {
                Err(Refusal::Malformed(length as u32))
            }
        }
        Err(FrameFault::Short) => Err(Refusal::Malformed(bytes.len() as u32)),
        Err(FrameFault::Malformed(place)) => Err(Refusal::Malformed(place)),
        Err(FrameFault::Version(version)) => Err(Refusal::Version(version)),
    }
}

/// The command that the bytes are, if they are exactly one, and of this width in bytes.
pub fn command_in(bytes: &[u8], width: u32) -> Option<Frame<'_>>
    ensures exact { option_map plain result ≡ linked is_command width bytes.now }
    ensures spelled { IfSome result (λ f. Spells (plain f) bytes.now) }
    ensures class { IfSome result (λ f. is_command (plain_body f.body) ≡ true) }
    ensures width { IfSome result (λ f. has_width width (plain_body f.body) ≡ true) }
{
    Received::of(bytes).command(width)
}

/// The reply that the bytes are, if they are exactly one, and of this width in bytes.
pub fn reply_in(bytes: &[u8], width: u32) -> Option<Frame<'_>>
    ensures exact { option_map plain result ≡ linked is_reply width bytes.now }
    ensures spelled { IfSome result (λ f. Spells (plain f) bytes.now) }
    ensures class { IfSome result (λ f. is_reply (plain_body f.body) ≡ true) }
    ensures width { IfSome result (λ f. has_width width (plain_body f.body) ≡ true) }
{
    Received::of(bytes).reply(width)
}
