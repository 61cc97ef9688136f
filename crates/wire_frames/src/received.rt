//! Bytes that are judged once, as one frame or none.
ghost use Rattle.std.specs.Prelude.{◌≡◌, true, IfOk, IfErr, IfSome, Ok, Err, option_map};
ghost use Rattle.frame_rules.specs.Frames.{plain, plain_body};
ghost use Rattle.frame_rules.specs.Spelling.{IsFrame, Spells};
ghost use Rattle.frame_rules.specs.Whole.{whole as whole_bytes, linked, refused_bytes};
ghost use Rattle.frame_rules.specs.Whole.{is_command, is_reply, has_width};

use crate::classes::{has_width, is_command, is_reply};
use crate::whole_bytes::whole;
use express_words::Refusal;
use frame_rules::Frame;
use std::marker::Model;

/// Bytes with what they are: exactly one frame, or what a server refuses of them.
#[derive(Drop)]
pub struct Received<'a> {
    bytes: &'a [u8],
    frame: Result<Frame<'a>, Refusal>,
}

impl<'a> Model for Received<'a> {
    ghost use Rattle.std.specs.Prelude.{List, ℕ};
    ghost use Rattle.wire_frames.specs.Judging.{IsJudged};

    ghost Value = { List ℕ };

    ghost view = { λ r. r.bytes.now };

    ghost invariant = { λ r. IsJudged r.bytes.now r.frame };
}

impl<'a> Received<'a> {
    /// Judges the bytes.
    pub fn of(bytes: &'a [u8]) -> Received<'a>
        ensures { result ≡ bytes.now }
    {
        Received {
            bytes,
            frame: whole(bytes),
        }
    }

    pub fn bytes(&self) -> &'a [u8]
        ensures { result.now ≡ self.now }
    {
        self.bytes
    }

    /// The frame that the bytes are, or what a server refuses of them.
    pub fn frame(&self) -> Result<Frame<'a>, Refusal>
        ensures frame { IfOk result (λ f. whole_bytes self.now ≡ Ok (plain f)) }
        ensures spelled { IfOk result (λ f. Spells (plain f) self.now) }
        ensures refused { IfErr result (λ r. whole_bytes self.now ≡ Err r) }
        // The refusal can be answered.
        ensures is_refusal { IfErr result (λ r. IsFrame (refused_bytes r)) }
    {
        self.frame
    }

    /// The command that the bytes are, if they are exactly one, and of this width in bytes.
    #[tactic(auto, unfolding(frame_rules::specs::Whole::linked))]
    pub fn command(&self, width: u32) -> Option<Frame<'a>>
        ensures exact { option_map plain result ≡ linked is_command width self.now }
        ensures spelled { IfSome result (λ f. Spells (plain f) self.now) }
        ensures class { IfSome result (λ f. is_command (plain_body f.body) ≡ true) }
        ensures width { IfSome result (λ f. has_width width (plain_body f.body) ≡ true) }
    {
        match self.frame() {
            Ok(frame) if is_command(&frame.body) && has_width(&frame.body, width) => Some(frame),
            _ => None,
        }
    }

    /// The reply that the bytes are, if they are exactly one, and of this width in bytes.
    #[tactic(auto, unfolding(frame_rules::specs::Whole::linked))]
    pub fn reply(&self, width: u32) -> Option<Frame<'a>>
        ensures exact { option_map plain result ≡ linked is_reply width self.now }
        ensures spelled { IfSome result (λ f. Spells (plain f) self.now) }
        ensures class { IfSome result (λ f. is_reply (plain_body f.body) ≡ true) }
        ensures width { IfSome result (λ f. has_width width (plain_body f.body) ≡ true) }
    {
        match self.frame() {
            Ok(frame) if is_reply(&frame.body) && has_width(&frame.body, width) => Some(frame),
            _ => None,
        }
    }
}
