//! The laws of the grammar. Each function is empty: its contract is the law.
ghost use Rattle.std.specs.Prelude.{◌≡◌, ◌≢◌, ℕ, ◌+◌, ◌<◌, ◌≤◌, ◌==◌, nat_le, ◌&&◌, ◌||◌, List, [], ◌++◌, All, length, take, Ok, Err};
ghost use Rattle.frame_rules.specs.Frames.{PlainFrame, PlainBody};
ghost use Rattle.frame_rules.specs.Kinds.{kind_number};
ghost use Rattle.frame_rules.specs.Spelling.{kind_of, spelling, IsFrame, Spells};
ghost use Rattle.frame_rules.specs.Reading.{decoded};
ghost use Rattle.frame_rules.specs.Whole.{whole, is_from_client, is_command, is_reply};
ghost use Rattle.frame_rules.specs.Gathering.{gathered, Gathers};
ghost use Rattle.frame_rules.specs.declared.fault.FrameFault.{FrameFault as Fault};

use crate::fault::FrameFault;
use crate::frame::FRAME_MAX;
use express_words::Refusal;

/// Each frame has one spelling, and no spelling begins another one.
pub fn one_spelling()
    ensures one { (f : PlainFrame) (a b : List ℕ) → Spells f a → Spells f b → a ≡ b }
    ensures no_prefix { (f g : PlainFrame) (a more : List ℕ) → Spells f a → Spells g (a ++ more) → (f ≡ g) × (more ≡ []) }
{}

/// What is read is spelled so, and what is spelled so is read, whatever follows it.
pub fn read_as_spelled()
    ensures read { (bytes : List ℕ) (f : PlainFrame) (len : ℕ) → All (λ b. b < 256) bytes → decoded bytes ≡ Ok (f, len) → Spells f (take len bytes) × (len ≤ length bytes) }
    ensures again { (f : PlainFrame) (bytes rest : List ℕ) → Spells f bytes → decoded (bytes ++ rest) ≡ Ok (f, length bytes) }
{}

/// Bytes that end before the frame does are short, and a frame or another fault stays, whatever follows it.
pub fn judged_once()
    ensures short { (f : PlainFrame) (bytes : List ℕ) (n : ℕ) → Spells f bytes → n < length bytes → decoded (take n bytes) ≡ Err FrameFault.Short }
    ensures frame { (a more : List ℕ) (x : PlainFrame × ℕ) → decoded a ≡ Ok x → decoded (a ++ more) ≡ Ok x }
    ensures fault { (a more : List ℕ) (fault : Fault) → fault ≢ FrameFault.Short → decoded a ≡ Err fault → decoded (a ++ more) ≡ Err fault }
{}

/// What is held of a stream depends on its bytes alone, and not on the pieces in which they came.
pub fn gathered_in_any_pieces()
    ensures pieces { (held a b : List ℕ) → gathered (gathered held a) b ≡ gathered held (a ++ b) }
    ensures held { (stream : List ℕ) → Gathers stream (gathered [] stream) }
    ensures only { (stream a b : List ℕ) → Gathers stream a → Gathers stream b → a ≡ b }
{}

/// A frame has 21 to FRAME_MAX bytes, and some frame has so many. Bytes that are short are fewer.
pub fn lengths()
    ensures least { (f : PlainFrame) (bytes : List ℕ) → Spells f bytes → 21 ≤ length bytes }
    ensures most { (f : PlainFrame) (bytes : List ℕ) → Spells f bytes → length bytes ≤ FRAME_MAX }
    ensures reached { (f : PlainFrame) × IsFrame f × (length (spelling f) ≡ FRAME_MAX) }
    ensures short { (bytes : List ℕ) → decoded bytes ≡ Err FrameFault.Short → length bytes < FRAME_MAX }
{}

/// Bytes are taken as exactly one frame where they spell it, and not where they end early or others follow.
pub fn whole_as_spelled()
    ensures found { (bytes : List ℕ) (f : PlainFrame) → All (λ b. b < 256) bytes → whole bytes ≡ Ok f → Spells f bytes }
    ensures only { (f : PlainFrame) (bytes : List ℕ) → Spells f bytes → whole bytes ≡ Ok f }
    ensures early { (f : PlainFrame) (bytes : List ℕ) (n : ℕ) → Spells f bytes → n < length bytes → whole (take n bytes) ≡ Err (Refusal.Malformed n) }
    ensures behind { (f : PlainFrame) (bytes more : List ℕ) → Spells f bytes → more ≢ [] → whole (bytes ++ more) ≡ Err (Refusal.Malformed (length bytes)) }
{}

/// The classes of frames are those of these numbers of kinds.
pub fn classes()
    ensures from_client { (b : PlainBody) → is_from_client b ≡ (nat_le (kind_number (kind_of b)) 5 || kind_number (kind_of b) == 16) }
    ensures command { (b : PlainBody) → is_command b ≡ ((nat_le 10 (kind_number (kind_of b)) && nat_le (kind_number (kind_of b)) 14) || kind_number (kind_of b) == 17) }
    ensures reply { (b : PlainBody) → is_reply b ≡ (kind_number (kind_of b) == 15 || kind_number (kind_of b) == 18) }
{}
