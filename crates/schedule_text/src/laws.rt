//! The laws of the grammar. Each function is empty: its contract is the law.
ghost use Rattle.std.specs.Prelude.{◌≡◌, ℕ, true, false, List, Some, Ok, Err};
ghost use Rattle.dpf_rules.specs.Bytes.{AreBytes};
ghost use Rattle.schedule_text.specs.Grammar.{schedule_of};
ghost use Rattle.schedule_text.specs.Lanes.{lane_in, IsFrameOf, is_used, is_foreign};
ghost use Rattle.schedule_text.specs.Rules.{KeepsRules};
ghost use Rattle.schedule_text.specs.Spelling.{SpellsSchedule, IsFirstBadLine};

use crate::schedule::{MOST_EVENTS, Schedule};

/// A text is read as a schedule exactly where it spells it, and refused at a line exactly where that is its
/// first bad one.
pub fn read_exactly()
    ensures found { (text : List ℕ) (s : Schedule) → schedule_of text ≡ Ok s → SpellsSchedule s text }
    ensures only { (text : List ℕ) (s : Schedule) → SpellsSchedule s text → schedule_of text ≡ Ok s }
    ensures bad { (text : List ℕ) (n : ℕ) → schedule_of text ≡ Err n → IsFirstBadLine n text }
    ensures only_bad { (text : List ℕ) (n : ℕ) → IsFirstBadLine n text → schedule_of text ≡ Err n }
    ensures most_events { MOST_EVENTS ≡ 20000 }
{}

/// In a schedule that keeps the rules no client's lane is foreign, wherever the two lines stand.
pub fn lanes_are_apart()
    ensures { (s : Schedule) (lane : ℕ) → KeepsRules s → is_used s.events lane ≡ true
        → is_foreign s.events lane ≡ false }
{}

/// Bytes make a lane foreign exactly where they spell one frame that a client sends to a server on it.
pub fn foreign_as_spelled()
    ensures found { (bytes : List ℕ) (l : ℕ) → AreBytes bytes → lane_in bytes ≡ Some l → IsFrameOf l bytes }
    ensures only { (bytes : List ℕ) (l : ℕ) → IsFrameOf l bytes → lane_in bytes ≡ Some l }
{}
