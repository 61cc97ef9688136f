//! The law of a frame's first wrong field. The function is empty: its contract is the law.
ghost use Rattle.std.specs.Prelude.{◌≡◌, ◌≢◌, ◌⊎◌, ℕ, List, Ok, Err};
ghost use Rattle.frame_rules.specs.Frames.{PlainFrame};
ghost use Rattle.frame_rules.specs.Reading.{decoded};
ghost use Rattle.frame_rules.specs.Fields.{fields, FirstWrong};
ghost use Rattle.frame_rules.specs.declared.fault.FrameFault.{FrameFault as Fault};

use crate::fault::FrameFault;

/// A fault but for Short is told exactly where one of the format's fields is wrong and all before it have come and are
/// right, and it is this field's. Where no field that has come is wrong, the bytes are short or begin with a frame.
pub fn faults_are_first_wrong()
    ensures found { (bytes : List ℕ) (fault : Fault) → decoded bytes ≡ Err fault
        → fault ≢ FrameFault.Short → FirstWrong fields bytes fault }
    ensures only { (bytes : List ℕ) (fault : Fault) → FirstWrong fields bytes fault
        → decoded bytes ≡ Err fault }
    ensures none { (bytes : List ℕ) → ((fault : Fault) → FirstWrong fields bytes fault → ⊥)
        → (decoded bytes ≡ Err FrameFault.Short) ⊎ ((x : PlainFrame × ℕ) × (decoded bytes ≡ Ok x)) }
{}
