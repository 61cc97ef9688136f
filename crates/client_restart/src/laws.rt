//! What records tell, and what holds of a client that remembers whatever happens to it.
ghost use Rattle.std.specs.Prelude.{◌≡◌};
ghost use Rattle.client_restart.specs.Laws.{EndedIsUntold, FramesAreOfOneRequest, GivenUpNeverComesAgain, OutcomesStand, SerialsRise};
ghost use Rattle.client_restart.specs.Notes.{IsNote, Noted, note_record};
ghost use Rattle.client_restart.specs.Openings.{IsClientOpening, opening_record};
ghost use Rattle.client_restart.specs.declared.opening.ClientOpening.{ClientOpening};

/// A record tells the opening or the note whose record it is, and none is both. The function is empty: its
/// contract is the law.
#[tactic(auto, using(crate::proofs::OpeningLaws::one_opening, crate::proofs::NoteLaws::one_note))]
pub fn records_tell()
    ensures opening { (a b : ClientOpening) → IsClientOpening a → IsClientOpening b
        → opening_record a ≡ opening_record b → a ≡ b }
    ensures notes { (a b : Noted) → IsNote a → IsNote b → note_record a ≡ note_record b → a ≡ b }
    ensures apart { (a : ClientOpening) (b : Noted) → opening_record a ≡ note_record b → ⊥ }
{}

/// The laws of a client that remembers, over any calls, crashes and reopenings. The function is empty: its
/// contract is the laws.
pub fn client_remembers()
    ensures serials_rise { SerialsRise }
    ensures one_request { FramesAreOfOneRequest }
    ensures never_again { GivenUpNeverComesAgain }
    ensures untold { EndedIsUntold }
    ensures stands { OutcomesStand }
{}
