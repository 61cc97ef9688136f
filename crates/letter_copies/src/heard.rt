//! What an answer to a request of a try tells of its copy.
ghost use Rattle.std.specs.Prelude.{◌≡◌};
ghost use Rattle.letter_copies.specs.Fate.{fate_by, fate_by_refusal};

use express_words::Refusal;

/// What came of one request of a try.
#[derive(Clone, Copy, Debug, PartialEq, Eq)]
pub enum Answer {
    /// Nothing, or nothing whole: the server wasn't reached, the connection broke off, or the server was busy.
    Lost,
    /// The lane isn't the ticket's, or no longer.
    NotYours,
    /// The lane isn't the ticket's any longer, and its request ended as written.
    EndedWritten,
    /// The same, and it ended as not written.
    EndedNotWritten,
    /// What the step waits for: the deposit or the proof is held, or the challenge.
    Fits,
    /// The write is accepted.
    Accepted,
    /// A refusal.
    Refused(Refusal),
    /// Another frame, or none at all.
    Other,
}

/// What an answer tells of the copy.
#[derive(Clone, Copy, Debug, PartialEq, Eq)]
pub enum Fate {
    /// The try goes on to its next step.
    GoesOn,
    /// Nothing yet: the same request again.
    Again,
    /// This try writes nothing, now or later.
    NotWritten,
    /// This try may have written the copy, and no more will be heard of it.
    Unknown,
    /// The copy is written.
    Written,
}

/// What an answer tells, by whether the try's last proof has gone out:
///
/// | answer | before the last proof | after it |
/// |---|---|---|
/// | none, or busy | again | again |
/// | what the step waits for | goes on | goes on |
/// | accepted, or ended as written | unknown | written |
/// | `again`, `linkdown` | again | again |
/// | ended as not written | not written | not written |
/// | `rejected`, `notproved`, `nodeposit` | not written | not written |
/// | `malformed`, `version` | not written | again |
/// | another frame | unknown | again |
/// | not yours, `stale`, `phase`, any other refusal | not written | unknown |
///
/// A leader settles a write only once it has taken its last proof, so before that nothing is written. Only who has a copy
/// of the try's own notes can have sent that proof meanwhile: so what is told as written before it is unknown, and so is
/// what no server answers at that step.
#[tactic(auto, unfolding(crate::specs::Fate::fate_by, crate::specs::Fate::fate_by_refusal))]
pub fn fate_by(proof_out: bool, answer: Answer) -> Fate
    ensures { result ≡ fate_by proof_out answer }
{
    match answer {
        Answer::Lost => Fate::Again,
        Answer::Fits => Fate::GoesOn,
        Answer::EndedNotWritten => Fate::NotWritten,
        Answer::Accepted | Answer::EndedWritten if proof_out => Fate::Written,
        Answer::Accepted | Answer::EndedWritten => Fate::Unknown,
        Answer::Refused(refusal) => fate_by_refusal(proof_out, refusal),
        Answer::NotYours if proof_out => Fate::Unknown,
        Answer::NotYours => Fate::NotWritten,
        Answer::Other if proof_out => Fate::Again,
        Answer::Other => Fate::Unknown,
    }
}

#[tactic(auto, unfolding(crate::specs::Fate::fate_by_refusal))]
fn fate_by_refusal(proof_out: bool, refusal: Refusal) -> Fate
    ensures { result ≡ fate_by_refusal proof_out refusal }
{
    match refusal {
        Refusal::Again(_) | Refusal::LinkDown(_) => Fate::Again,
        Refusal::Rejected(_, _, _, _) | Refusal::NotProved | Refusal::NoDeposit => Fate::NotWritten,
        Refusal::Malformed(_) | Refusal::Version(_) if proof_out => Fate::Again,
        _ if proof_out => Fate::Unknown,
        _ => Fate::NotWritten,
    }
}
