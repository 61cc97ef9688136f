//! What an answer to a frame tells of the letter.
ghost use Rattle.std.specs.Prelude.{◌≡◌};
ghost use Rattle.desk_tries.specs.Fate.{fate_by, fate_by_refusal};

use express_words::Refusal;

/// What came of one frame of a try.
#[derive(Clone, Copy, Debug, PartialEq, Eq)]
pub enum Answer {
    /// Nothing, or nothing whole: the server wasn't reached, or the connection broke off.
    Lost,
    /// What the step waits for: the deposit or the proof is held, or the challenge.
    Fits,
    /// The write is accepted.
    Accepted,
    /// A refusal.
    Refused(Refusal),
    /// Another frame, or none at all.
    Other,
}

/// What an answer tells of the letter.
#[derive(Clone, Copy, Debug, PartialEq, Eq)]
pub enum Fate {
    /// The try goes on to its next step.
    GoesOn,
    /// Nothing yet: the same frame again.
    Again,
    /// This try writes nothing, now or later.
    NotWritten,
    /// This try may have written the letter, and no more will be heard of it.
    Unknown,
    /// The letter is written.
    Written,
}

/// What an answer tells, by whether the try's last proof has gone out:
///
/// | answer | before the last proof | after it |
/// |---|---|---|
/// | none | again | again |
/// | what the step waits for | goes on | goes on |
/// | accepted | not written: it is another's | written |
/// | `again`, `linkdown` | again | again |
/// | `rejected`, `notproved`, `nodeposit` | not written | not written |
/// | `malformed`, `version` | not written | again |
/// | `stale`, `phase`, `lane`, any other refusal | not written | unknown |
/// | another frame | not written | again |
///
/// A leader settles a write only once it has taken its last proof, so before that nothing is written. Behind it, the
/// three refusals stand in a leader's row that is done: its lane and serial get no other answer, and neither server has
/// added anything. `stale` and `phase` say only that the lane is another's by now.
#[tactic(auto, unfolding(crate::specs::Fate::fate_by, crate::specs::Fate::fate_by_refusal))]
pub fn fate_by(proof_out: bool, answer: Answer) -> Fate
    ensures { result ≡ fate_by proof_out answer }
{
    match answer {
        Answer::Lost => Fate::Again,
        Answer::Fits => Fate::GoesOn,
        Answer::Accepted if proof_out => Fate::Written,
        Answer::Refused(refusal) => fate_by_refusal(proof_out, refusal),
        Answer::Other if proof_out => Fate::Again,
        Answer::Accepted | Answer::Other => Fate::NotWritten,
    }
}

#[tactic(auto, unfolding(crate::specs::Fate::fate_by_refusal))]
fn fate_by_refusal(proof_out: bool, refusal: Refusal) -> Fate
    ensures { result ≡ fate_by_refusal proof_out refusal }
{
    match refusal {
        Refusal::Again(_) | Refusal::LinkDown(_) => Fate::Again,
        Refusal::Rejected(_, _, _, _) | Refusal::NotProved | Refusal::NoDeposit => Fate::NotWritten,
        Refusal::Malformed(_) | Refusal::Version(_) if proof_out => Fate::Again,
        _ if proof_out => Fate::Unknown,
        _ => Fate::NotWritten,
    }
}
