//! The text of each outcome.
ghost use Rattle.std.specs.Prelude.{◌≡◌, IfOk, string_bytes};
ghost use Rattle.client_core.specs.Outcomes.{with_message, refused_text, outcome_text, no_box_text};

use crate::progress::Outcome;
use express_words::Refusal;
use std::alloc::{AllocError, Global};

fn refused_text(alloc: Global, refusal: Refusal) -> Result<String, AllocError>
    ensures { IfOk result (λ text. string_bytes text ≡ refused_text refusal) }
{
    if let Refusal::Rejected(_, _, _, _) = refusal {
        return format!(in alloc; "rejected");
    }
    format!(in alloc; "refused {refusal}")
}

/// The text of an outcome, without a line's end: `registered BOX`, `accepted`, `message HEX` with these bytes in
/// lower case, `rejected`, or `refused ` and the refusal's text. The only error is want of memory.
pub fn outcome_text(alloc: Global, outcome: Outcome, message: &[u8]) -> Result<String, AllocError>
    ensures { IfOk result (λ text. string_bytes text ≡ outcome_text (with_message outcome message.now)) }
{
    match outcome {
        Outcome::Registered(box_number) => format!(in alloc; "registered {box_number}"),
        Outcome::Accepted => format!(in alloc; "accepted"),
        Outcome::Message => {
            let digits = hex::encode(alloc, message)?;
            format!(in alloc; "message {digits}")
        }
        Outcome::Refused(refusal) => refused_text(alloc, refusal),
    }
}

/// The text `no box K` of a request for a box of a client's own that it doesn't have. The only error is want of
/// memory.
pub fn no_box_text(alloc: Global, own: u32) -> Result<String, AllocError>
    ensures { IfOk result (λ text. string_bytes text ≡ no_box_text own) }
{
    format!(in alloc; "no box {own}")
}
