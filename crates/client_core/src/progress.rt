//! What a client says of a reply.
use express_words::Refusal;

/// How a request ends.
#[derive(Clone, Copy, Debug, PartialEq, Eq)]
pub enum Outcome {
    /// The box of this number is the client's own.
    Registered(u32),
    /// The write is accepted.
    Accepted,
    /// The box's message was written.
    Message,
    /// A server refused the request.
    Refused(Refusal),
}

/// What became of a reply.
#[derive(Clone, Copy, Debug, PartialEq, Eq)]
pub enum Progress {
    /// It isn't a reply to the present step.
    Ignored,
    /// The server didn't take the frame; the same one may be sent again.
    Later(Refusal),
    /// The request goes on to its next step.
    Next,
    /// The request is finished, and none is current.
    Finished(Outcome),
}
