//! What is said to a client where no command is issued.
use frame_rules::Body;

/// A reply for the client, or that the lane's command of this number is outstanding.
#[derive(Clone, Copy)]
pub(crate) enum SaidToClient<'a> {
    Reply(Body<'a>),
    Waiting(u64),
}
