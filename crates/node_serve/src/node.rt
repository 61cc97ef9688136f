//! A server, and what became of a connection.
use express_words::Text;
use helper_core::Helper;
use leader_core::Leader;

/// A server.
#[derive(Drop)]
pub enum Node {
    /// The leader, with the helper's address.
    Lead(Leader, Text),
    Help(Helper),
}

/// What became of a connection.
#[derive(Clone, Copy, Debug, PartialEq, Eq)]
pub enum Served {
    /// It was answered, if only by nothing where the helper ignored a command.
    Answered,
    /// It ended before its bytes were a frame or known to be none.
    Ended,
    /// It failed; its count of faults.
    ConnFault(u64),
    /// An exchange with the helper failed; the net's count of faults.
    LinkFault(u64),
    /// The helper's answer ended early, was no frame, or didn't fit.
    LinkBad,
}
