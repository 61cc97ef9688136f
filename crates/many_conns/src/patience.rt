//! How long the server waits for a connection.

/// For how long a connection is waited for, in the units of the outside's clock.
#[derive(Clone, Copy, Debug, PartialEq, Eq)]
pub struct Patience {
    /// For its next frame.
    pub frame: u64,
    /// With a frame that waits for its answer, for that answer.
    pub answer: u64,
}
