//! What a run came to.
use express_words::Text;

/// How a run ended.
#[derive(Clone, Copy, Debug, PartialEq, Eq)]
pub enum RunEnd {
    /// With its last request, or where a server or the client itself stopped it.
    Done,
    /// An exchange failed.
    NetFault,
}

/// What a run prints, and how it ended.
#[derive(Drop)]
pub struct Ran {
    pub text: Text,
    pub end: RunEnd,
}
