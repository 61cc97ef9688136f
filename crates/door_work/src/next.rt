//! What a machine wants next.
use express_words::Role;
use http_door::Request;

/// What a machine wants next.
#[derive(Clone, Copy)]
pub enum Next<'a> {
    /// Nothing: it is at its end, or waits for what no door gives.
    Rest,
    /// That this record of its own is kept.
    Note(&'a [u8]),
    /// That a server's door is asked this.
    Ask { to: Role, request: Request<'a> },
}
