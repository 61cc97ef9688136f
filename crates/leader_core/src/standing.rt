//! How a lane stands, for whoever gives the lane to another.

/// How a lane stands.
#[derive(Clone, Copy, Debug, PartialEq, Eq)]
pub enum Standing {
    /// A command of its request is outstanding: what becomes of the request isn't known yet.
    Busy,
    /// Its request, of this serial, is a write that was accepted.
    Written(u32),
    /// It has no request, or one of which nothing will come but by another frame of its client.
    Other,
}
