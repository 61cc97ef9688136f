//! The row of a lane.
use crate::phase;

/// What a request asks for.
#[derive(Clone, Copy, Debug, PartialEq, Eq)]
pub enum Want {
    /// No request has come.
    Nothing,
    /// A box of its own.
    Register,
    /// A message added to the box of an address.
    Write,
    /// A box's message, or its retirement.
    Read,
}

/// Where a lane stands: the serial of its newest request, how far that has come (a value of `phase`) and what it asks
/// for.
#[derive(Clone, Copy, Debug, PartialEq, Eq)]
pub struct Row {
    pub serial: u32,
    pub phase: u8,
    pub want: Want,
}

impl Row {
    /// The row of a lane of which no frame has come.
    pub const IDLE: Row = Row {
        serial: 0,
        phase: phase::IDLE,
        want: Want::Nothing,
    };
}
