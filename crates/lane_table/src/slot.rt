//! The places of a table, one a lane.
use crate::row::Row;

/// The row of a lane, and how many bytes of its block the kept reply has.
#[derive(Clone, Copy)]
pub(crate) struct Slot {
    pub(crate) row: Row,
    pub(crate) length: usize,
}

impl Slot {
    pub(crate) const IDLE: Slot = Slot {
        row: Row::IDLE,
        length: 0,
    };
}
