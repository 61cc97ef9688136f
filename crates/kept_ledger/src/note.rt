//! What a ledger's journal notes behind its opening.
use crate::entry::{Denied, Marked, OwnBox};
use crate::task::Task;
use desk_texts::Day;

/// So many addresses stand at one name at most: as many as stand on a card.
pub const MOST_AT_ONCE: usize = 64;

/// Boxes with a name that are wanted.
#[derive(Clone, Copy, Debug, PartialEq, Eq)]
pub struct WantedBoxes<'a> {
    pub name: &'a str,
    /// Where they are to stand: 1 to 64, all different and new.
    pub addresses: &'a [u128],
    /// The last day of their card, if it is to have one. It stands in the name's own record, so that no crash
    /// leaves a card without it.
    pub until: Option<Day>,
}

/// Boxes with this name are closed on this day.
#[derive(Clone, Copy, Debug, PartialEq, Eq)]
pub struct ClosedName<'a> {
    pub name: &'a str,
    pub day: Day,
}

/// What a box held, as an earlier ledger tells.
#[derive(Clone, Copy, Debug, PartialEq, Eq)]
pub struct CarriedReading<'a> {
    pub address: u128,
    /// When it was read, in seconds since 1970 UTC.
    pub seconds: u64,
    /// At most 8,189 bytes.
    pub bytes: &'a [u8],
}

/// What is noted behind a ledger's opening, one record each.
#[derive(Clone, Copy, Debug, PartialEq, Eq)]
pub enum LedgerNote<'a> {
    /// Boxes with a name are wanted.
    Named(WantedBoxes<'a>),
    /// They are closed: they are read as before, but their card isn't handed out any more.
    Closed(ClosedName<'a>),
    /// They are to be retired.
    Retiring(&'a str),
    /// A letter was shown or written.
    Marked(Marked),
    /// The servers were asked for this.
    Asked(Task),
    /// It is so many seconds since 1970 UTC: the time of what is heard behind this.
    Time(u64),
    /// A server's frame was heard, of at most 8,213 bytes.
    Heard(&'a [u8]),
    /// The current request was given up.
    GivenUp,
    /// A box is owned that an earlier ledger got.
    Owned(OwnBox),
    /// There is no box to come at an address.
    Denied(Denied),
    /// What a box held, as an earlier ledger tells.
    Carried(CarriedReading<'a>),
}
