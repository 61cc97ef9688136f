//! What a client is asked, and why it doesn't take a request.
ghost use Rattle.std.specs.Prelude.{Some};
ghost use Rattle.client_core.specs.Texts.{fault_text};

use std::fmt;

/// A request. A read or a retire names one of the client's own boxes, counted from 0 in the order in which it got
/// them.
#[derive(Clone, Copy, Debug, PartialEq, Eq)]
pub enum Request<'a> {
    /// Asks for a box at this address.
    Register { address: u128 },
    /// Adds a message, which has the width, to the box at this address.
    Write { target: u128, message: &'a [u8] },
    /// Reads an own box and clears it.
    Read { own: u32 },
    /// Reads an own box for the last time.
    Retire { own: u32 },
}

/// Why a request isn't taken. The client is then as it was.
#[derive(Clone, Copy, Debug, PartialEq, Eq)]
pub enum AskFault {
    /// Another request is current.
    Busy,
    /// The last serial, 2^32 - 1, was used.
    Spent,
    /// The client owns no box of this number.
    NoBox(u32),
    /// The message hasn't the client's width, which is this many bytes.
    Width(u32),
    /// The client owns as many boxes as this, and has room for no more.
    OwnFull(u32),
}

impl fmt::Display for AskFault {
    ghost output = { λ fault. Some (fault_text fault) };

    fn fmt<W: fmt::Write>(&self, f: &mut fmt::Formatter<W>) -> fmt::Result {
        match *self {
            AskFault::Busy => f.write_str("busy"),
            AskFault::Spent => f.write_str("spent"),
            AskFault::NoBox(own) => write!(f, "no box {own}"),
            AskFault::Width(width) => write!(f, "width {width}"),
            AskFault::OwnFull(capacity) => write!(f, "own full {capacity}"),
        }
    }
}
