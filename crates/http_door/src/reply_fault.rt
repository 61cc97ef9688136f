//! Why bytes that came are no answer of the door's.
ghost use Rattle.std.specs.Prelude.{Some};
ghost use Rattle.http_door.specs.Texts.{reply_fault_text};

use std::fmt;

/// What is wrong with what came where an answer was due.
#[derive(Clone, Copy, Debug, PartialEq, Eq)]
pub enum ReplyFault {
    /// It begins with no response of HTTP/1.0 or HTTP/1.1 that is taken: its head has more than `HEAD_MAX`
    /// bytes, more than `FIELDS_MAX` fields, or a line that doesn't end in CRLF, or its body has no length,
    /// or a longer one than `BODY_MAX`.
    Malformed,
    /// It is a response of this status, but none of the door's to what was asked.
    Foreign(u16),
}

impl fmt::Display for ReplyFault {
    ghost output = { λ fault. Some (reply_fault_text fault) };

    fn fmt<W: fmt::Write>(&self, f: &mut fmt::Formatter<W>) -> fmt::Result {
        match *self {
            ReplyFault::Malformed => f.write_str("no response of HTTP that is taken"),
            ReplyFault::Foreign(status) => write!(
                f,
                "a response of the status {status} that isn't the door's"
            ),
        }
    }
}
