//! Why a request is refused before anybody looks at its ticket.
ghost use Rattle.std.specs.Prelude.{◌≡◌, Some};
ghost use Rattle.http_door.specs.Texts.{fault_status, fault_text};

use std::fmt;

/// What is wrong with a request, by the status that tells it (RFC 9110, section 15.5; RFC 6585, section 5).
#[derive(Clone, Copy, Debug, PartialEq, Eq)]
pub enum DoorFault {
    /// 400: no head of HTTP/1.0 or HTTP/1.1 that is read in one way only, or a body that isn't one of its
    /// path.
    Malformed,
    /// 404: another path.
    NoPath,
    /// 405: another method than POST and OPTIONS.
    Method,
    /// 411: a body without a length.
    NoLength,
    /// 413: a longer body than `BODY_MAX`.
    LongBody,
    /// 415: another type than `application/octet-stream`.
    NotOctets,
    /// 431: a longer head than `HEAD_MAX`, or more fields than `FIELDS_MAX`.
    LongHead,
}

impl DoorFault {
    /// The status code.
    pub fn status(self) -> u16
        ensures { result ≡ fault_status self }
    {
        match self {
            DoorFault::Malformed => 400,
            DoorFault::NoPath => 404,
            DoorFault::Method => 405,
            DoorFault::NoLength => 411,
            DoorFault::LongBody => 413,
            DoorFault::NotOctets => 415,
            DoorFault::LongHead => 431,
        }
    }

    /// The reason phrase.
    pub fn text(self) -> &'static str
        ensures { result.now ≡ fault_text self }
    {
        match self {
            DoorFault::Malformed => "Bad Request",
            DoorFault::NoPath => "Not Found",
            DoorFault::Method => "Method Not Allowed",
            DoorFault::NoLength => "Length Required",
            DoorFault::LongBody => "Content Too Large",
            DoorFault::NotOctets => "Unsupported Media Type",
            DoorFault::LongHead => "Request Header Fields Too Large",
        }
    }
}

impl fmt::Display for DoorFault {
    ghost output = { λ fault. Some (fault_text fault) };

    fn fmt<W: fmt::Write>(&self, f: &mut fmt::Formatter<W>) -> fmt::Result {
        f.write_str(self.text())
    }
}
