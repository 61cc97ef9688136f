//! Why a server refuses a frame or a command.
ghost use Rattle.std.specs.Prelude.{Some};
ghost use Rattle.express_words.specs.Texts.{number_text, refusal_text};

use std::fmt;

/// A refusal, with what explains it. The number before each is its number on the wire.
#[derive(Clone, Copy, Debug, PartialEq, Eq)]
pub enum Refusal {
    /// 1: the bytes are no frame that is taken here; the place of the first wrong field.
    Malformed(u32),
    /// 2: the frame has this version, which isn't known.
    Version(u8),
    /// 3: the lane isn't below this limit.
    Lane(u16),
    /// 4: the lane's row stands at this serial.
    Stale(u32),
    /// 5: the lane's row is in this phase.
    Phase(u8),
    /// 6: the address stands at this box.
    Taken(u32),
    /// 7: as many boxes as this limit stand.
    Full(u32),
    /// 8: there is no such box, or it is retired.
    NoBox(u32),
    /// 9: the token isn't the one of this box's key.
    BadToken(u32),
    /// 10: no deposit of the lane and serial waits for this command.
    NoDeposit,
    /// 11: no proof share of the write has come.
    NotProved,
    /// 12: the audit failed, with o of both servers and then tau of both servers.
    Rejected(u128, u128, u128, u128),
    /// 13: the link's window is full, with the oldest outstanding number, or 0 where the link's numbers are used up.
    Again(u64),
    /// 14: the link to the other server failed, with the net's count of faults.
    LinkDown(u64),
}

// A number in 32 hexadecimal digits, the most significant first.
#[derive(Clone, Copy)]
struct Number(u128);

impl fmt::Display for Number {
    ghost output = { λ n. Some (number_text n.0) };

    fn fmt<W: fmt::Write>(&self, f: &mut fmt::Formatter<W>) -> fmt::Result {
        let high = (self.0 >> 64) as u64;
        let low = (self.0 % (1 << 64)) as u64;
        write!(f, "{high:016x}{low:016x}")
    }
}

/// The refusal's word and what explains it: numbers in decimal digits, the sums of an audit in 32 hexadecimal
/// digits each.
impl fmt::Display for Refusal {
    ghost output = { λ r. Some (refusal_text r) };

    fn fmt<W: fmt::Write>(&self, f: &mut fmt::Formatter<W>) -> fmt::Result {
        match *self {
            Refusal::Malformed(place) => write!(f, "malformed {place}"),
            Refusal::Version(version) => write!(f, "version {version}"),
            Refusal::Lane(limit) => write!(f, "lane {limit}"),
            Refusal::Stale(serial) => write!(f, "stale {serial}"),
            Refusal::Phase(phase) => write!(f, "phase {phase}"),
            Refusal::Taken(box_number) => write!(f, "taken {box_number}"),
            Refusal::Full(limit) => write!(f, "full {limit}"),
            Refusal::NoBox(box_number) => write!(f, "nobox {box_number}"),
            Refusal::BadToken(box_number) => write!(f, "badtoken {box_number}"),
            Refusal::NoDeposit => f.write_str("nodeposit"),
            Refusal::NotProved => f.write_str("notproved"),
            Refusal::Rejected(o0, o1, t0, t1) => {
                let (o0, o1) = (Number(o0), Number(o1));
                let (t0, t1) = (Number(t0), Number(t1));
                write!(f, "rejected {o0} {o1} {t0} {t1}")
            }
            Refusal::Again(number) => write!(f, "again {number}"),
            Refusal::LinkDown(count) => write!(f, "linkdown {count}"),
        }
    }
}
