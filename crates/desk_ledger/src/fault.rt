//! Why a call on a ledger is refused.
ghost use Rattle.std.specs.Prelude.{Some};
ghost use Rattle.desk_ledger.specs.Texts.{forget_text, name_text, open_text};

use client_restart::KeepFault;
use std::fmt;

/// Why no desk is opened.
#[derive(Clone, Copy, Debug, PartialEq, Eq)]
pub enum OpenFault {
    /// The first bad line of the pair file, counted from 1.
    BadLine(u32),
    /// The text is a card's.
    NoPairFile,
    /// The text has more than 8,212 bytes.
    TooLong,
    /// The ledger's journal fails.
    Keep(KeepFault),
    /// The ledger has no pair: it wasn't made to its end.
    NoPair,
    /// The remark of this number, counted from 0, is no entry.
    NoEntry(usize),
}

impl fmt::Display for OpenFault {
    ghost output = { λ fault. Some (open_text fault) };

    fn fmt<W: fmt::Write>(&self, f: &mut fmt::Formatter<W>) -> fmt::Result {
        match self {
            OpenFault::BadLine(line) => write!(f, "bad line {line}"),
            OpenFault::NoPairFile => f.write_str("not a pair file"),
            OpenFault::TooLong => f.write_str("the pair file is too long"),
            OpenFault::Keep(fault) => write!(f, "{fault}"),
            OpenFault::NoPair => f.write_str("the ledger isn't whole"),
            OpenFault::NoEntry(number) => write!(f, "ledger foreign {number}"),
        }
    }
}

/// Why a name isn't taken, in the order in which this is judged.
#[derive(Clone, Copy, Debug, PartialEq, Eq)]
pub enum NameFault {
    /// It isn't 1 to 32 lower-case letters, digits and `-`.
    Form,
    /// The desk has boxes with it already.
    Used,
    /// There are no addresses for it, or more than 64.
    Count,
    /// An address stands among them twice, or was drawn before.
    SameAddress,
    /// The pair has no room for so many boxes: so many more have room.
    NoRoom(u32),
}

impl fmt::Display for NameFault {
    ghost output = { λ fault. Some (name_text fault) };

    fn fmt<W: fmt::Write>(&self, f: &mut fmt::Formatter<W>) -> fmt::Result {
        match self {
            NameFault::Form => f.write_str("a name is 1 to 32 lower-case letters, digits and -"),
            NameFault::Used => f.write_str("the name is used already"),
            NameFault::Count => f.write_str("1 to 64 boxes have one name"),
            NameFault::SameAddress => f.write_str("an address was drawn twice"),
            NameFault::NoRoom(left) => write!(f, "no room for so many boxes: {left} are left"),
        }
    }
}

/// Why no ledger is made of another one.
#[derive(Clone, Copy, Debug, PartialEq, Eq)]
pub enum ForgetFault {
    /// A request is under way, or its outcome isn't stored.
    Busy,
    /// All serials are spent.
    Spent,
    /// A letter is in no file, and wasn't shown, or can't be, since it is no text.
    Unseen,
    /// More boxes are live than a client has room for.
    NoRoom,
    /// The new ledger's journal fails.
    Keep(KeepFault),
}

impl fmt::Display for ForgetFault {
    ghost output = { λ fault. Some (forget_text fault) };

    fn fmt<W: fmt::Write>(&self, f: &mut fmt::Formatter<W>) -> fmt::Result {
        match self {
            ForgetFault::Busy => f.write_str("a request is under way"),
            ForgetFault::Spent => f.write_str("all serials are spent"),
            ForgetFault::Unseen => f.write_str("a letter wasn't seen"),
            ForgetFault::NoRoom => f.write_str("no room for the boxes"),
            ForgetFault::Keep(fault) => write!(f, "{fault}"),
        }
    }
}
