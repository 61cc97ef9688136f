//! The numbers, versions and links of the kinds.
ghost use Rattle.std.specs.Prelude.{◌≡◌};
ghost use Rattle.frame_rules.specs.Frames.{plain_body};
ghost use Rattle.frame_rules.specs.Spelling.{kind_of};
ghost use Rattle.frame_rules.specs.Kinds.{kind_numbered, kind_number, version_of, is_linked};

use frame_rules::{Body, Kind};

/// The kind with this number.
#[tactic(auto, unfolding(frame_rules::specs::Kinds::kind_numbered))]
pub fn kind_numbered(number: u8) -> Option<Kind>
    ensures { result ≡ kind_numbered number }
{
    match number {
        1 => Some(Kind::Deposit),
        2 => Some(Kind::Register),
        3 => Some(Kind::Write),
        4 => Some(Kind::Read),
        5 => Some(Kind::Proof),
        6 => Some(Kind::Held),
        7 => Some(Kind::Challenge),
        8 => Some(Kind::Done),
        9 => Some(Kind::Refused),
        10 => Some(Kind::LinkRegister),
        11 => Some(Kind::LinkBegin),
        12 => Some(Kind::LinkAudit),
        13 => Some(Kind::LinkSettle),
        14 => Some(Kind::LinkRead),
        15 => Some(Kind::LinkReply),
        16 => Some(Kind::Retire),
        17 => Some(Kind::LinkRetire),
        18 => Some(Kind::LinkBegun),
        _ => None,
    }
}

/// The kind's number on the wire.
pub fn kind_number(kind: Kind) -> u8
    ensures { result ≡ kind_number kind }
{
    match kind {
        Kind::Deposit => 1,
        Kind::Register => 2,
        Kind::Write => 3,
        Kind::Read => 4,
        Kind::Proof => 5,
        Kind::Held => 6,
        Kind::Challenge => 7,
        Kind::Done => 8,
        Kind::Refused => 9,
        Kind::LinkRegister => 10,
        Kind::LinkBegin => 11,
        Kind::LinkAudit => 12,
        Kind::LinkSettle => 13,
        Kind::LinkRead => 14,
        Kind::LinkReply => 15,
        Kind::Retire => 16,
        Kind::LinkRetire => 17,
        Kind::LinkBegun => 18,
    }
}

/// The version byte of the kind's frames.
pub fn version_of(kind: Kind) -> u8
    ensures { result ≡ version_of kind }
{
    match kind {
        Kind::Retire | Kind::LinkRetire | Kind::LinkBegun => 2,
        _ => 1,
    }
}

/// Whether the kind goes between the two servers, so that its frames have a link number.
pub fn is_linked(kind: Kind) -> bool
    ensures { result ≡ is_linked kind }
{
    match kind {
        Kind::LinkRegister
        | Kind::LinkBegin
        | Kind::LinkAudit
        | Kind::LinkSettle
        | Kind::LinkRead
        | Kind::LinkReply
        | Kind::LinkRetire
        | Kind::LinkBegun => true,
        _ => false,
    }
}

/// The kind of a body.
pub fn kind_of(body: &Body<'_>) -> Kind
    ensures { result ≡ kind_of (plain_body body.now) }
{
    match *body {
        Body::Deposit(_) => Kind::Deposit,
        Body::Register { .. } => Kind::Register,
        Body::Write { .. } => Kind::Write,
        Body::Read { .. } => Kind::Read,
        Body::Proof(_) => Kind::Proof,
        Body::Held { .. } => Kind::Held,
        Body::Challenge { .. } => Kind::Challenge,
        Body::Registered { .. } => Kind::Done,
        Body::Accepted => Kind::Done,
        Body::Message { .. } => Kind::Done,
        Body::Refused(_) => Kind::Refused,
        Body::LinkRegister { .. } => Kind::LinkRegister,
        Body::LinkBegin { .. } => Kind::LinkBegin,
        Body::LinkAudit { .. } => Kind::LinkAudit,
        Body::LinkSettle(_) => Kind::LinkSettle,
        Body::LinkRead { .. } => Kind::LinkRead,
        Body::LinkReply(_) => Kind::LinkReply,
        Body::Retire { .. } => Kind::Retire,
        Body::LinkRetire { .. } => Kind::LinkRetire,
        Body::LinkBegun { .. } => Kind::LinkBegun,
    }
}
