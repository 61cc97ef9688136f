//! What a frame must be to be handed on.
ghost use Rattle.std.specs.Prelude.{◌≡◌, ◌↔◌, IsOk, IsTrue};
ghost use Rattle.frame_rules.specs.Frames.{plain, plain_body};
ghost use Rattle.lane_gate.specs.Passing.{FitsBody, NamesStatement, PassesLink, PassesRow, plain_ticketed};

use crate::fault::NotYours;
use crate::row::GateRow;
use crate::statement::{Statement, StatementHash};
use crate::ticket::Ticket;
use frame_rules::{Body, Frame};

/// A client's frame with the ticket that came with it, and for a proof the hash of its statement, which the
/// client made of the key that it was given and of its own public part.
#[derive(Clone, Copy)]
pub struct Ticketed<'a> {
    pub ticket: Ticket,
    pub statement: Option<StatementHash>,
    pub frame: Frame<'a>,
}

// Whether a proof of this serial names the statement that was noted last, and that is of its serial.
fn names_statement(noted: &Option<Statement>, serial: u32, named: &Option<StatementHash>) -> bool
    ensures { IsTrue result ↔ NamesStatement noted.now serial named.now }
{
    let (Some(noted), Some(named)) = (noted, named) else {
        return false;
    };
    let same = noted.hash.is(named);
    same && serial == noted.serial
}

// Whether the body is one that a client sends, and a proof is one of the row's own statement.
fn fits_body(row: &GateRow, sent: &Ticketed<'_>) -> bool
    ensures { IsTrue result ↔ FitsBody row.now (plain_ticketed sent.now) }
{
    match sent.frame.body {
        Body::Proof(_) => names_statement(&row.statement, sent.frame.serial, &sent.statement),
        Body::Deposit(_)
        | Body::Register { .. }
        | Body::Write { .. }
        | Body::Read { .. }
        | Body::Retire { .. } => true,
        _ => false,
    }
}

// Whether a frame of the row's lane is handed on.
pub(crate) fn passes_row(row: &GateRow, sent: &Ticketed<'_>) -> bool
    ensures { IsTrue result ↔ PassesRow row.now (plain_ticketed sent.now) }
{
    let ticket = row.holder.fits(sent.frame.serial, &sent.ticket.hash());
    let body = fits_body(row, sent);
    ticket && body
}

/// At the helper's link: a frame is handed on exactly where it is a command, and no audit at the point 1 or
/// 2. At these the helper opens the sums of the write themselves, under one mask in place of two: a leader that
/// opens one bit wrong there reads the write from the helper's closing.
pub fn pass_command(frame: &Frame<'_>) -> Result<(), NotYours>
    ensures { IsOk result ↔ PassesLink (plain_body frame.now.body) }
{
    match frame.body {
        Body::LinkAudit { sigma: 1 | 2, .. } => Err(NotYours),
        Body::LinkAudit { .. }
        | Body::LinkRegister { .. }
        | Body::LinkBegin { .. }
        | Body::LinkSettle(_)
        | Body::LinkRead { .. }
        | Body::LinkRetire { .. } => Ok(()),
        _ => Err(NotYours),
    }
}
