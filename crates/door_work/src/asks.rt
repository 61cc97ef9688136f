//! A machine that asks at doors.
ghost use Rattle.std.specs.Prelude.{◌≡◌, IfSome};
ghost use Rattle.http_door.specs.Replies.{plain_reply};
ghost use Rattle.door_work.specs.Asking.{Asking, AskingHolds, CanBeDone, TakesRecords, plain_next, record_in};
ghost use Rattle.node_journal.specs.Records.{IsSized};

use crate::next::Next;
use crate::record::Record;
use http_door::Reply;
use kept_machine::Takes;
use node_journal::RECORD_MAX;

/// A machine that wants records of its own kept, and doors asked, one after another, and hears an answer by a
/// record. It takes each of its records as an input.
pub trait Asks: Takes<Record, Told = ()> {
    /// What it wants next, and the record by which it hears an answer to that.
    ghost asking: { Asking Self };

    /// What it wants next, with the record or the frame in `room`.
    fn next<'a>(&self, room: &'a mut [u8; RECORD_MAX]) -> Next<'a>
        requires sound { Self.rules.is_sound self.now }
        ensures next { plain_next result ≡ asking.next_of self.now }
        ensures can { CanBeDone Self.rules.is_record (plain_next result) };

    /// The record by which it hears this answer to what it wants next, at the front of `room`; none where the
    /// answer doesn't bring it on.
    fn hear<'a>(&self, reply: &Reply<'_>, room: &'a mut [u8; RECORD_MAX]) -> Option<&'a [u8]>
        requires sound { Self.rules.is_sound self.now }
        ensures heard { record_in result ≡ asking.heard_as self.now (plain_reply reply.now) }
        ensures is { IfSome result (λ r. Self.rules.is_record r.now) }
        ensures sized { IfSome result (λ r. IsSized r.now) };

    ghost asking_holds: { AskingHolds Self.rules asking };

    ghost takes_records: { TakesRecords Self.rules Self.is_input Self.record_of Self.most };
}
