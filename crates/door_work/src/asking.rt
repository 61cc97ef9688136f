//! A request of a machine, and the record by which it hears the answer.
ghost use Rattle.std.specs.Prelude.{◌≡◌, ◌≤◌, false, IfOk, length};
ghost use Rattle.http_door.specs.Heads.{body_max};
ghost use Rattle.http_door.specs.Requests.{plain_request, request_body};
ghost use Rattle.kept_machine.specs.Keeps.{IsDurable, sight};
ghost use Rattle.http_door.specs.Replies.{plain_reply};
ghost use Rattle.door_work.specs.Steps.{AskedOn, EarlyAtEnd, NetFaultBy, halt_at};

use crate::asks::Asks;
use crate::halt::Halt;
use crate::places::Places;
use crate::record::Record;
use door_exchange::{MESSAGE_MAX, exchange};
use express_words::Role;
use express_words::outside::Net;
use http_door::{Reply, Request};
use kept_machine::Kept;
use node_journal::{Disk, RECORD_MAX};

// What halts the work at an answer that doesn't bring the machine on.
fn halt_at(server: Role, reply: &Reply<'_>) -> Halt
    ensures { result ≡ halt_at server (plain_reply reply.now) }
{
    match reply {
        Reply::Busy => Halt::Busy(server),
        Reply::NotYours => Halt::NotYours(server),
        _ => Halt::Answer(server),
    }
}

/// Asks a server's door this, which the machine wants, and gives the record by which the machine hears the
/// answer. That isn't kept yet: the machine stands where it stood.
pub fn ask<M: Asks, D: Disk, N: Net>(
    kept: &Kept<M, D>,
    places: &Places<'_>,
    net: &mut N,
    to: Role,
    request: &Request<'_>,
) -> Result<Record, Halt>
    requires sendable { length (request_body (plain_request request.now)) ≤ body_max }
    ensures asked { AskedOn M.asking places.now kept.now.machine to (plain_request request.now) result
        (N.seen net.old).calls (N.seen net.new).calls }
    ensures is { IfOk result (λ r. M.rules.is_record r) }
    // What the disk holds gives the machine that asks, now and after a crash.
    ensures durable { kept.now.journal.closed ≡ false
        → IsDurable M.rules (sight D.disk D.Counted.seen kept.now) }
    ensures early { EarlyAtEnd result (N.seen net.new).calls N.Conn.seen }
    ensures net_fault { NetFaultBy result (N.seen net.old).faults (N.seen net.new).faults }
    ensures door { (N.seen net.new).doors ≡ (N.seen net.old).doors }
{
    let mut out = [0; MESSAGE_MAX];
    let mut came = [0; MESSAGE_MAX];
    let mut room = [0; RECORD_MAX];
    let machine = kept.machine();
    match exchange(net, places.of(to), request, &mut out, &mut came) {
        Ok(reply) => match machine.hear(&reply, &mut room) {
            Some(record) => Ok(Record::of(record)),
            None => Err(halt_at(to, &reply)),
        },
        Err(why) => Err(Halt::Unanswered(to, why)),
    }
}
