//! A server at its door: one connection, and connections one after another.
ghost use Rattle.std.specs.Prelude.{◌≡◌, ◌≤◌, IfOk};
ghost use Rattle.node_serve.specs.Hosting.{Hosts, halt_in};
ghost use Rattle.node_serve.specs.Tallies.{total};
ghost use Rattle.node_serve.specs.Visits.{Shown, VisitEnds, DoorBy, LogBy, standing};

use crate::logged::Logged;
use crate::node::Served;
use crate::serving::serve;
use crate::stop::{Halt, Stop};
use crate::tally::Tally;
use express_words::outside::Net;
use wire_frames::Gather;

/// Accepts the next connection, serves it with `gather`, and closes it.
fn visit<N: Net, S: Logged>(
    server: &mut S,
    peer: &str,
    gather: &mut Gather,
    net: &mut N,
) -> Result<Served, Halt<S::Fault>>
    ensures ends { VisitEnds S.log peer.now (Shown N.Conn.seen) result (standing server.old (N.seen net.old))
        (standing server.new (N.seen net.new)) }
    // The door's count rose where the accept failed, and the log's where its fault says so.
    ensures door { DoorBy result (N.seen net.old).doors (N.seen net.new).doors }
    ensures counts { LogBy S.rises result (S.failures server.old) (S.failures server.new) }
    ensures later { (N.seen net.old).faults ≤ (N.seen net.new).faults }
{
    let mut conn = match net.accept() {
        Ok(conn) => conn,
        Err(_) => return Err(Halt::Door),
    };
    // A count that was read is known to have 64 bits.
    let _ = net.faults();
    let answer = serve(server, peer, gather, &mut conn, net);
    net.close(conn);
    match answer {
        Ok(answer) => Ok(answer),
        Err(fault) => Err(Halt::Log(fault)),
    }
}

/// Serves so many connections, one after another, with `gather`, and goes on whatever became of one. Gives how many
/// had each answer. It ends early where an accept fails, behind which there is no other call, or where the log refuses
/// a frame, once that connection was closed. The door is opened by the caller; a leader's helper listens at `peer`.
pub fn host<N: Net, S: Logged>(
    server: &mut S,
    peer: &str,
    gather: &mut Gather,
    connections: u32,
    net: &mut N,
) -> Result<Tally, Stop<S::Fault>>
    ensures hosts { Hosts S.log peer.now (Shown N.Conn.seen) connections
        (standing server.old (N.seen net.old)) (standing server.new (N.seen net.new)) result }
    ensures sum { IfOk result (λ tally. total tally ≡ connections) }
    // The door's count rose where an accept failed, and the log's where its fault says so.
    ensures door { DoorBy (halt_in result) (N.seen net.old).doors (N.seen net.new).doors }
    ensures counts { LogBy S.rises (halt_in result) (S.failures server.old) (S.failures server.new) }
    ensures later { (N.seen net.old).faults ≤ (N.seen net.new).faults }
{
    let mut tally = Tally::new();
    for _ in 0..connections {
        match visit(server, peer, gather, net) {
            Ok(answer) => tally.count(answer),
            Err(halt) => return Err(Stop { halt, tally }),
        }
    }
    Ok(tally)
}
