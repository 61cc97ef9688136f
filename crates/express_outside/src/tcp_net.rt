//! A net over the system's ports.
ghost use Rattle.std.specs.Prelude.{◌≡◌, ◌≢◌, ◌==◌, [], ◌∷◌, ◌++◌, is_err, ◌≤◌, List, Option, None, Some, Ok, Err, IfOk, OnOk, OnErr, MatchResult};
ghost use Rattle.std.specs.Duration.{as_nanos};
ghost use Rattle.express_words.specs.Seen.{netted};
ghost use Rattle.express_words.specs.Calls.{Closed, Adds};
ghost use Rattle.express_words.specs.Calls.{Listened as DoorOpened, Accepted as Taken, Dialled as Reached};
ghost use Rattle.express_outside.specs.NetCalls.{IsFresh, calls_of};
ghost use Rattle.express_words.specs.Causes.{HasCause, CountsFault, CountsFailure, Rose, next};
ghost use Rattle.express_outside.specs.Calls.{EndedBy, added};
ghost use Rattle.express_outside.specs.Answers.{AddsConnect, EndedByFailure, EndedByMoment};
ghost use Rattle.express_outside.specs.declared.tcp_net.PortCall.TheVariants.{Listened, Accepted, Dialled};
ghost use Rattle.express_outside.specs.Patience.{IsLimit, seconds};

use crate::adapter::Adapter;
use crate::calls::Trouble;
use crate::history::{History, noted};
use crate::net_log::{Entry, Line};
use crate::patience::{Socket, Timed};
use express_words::outside::{Counted, Failed, Net};
use http_server::Log;
use std::time::Instant;

/// So many times an accept is tried: an error of one pending connection, or of the system for a moment, isn't
/// the door's.
const MOST_ACCEPTS: u32 = 10;

/// A connected socket, and the moment at which it was connected.
#[derive(Drop)]
pub struct Connected<S> {
    pub socket: S,
    pub at: Instant,
}

/// A call on a door or to an address, with its answer.
#[derive(Drop)]
pub enum PortCall {
    /// The door was opened at this address.
    Listened(History<u8>, Result<(), Trouble>),
    /// A connection was taken at the door, at this moment.
    Accepted(Result<Instant, Trouble>),
    /// A connection was made to this address, at this moment.
    Dialled(History<u8>, Result<Instant, Trouble>),
}

/// The system's calls on a door and on what is behind addresses.
pub trait Ports {
    ghost use Rattle.express_outside.specs.declared.tcp_net.PortCall.{PortCall};
    ghost use Rattle.express_outside.specs.declared.tcp_net.PortCall.TheVariants.{Listened, Accepted, Dialled};

    /// A connected socket.
    type Socket: Socket + Drop;

    /// Its calls so far, if it tells.
    ghost calls: { Self → Option (List PortCall) };

    /// Opens the door at an address.
    fn listen(&mut self, at: &str) -> Result<(), Trouble>
        ensures told { calls self.new ≡ added (Listened at.now result) (calls self.old) };

    /// One accept: the next connection at the door.
    fn accept(&mut self) -> Result<Connected<Self::Socket>, Trouble>
        ensures fresh { IfOk result (λ made. IsFresh (Self.Socket.given made.socket) (Self.Socket.taken made.socket)) }
        ensures told { AddsConnect Accepted (calls self.old) (calls self.new) result };

    /// A connection to the program at an address.
    fn dial(&mut self, peer: &str) -> Result<Connected<Self::Socket>, Trouble>
        ensures fresh { IfOk result (λ made. IsFresh (Self.Socket.given made.socket) (Self.Socket.taken made.socket)) }
        ensures told { AddsConnect (Dialled peer.now) (calls self.old) (calls self.new) result };

    /// Waits for a moment.
    fn pause(&mut self)
        ensures { calls self.new ≡ calls self.old };
}

/// Sockets of the system, each with an end to its patience. Each error is a fault, but for those after which
/// an accept is tried again, and so is an accept where nothing listens. The net tells its calls.
#[derive(Drop)]
pub struct TcpNet<P: Ports> {
    ports: P,
    log: Log<Entry, Option<Line<P::Socket>>>,
    faults: u64,
    doors: u64,
}

impl<P: Ports> TcpNet<P> {
    /// Listens nowhere yet; no call has failed.
    pub fn new(ports: P) -> Self {
        TcpNet {
            ports,
            log: Log::new(),
            faults: 0,
            doors: 0,
        }
    }

    /// How often a listen or an accept has failed.
    pub fn door_faults(&self) -> u64
        ensures { result ≡ self.now.doors }
    {
        self.doors
    }

    // Notes a call, with the connection that it closed.
    fn note(&mut self, entry: &Entry, closed: &Option<Line<P::Socket>>)
        ensures noted { self.new.log.items ≡ self.old.log.items ++ (entry.now, closed.now) ∷ [] }
        ensures rest { self.new ≡ record self.old { log = self.new.log } }
    {
        self.log = self.log.and(entry, closed);
    }

    // A dial failed, or a connection that is closed had faults.
    fn count_fault(&mut self)
        ensures faults { self.new.faults ≡ next self.old.faults }
        ensures later { self.old.faults ≤ self.new.faults }
        ensures doors { self.new.doors ≡ self.old.doors }
        ensures ports { self.new.ports ≡ self.old.ports }
        ensures log { self.new.log ≡ self.old.log }
    {
        self.faults = self.faults.saturating_add(1);
    }

    // A listen or an accept failed, which both counts count.
    fn count_door_fault(&mut self)
        ensures faults { self.new.faults ≡ next self.old.faults }
        ensures later { self.old.faults ≤ self.new.faults }
        ensures doors { self.new.doors ≡ next self.old.doors }
        ensures doors_later { self.old.doors ≤ self.new.doors }
        ensures ports { self.new.ports ≡ self.old.ports }
        ensures log { self.new.log ≡ self.old.log }
    {
        self.count_fault();
        self.doors = self.doors.saturating_add(1);
    }
}

// The next connection at the door, which is tried again where an accept fails.
fn accept_again<P: Ports>(ports: &mut P) -> Result<Connected<P::Socket>, Trouble>
    ensures ended { MatchResult result (λ made. EndedBy (P.calls ports.new) (Accepted (Ok made.at)))
        (λ why. EndedBy (P.calls ports.new) (Accepted (Err why))) }
    ensures fresh { IfOk result (λ made. IsFresh (P.Socket.given made.socket) (P.Socket.taken made.socket)) }
{
    for _ in 1..MOST_ACCEPTS {
        match ports.accept() {
            Ok(made) => return Ok(made),
            Err(_) => ports.pause(),
        }
    }
    ports.accept()
}

impl<P: Ports> Counted for TcpNet<P> {
    ghost seen = { λ n. netted (calls_of P.Socket.given P.Socket.taken n.log.items) n.faults n.doors };

    fn faults(&self) -> u64 {
        self.faults
    }
}

impl<P: Ports> Net for TcpNet<P> {
    type Conn = Adapter<Timed<P::Socket>>;

    fn listen(&mut self, at: &str) -> Result<(), Failed>
        ensures call { Adds (calls_of P.Socket.given P.Socket.taken self.old.log.items)
            (calls_of P.Socket.given P.Socket.taken self.new.log.items) (DoorOpened at.now (is_err result)) }
        ensures door { CountsFailure self.old.doors self.new.doors result }
        ensures cause { HasCause self.old.faults self.new.faults result }
        ensures counts { CountsFault self.old.faults self.new.faults result }
        ensures opened { OnOk result (EndedBy (P.calls self.new.ports) (Listened at.now (Ok tt))) }
        ensures ended { OnErr result (EndedByFailure (Listened at.now) (P.calls self.new.ports)) }
    {
        match self.ports.listen(at) {
            Ok(()) => {
                self.note(&Entry::Listened(noted(at.as_bytes()), false), &None);
                Ok(())
            }
            Err(_) => {
                self.note(&Entry::Listened(noted(at.as_bytes()), true), &None);
                self.count_door_fault();
                Err(Failed)
            }
        }
    }

    fn accept(&mut self) -> Result<Adapter<Timed<P::Socket>>, Failed>
        ensures whole { IfOk result (λ conn. conn.faults ≡ 0) }
        ensures fresh { IfOk result (λ conn. IsFresh (P.Socket.given conn.inner.socket) (P.Socket.taken conn.inner.socket)) }
        ensures call { Adds (calls_of P.Socket.given P.Socket.taken self.old.log.items)
            (calls_of P.Socket.given P.Socket.taken self.new.log.items) (Taken (is_err result)) }
        ensures door { CountsFailure self.old.doors self.new.doors result }
        ensures cause { HasCause self.old.faults self.new.faults result }
        ensures counts { CountsFault self.old.faults self.new.faults result }
        ensures begun { IfOk result (λ conn. EndedByMoment Accepted conn.inner.reading (P.calls self.new.ports)) }
        ensures ended { OnErr result (EndedByFailure Accepted (P.calls self.new.ports)) }
        ensures reading { IfOk result (λ conn. as_nanos conn.inner.reading.allowed ≡ seconds 10) }
        ensures writing { IfOk result (λ conn. IsLimit conn.inner.writing None 10) }
    {
        match accept_again(&mut self.ports) {
            Ok(made) => {
                self.note(&Entry::Accepted(false), &None);
                Ok(Adapter::new(Timed::accepted(made.socket, made.at)))
            }
            Err(_) => {
                self.note(&Entry::Accepted(true), &None);
                self.count_door_fault();
                Err(Failed)
            }
        }
    }

    fn dial(&mut self, peer: &str) -> Result<Adapter<Timed<P::Socket>>, Failed>
        ensures whole { IfOk result (λ conn. conn.faults ≡ 0) }
        ensures fresh { IfOk result (λ conn. IsFresh (P.Socket.given conn.inner.socket) (P.Socket.taken conn.inner.socket)) }
        ensures call { Adds (calls_of P.Socket.given P.Socket.taken self.old.log.items)
            (calls_of P.Socket.given P.Socket.taken self.new.log.items) (Reached peer.now (is_err result)) }
        ensures door { self.new.doors ≡ self.old.doors }
        ensures cause { HasCause self.old.faults self.new.faults result }
        ensures counts { CountsFault self.old.faults self.new.faults result }
        ensures one_limit { IfOk result (λ conn. conn.inner.writing ≡ conn.inner.reading) }
        ensures limit { IfOk result (λ conn. as_nanos conn.inner.reading.allowed ≡ seconds 60) }
        ensures begun { IfOk result (λ conn. EndedByMoment (Dialled peer.now) conn.inner.reading (P.calls self.new.ports)) }
        ensures ended { OnErr result (EndedByFailure (Dialled peer.now) (P.calls self.new.ports)) }
    {
        match self.ports.dial(peer) {
            Ok(made) => {
                self.note(&Entry::Dialled(noted(peer.as_bytes()), false), &None);
                Ok(Adapter::new(Timed::dialled(made.socket, made.at)))
            }
            Err(_) => {
                self.note(&Entry::Dialled(noted(peer.as_bytes()), true), &None);
                self.count_fault();
                Err(Failed)
            }
        }
    }

    fn close(&mut self, conn: Adapter<Timed<P::Socket>>)
        ensures call { Adds (calls_of P.Socket.given P.Socket.taken self.old.log.items)
            (calls_of P.Socket.given P.Socket.taken self.new.log.items)
            (Closed (P.Socket.given conn.inner.socket) (P.Socket.taken conn.inner.socket) (conn.faults == 0)) }
        ensures door { self.new.doors ≡ self.old.doors }
        ensures later { self.old.faults ≤ self.new.faults }
        ensures whole { conn.faults ≡ 0 → self.new.faults ≡ self.old.faults }
        ensures broken { conn.faults ≢ 0 → Rose self.old.faults self.new.faults }
    {
        if conn.faults() != 0 {
            self.count_fault();
        }
        self.note(&Entry::Closed, &Some(conn));
    }
}
