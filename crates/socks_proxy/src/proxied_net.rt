//! A net whose dials may go through a proxy.
ghost use Rattle.std.specs.Prelude.{◌≡◌, ◌≢◌, [], ◌∷◌, ◌++◌, ◌≤◌, None, Some, length, IfOk, OnOk, OnErr, IsErr, is_err};
ghost use Rattle.express_words.specs.Seen.{netted};
ghost use Rattle.express_words.specs.Causes.{HasCause, CountsFault, CountsFailure, Rose, next};
ghost use Rattle.express_words.specs.Calls.{Listened, Accepted, Dialled, Adds, AddsClose, GivesTelling};
ghost use Rattle.express_words.specs.Streams.{IsAtStart, IsBlank};
ghost use Rattle.socks_proxy.specs.Circuits.{said_under};
ghost use Rattle.socks_proxy.specs.Forms.{greeting};
ghost use Rattle.socks_proxy.specs.Telling.{net_calls, tunnel_seen, TellsBoth, WasTold};
ghost use Rattle.socks_proxy.specs.Dials.{places_of, ReachesOn, Makes, unreached, Opens, Dials, Closes, route_on, DialsThrough};
ghost use Rattle.socks_proxy.specs.Routes.{Direct, Wrong, plain_target, IfThrough};

use crate::circuits::Login;
use crate::fault::ProxyFault;
use crate::forms::{credentials, request};
use crate::net_log::Entry;
use crate::proxy::Proxy;
use crate::routes::{Route, route_of};
use crate::talking::talk;
use crate::targets::Target;
use crate::tunnel::Tunnel;
use express_outside::noted;
use express_words::outside::{Counted, Failed, Net};
use http_server::Log;
use std::alloc::Global;

/// Where Tor listens, and where Tor Browser's does.
const TOR: &str = "127.0.0.1:9050";

const TOR_BROWSER: &str = "127.0.0.1:9150";

/// A net whose dials go through a proxy where their place is one of an onion service, and all of them where a proxy is
/// named. Each dial through it has a user name of its own. It counts its own faults, one a call that fails, and
/// tells its calls over a net that tells its own; what its contracts say is said of the net below.
#[derive(Drop)]
pub struct ProxiedNet<'a, N: Net> {
    pub below: N,
    log: Log<Entry, Option<Tunnel<N::Conn>>>,
    alloc: Global,
    proxy: Proxy<'a>,
    drawn: [u8; 16],
    number: u64,
    why: Option<ProxyFault>,
    faults: u64,
    doors: u64,
}

// Dials the proxy's places, one after another until one is reached.
fn reach<N: Net>(net: &mut N, proxy: Proxy<'_>) -> Result<N::Conn, ProxyFault>
    ensures reached { OnOk result (ReachesOn (places_of proxy.entry) (N.seen net.old).calls (N.seen net.new).calls) }
    ensures unreached { OnErr result (Makes (N.seen net.old).calls (N.seen net.new).calls (unreached (places_of proxy.entry))) }
    ensures whole { IfOk result (λ conn. (N.Conn.seen conn).faults ≡ 0) }
    ensures unread { IfOk result (λ conn. IsAtStart (N.Conn.seen conn).content) }
    ensures unwritten { IfOk result (λ conn. IsBlank (N.Conn.seen conn).written) }
    ensures tells { IfOk result (λ conn. GivesTelling (N.seen net.new).calls
        (N.Conn.seen conn).content (N.Conn.seen conn).written) }
{
    match proxy {
        Proxy::Named(place) => match net.dial(place) {
            Ok(conn) => Ok(conn),
            Err(_) => Err(ProxyFault::NoProxy),
        },
        Proxy::Tor => match net.dial(TOR) {
            Ok(conn) => Ok(conn),
            Err(_) => match net.dial(TOR_BROWSER) {
                Ok(conn) => Ok(conn),
                Err(_) => Err(ProxyFault::NoTor),
            },
        },
    }
}

// A connection through the proxy, of which each byte of the talk is over.
#[tactic(auto, using(crate::proofs::DialLaws::refused_unreached))]
fn open<N: Net>(
    net: &mut N,
    proxy: Proxy<'_>,
    credentials: &[u8],
    request: &[u8],
) -> Result<N::Conn, ProxyFault>
    ensures opens { Opens N.Conn.seen proxy.entry (greeting ++ (credentials.now ++ request.now))
        (N.seen net.old) (N.seen net.new) result }
    ensures whole { IfOk result (λ conn. (N.Conn.seen conn).faults ≡ 0) }
{
    let mut conn = match reach(net, proxy) {
        Ok(conn) => conn,
        Err(why) => return Err(why),
    };
    match talk(&mut conn, credentials, request) {
        Ok(()) => Ok(conn),
        Err(why) => {
            net.close(conn);
            Err(why)
        }
    }
}

// A connection to the target through the proxy, under this user name.
#[tactic(auto, using(crate::proofs::DialLaws::refused_before))]
fn open_to<N: Net>(
    alloc: Global,
    net: &mut N,
    proxy: Proxy<'_>,
    login: &Login,
    target: &Target<'_>,
) -> Result<N::Conn, ProxyFault>
    requires { length target.now.host.now ≤ 255 }
    ensures opens { Opens N.Conn.seen proxy.entry (said_under login.now target.now)
        (N.seen net.old) (N.seen net.new) result }
    ensures whole { IfOk result (λ conn. (N.Conn.seen conn).faults ≡ 0) }
{
    let Ok(credentials) = credentials(alloc, login) else {
        return Err(ProxyFault::NoMemory);
    };
    let Ok(request) = request(alloc, target) else {
        return Err(ProxyFault::NoMemory);
    };
    open(net, proxy, credentials.as_slice(), request.as_slice())
}

impl<'a, N: Net> ProxiedNet<'a, N> {
    /// A net over the one below, whose dials through the proxy have user names of these bytes, which were drawn for it.
    pub fn new(alloc: Global, below: N, proxy: Proxy<'a>, drawn: &[u8; 16]) -> Self
        ensures below { result.below ≡ below }
        ensures proxy { result.proxy ≡ proxy.entry }
        ensures drawn { result.drawn ≡ drawn.now }
        ensures unused { result.number ≡ 0 }
    {
        ProxiedNet {
            below,
            log: Log::new(),
            alloc,
            proxy,
            drawn: *drawn,
            number: 0,
            why: None,
            faults: 0,
            doors: 0,
        }
    }

    /// Why the last dial got no connection through the proxy, if it got none.
    pub fn why(&self) -> Option<ProxyFault>
        ensures { result ≡ self.now.why }
    {
        self.why
    }

    // Notes a call, with the connection that it closed.
    fn log_call(&mut self, entry: &Entry, closed: &Option<Tunnel<N::Conn>>)
        ensures noted { self.new.log.items ≡ self.old.log.items ++ (entry.now, closed.now) ∷ [] }
        ensures below { self.new.below ≡ self.old.below }
        ensures rest { self.new ≡ record self.old { log = self.new.log } }
    {
        self.log = self.log.and(entry, closed);
    }

    // A dial got no connection through the proxy.
    fn note(&mut self, why: ProxyFault)
        ensures counted { self.new ≡ record self.old { why = Some why; faults = next self.old.faults } }
        ensures later { self.old.faults ≤ self.new.faults }
    {
        self.why = Some(why);
        self.faults = self.faults.saturating_add(1);
    }

    // A dial through the proxy, under the next user name.
    #[tactic(auto, using(crate::proofs::DialLaws::refused_before))]
    fn open_through(&mut self, target: &Target<'_>) -> Result<N::Conn, ProxyFault>
        requires { length target.now.host.now ≤ 255 }
        ensures through { DialsThrough N.seen N.Conn.seen self.old self.new (plain_target target.now) result }
        ensures whole { IfOk result (λ conn. (N.Conn.seen conn).faults ≡ 0) }
        ensures proxy { (self.new.proxy ≡ self.old.proxy) × (self.new.drawn ≡ self.old.drawn) }
        ensures kept { (self.new.faults ≡ self.old.faults) × (self.new.doors ≡ self.old.doors) }
        ensures why { self.new.why ≡ self.old.why }
        ensures log { self.new.log ≡ self.old.log }
    {
        if self.number == u64::MAX {
            return Err(ProxyFault::Spent);
        }
        let login = Login {
            drawn: self.drawn,
            number: self.number,
        };
        self.number += 1;
        open_to(self.alloc, &mut self.below, self.proxy, &login, target)
    }

    // A dial failed, or a connection that is closed had faults.
    fn count_fault(&mut self)
        ensures counted { self.new ≡ record self.old { faults = next self.old.faults } }
        ensures later { self.old.faults ≤ self.new.faults }
    {
        self.faults = self.faults.saturating_add(1);
    }

    // A listen or an accept failed, which both counts count.
    fn count_door_fault(&mut self)
        ensures counted { self.new ≡ record self.old { faults = next self.old.faults; doors = next self.old.doors } }
        ensures later { self.old.faults ≤ self.new.faults }
        ensures doors_later { self.old.doors ≤ self.new.doors }
    {
        self.faults = self.faults.saturating_add(1);
        self.doors = self.doors.saturating_add(1);
    }

    // A connection by the route that the place has.
    fn dial_by_route(&mut self, peer: &str) -> Result<N::Conn, Failed>
        ensures whole { IfOk result (λ conn. (N.Conn.seen conn).faults ≡ 0) }
        ensures tells { IfOk result (λ conn. TellsBoth (N.seen self.new.below).calls
            (N.Conn.seen conn).content (N.Conn.seen conn).written) }
        ensures still_told { WasTold (N.seen self.old.below).calls (N.seen self.new.below).calls }
        ensures log { self.new.log ≡ self.old.log }
        ensures direct { route_on self.old peer.now ≡ Direct
            → Dials (N.seen self.old.below) (N.seen self.new.below) peer.now result }
        ensures wrong { route_on self.old peer.now ≡ Wrong → IsErr result × (self.new.below ≡ self.old.below) }
        ensures through { IfThrough (route_on self.old peer.now) (λ to.
            DialsThrough N.seen N.Conn.seen self.old self.new to result) }
        ensures proxy { (self.new.proxy ≡ self.old.proxy) × (self.new.drawn ≡ self.old.drawn) }
        ensures told { OnOk result (self.new.why ≡ self.old.why) }
        ensures door { self.new.doors ≡ self.old.doors }
        ensures cause { HasCause self.old.faults self.new.faults result }
        ensures counts { CountsFault self.old.faults self.new.faults result }
    {
        match route_of(peer.as_bytes(), self.proxy.is_named()) {
            Route::Direct => match self.below.dial(peer) {
                Ok(below) => Ok(below),
                Err(_) => {
                    self.count_fault();
                    Err(Failed)
                }
            },
            Route::Through(target) => match self.open_through(&target) {
                Ok(below) => Ok(below),
                Err(why) => {
                    self.note(why);
                    Err(Failed)
                }
            },
            Route::Wrong => {
                self.note(ProxyFault::Place);
                Err(Failed)
            }
        }
    }
}

impl<N: Net> Counted for ProxiedNet<'_, N> {
    ghost seen = { λ n. netted (net_calls N.seen N.Conn.seen n) n.faults n.doors };

    fn faults(&self) -> u64 {
        self.faults
    }
}

impl<N: Net> Net for ProxiedNet<'_, N> {
    type Conn = Tunnel<N::Conn>;

    /// The net below listens.
    fn listen(&mut self, at: &str) -> Result<(), Failed>
        ensures call { Adds (net_calls N.seen N.Conn.seen self.old)
            (net_calls N.seen N.Conn.seen self.new) (Listened at.now (is_err result)) }
        ensures below { Adds (N.seen self.old.below).calls (N.seen self.new.below).calls
            (Listened at.now (is_err result)) }
        ensures door { CountsFailure self.old.doors self.new.doors result }
        ensures cause { HasCause self.old.faults self.new.faults result }
        ensures counts { CountsFault self.old.faults self.new.faults result }
        ensures names { (self.new.drawn ≡ self.old.drawn) × (self.new.number ≡ self.old.number) }
    {
        let answer = self.below.listen(at);
        self.log_call(
            &Entry::Listened(noted(at.as_bytes()), answer.is_err()),
            &None,
        );
        match answer {
            Ok(()) => Ok(()),
            Err(_) => {
                self.count_door_fault();
                Err(Failed)
            }
        }
    }

    /// The net below accepts.
    fn accept(&mut self) -> Result<Tunnel<N::Conn>, Failed>
        ensures whole { IfOk result (λ conn. (N.Conn.seen conn.below).faults ≡ 0) }
        ensures noted { IfOk result (λ conn. conn.noted.items ≡ (conn.below, tt) ∷ []) }
        ensures unread { IfOk result (λ conn. IsAtStart (tunnel_seen N.Conn.seen conn).content) }
        ensures unwritten { IfOk result (λ conn. IsBlank (tunnel_seen N.Conn.seen conn).written) }
        ensures tells { IfOk result (λ conn. GivesTelling (net_calls N.seen N.Conn.seen self.new)
            (tunnel_seen N.Conn.seen conn).content (tunnel_seen N.Conn.seen conn).written) }
        ensures unread_below { IfOk result (λ conn. IsAtStart (N.Conn.seen conn.below).content) }
        ensures unwritten_below { IfOk result (λ conn. IsBlank (N.Conn.seen conn.below).written) }
        ensures call { Adds (net_calls N.seen N.Conn.seen self.old)
            (net_calls N.seen N.Conn.seen self.new) (Accepted (is_err result)) }
        ensures below { Adds (N.seen self.old.below).calls (N.seen self.new.below).calls
            (Accepted (is_err result)) }
        ensures door { CountsFailure self.old.doors self.new.doors result }
        ensures cause { HasCause self.old.faults self.new.faults result }
        ensures counts { CountsFault self.old.faults self.new.faults result }
        ensures names { (self.new.drawn ≡ self.old.drawn) × (self.new.number ≡ self.old.number) }
    {
        match self.below.accept() {
            Ok(below) => {
                self.log_call(&Entry::Accepted(false), &None);
                Ok(Tunnel::new(below))
            }
            Err(_) => {
                self.log_call(&Entry::Accepted(true), &None);
                self.count_door_fault();
                Err(Failed)
            }
        }
    }

    /// A connection to the program at `peer`, by the route that its place has. One through the proxy is given only
    /// once the proxy has said yes, and one that the proxy refuses isn't dialled in any other way.
    fn dial(&mut self, peer: &str) -> Result<Tunnel<N::Conn>, Failed>
        ensures whole { IfOk result (λ conn. (N.Conn.seen conn.below).faults ≡ 0) }
        ensures noted { IfOk result (λ conn. conn.noted.items ≡ (conn.below, tt) ∷ []) }
        ensures unread { IfOk result (λ conn. IsAtStart (tunnel_seen N.Conn.seen conn).content) }
        ensures unwritten { IfOk result (λ conn. IsBlank (tunnel_seen N.Conn.seen conn).written) }
        ensures tells { IfOk result (λ conn. GivesTelling (net_calls N.seen N.Conn.seen self.new)
            (tunnel_seen N.Conn.seen conn).content (tunnel_seen N.Conn.seen conn).written) }
        ensures call { Adds (net_calls N.seen N.Conn.seen self.old)
            (net_calls N.seen N.Conn.seen self.new) (Dialled peer.now (is_err result)) }
        ensures direct { route_on self.old peer.now ≡ Direct
            → Dials (N.seen self.old.below) (N.seen self.new.below) peer.now result }
        ensures wrong { route_on self.old peer.now ≡ Wrong → IsErr result × (self.new.below ≡ self.old.below) }
        ensures through { IfThrough (route_on self.old peer.now) (λ to.
            DialsThrough N.seen (λ conn. N.Conn.seen conn.below) self.old self.new to result) }
        ensures proxy { (self.new.proxy ≡ self.old.proxy) × (self.new.drawn ≡ self.old.drawn) }
        ensures told { OnOk result (self.new.why ≡ None) }
        ensures door { self.new.doors ≡ self.old.doors }
        ensures cause { HasCause self.old.faults self.new.faults result }
        ensures counts { CountsFault self.old.faults self.new.faults result }
    {
        self.why = None;
        let answer = self.dial_by_route(peer);
        self.log_call(
            &Entry::Dialled(noted(peer.as_bytes()), answer.is_err()),
            &None,
        );
        match answer {
            Ok(below) => Ok(Tunnel::new(below)),
            Err(Failed) => Err(Failed)
        }
    }

    /// The net below closes the connection.
    fn close(&mut self, conn: Tunnel<N::Conn>)
        ensures call { AddsClose (net_calls N.seen N.Conn.seen self.old)
            (net_calls N.seen N.Conn.seen self.new)
            (tunnel_seen N.Conn.seen conn).content (tunnel_seen N.Conn.seen conn).written (N.Conn.seen conn.below).faults }
        ensures below { Closes (N.seen self.old.below) (N.seen self.new.below) (N.Conn.seen conn.below) }
        ensures door { self.new.doors ≡ self.old.doors }
        ensures later { self.old.faults ≤ self.new.faults }
        ensures whole { (N.Conn.seen conn.below).faults ≡ 0 → self.new.faults ≡ self.old.faults }
        ensures broken { (N.Conn.seen conn.below).faults ≢ 0 → Rose self.old.faults self.new.faults }
        ensures names { (self.new.drawn ≡ self.old.drawn) × (self.new.number ≡ self.old.number) }
    {
        if conn.faults() != 0 {
            self.count_fault();
        }
        let closed = Some(conn);
        self.log_call(&Entry::Closed, &closed);
        if let Some(tunnel) = closed {
            self.below.close(tunnel.into_below());
        }
    }
}
