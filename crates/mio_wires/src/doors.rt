//! The doors of a server.
ghost use Rattle.std.specs.Prelude.{◌≡◌, IfErr, IfOk, IfSome, IsSomeAnd};
ghost use Rattle.std.specs.Option.{ForSome};
ghost use Rattle.mio_wires.specs.Slots.{new_stream};
ghost use Rattle.many_words.specs.declared.door.Door.TheVariants.{Clients, Status, Link, Dialled};
ghost use Rattle.mio_wires.specs.Openings.{NamesItsDoor, IsFaultOf, link_address};

use crate::dial::Dial;
use crate::doorway::Doorway;
use crate::fault::WiresFault;
use crate::settings::{OtherServer, WiresSettings};
use crate::wire::Wire;
use many_words::Door;
use mio::{Registry, Token};
use std::net::{Net, SocketAddr};

/// The token of the clients' door; the numbers of places are far below.
const CLIENTS: Token = Token(usize::MAX);

/// The token of the operators' door.
const STATUS: Token = Token(usize::MAX - 1);

/// The token of the other server's door.
const LINK: Token = Token(usize::MAX - 2);

/// The clients' door, and where there are such, the operators' and the other server's, and the connection
/// that is dialled.
#[derive(Drop)]
pub struct Doors {
    clients: Doorway,
    status: Option<Doorway>,
    link: Option<Doorway>,
    dial: Option<Dial>,
    ghost clients_door: { clients.door ≡ Clients },
    ghost status_door: { ForSome status (λ doorway. doorway.door ≡ Status) },
    ghost link_door: { ForSome link (λ doorway. doorway.door ≡ Link) },
}

fn token_of(door: Door) -> Token {
    match door {
        Door::Clients => CLIENTS,
        Door::Status => STATUS,
        Door::Link | Door::Dialled => LINK,
    }
}

// Opens one door.
fn open_one<N: Net>(
    net: &N,
    registry: &Registry,
    door: Door,
    at: SocketAddr,
) -> Result<Doorway, WiresFault>
    ensures opened { IfOk result (λ doorway. doorway.door ≡ door) }
    ensures fault { IfErr result (IsFaultOf door at) }
{
    match Doorway::open(net, registry, door, at, token_of(door)) {
        Ok(doorway) => Ok(doorway),
        Err(error) => Err(WiresFault::Door(door, at, error.kind())),
    }
}

// Opens a door, if it has an address.
fn open_some<N: Net>(
    net: &N,
    registry: &Registry,
    door: Door,
    at: Option<SocketAddr>,
) -> Result<Option<Doorway>, WiresFault>
    ensures opened { IfOk result (λ made. ForSome made (λ doorway. doorway.door ≡ door)) }
    ensures fault { IfErr result (λ fault. IsSomeAnd at (λ at. IsFaultOf door at fault)) }
{
    match at {
        Some(at) => Ok(Some(open_one(net, registry, door, at)?)),
        None => Ok(None),
    }
}

// Where the other server is listened for.
fn link_address(other: OtherServer) -> Option<SocketAddr>
    ensures { result ≡ link_address other }
{
    match other {
        OtherServer::Listen(at) => Some(at),
        OtherServer::Dial(_) => None,
    }
}

fn dial_of(other: OtherServer) -> Option<Dial> {
    match other {
        OtherServer::Listen(_) => None,
        OtherServer::Dial(at) => Some(Dial::new(at)),
    }
}

impl Doors {
    /// Listens at each door of the settings.
    pub fn open<N: Net>(
        net: &N,
        registry: &Registry,
        settings: &WiresSettings,
    ) -> Result<Doors, WiresFault>
        ensures { IfErr result (NamesItsDoor settings.now) }
    {
        let clients = open_one(net, registry, Door::Clients, settings.clients)?;
        let status = open_some(net, registry, Door::Status, settings.status)?;
        let link = open_some(net, registry, Door::Link, link_address(settings.other))?;
        Ok(Doors {
            clients,
            status,
            link,
            dial: dial_of(settings.other),
        })
    }

    /// A door's connection was reported.
    pub fn wake(&mut self, token: Token) {
        if token == CLIENTS {
            self.clients.wake();
        }
        if let (STATUS, Some(status)) = (token, &mut self.status) {
            status.wake();
        }
        if let (LINK, Some(link)) = (token, &mut self.link) {
            link.wake();
        }
    }

    /// Where the server listens for those of a door.
    pub fn address(&self, door: Door) -> Option<SocketAddr> {
        let doorway = match door {
            Door::Clients => Some(&self.clients),
            Door::Status => self.status.as_ref(),
            Door::Link => self.link.as_ref(),
            Door::Dialled => None,
        };
        doorway?.address().ok()
    }

    /// Whether a connection waits at a door.
    pub fn knocks(&mut self, door: Door, now: u64) -> bool {
        match (door, &mut self.status, &mut self.link) {
            (Door::Clients, _, _) => self.clients.knocks(now),
            (Door::Status, Some(status), _) => status.knocks(now),
            (Door::Link, _, Some(link)) => link.knocks(now),
            _ => false,
        }
    }

    // The connection that is dialled, where the server dials.
    fn dialled<N: Net>(
        &mut self,
        net: &N,
        registry: &Registry,
        place: usize,
        now: u64,
    ) -> Option<Wire>
        ensures { IfSome result (λ wire. wire ≡ new_stream Dialled) }
    {
        let stream = self.dial.as_mut()?.dial(net, registry, place, now)?;
        Some(Wire::new(stream, Door::Dialled))
    }

    /// The next connection of a door, whose readiness is reported under the number of a place.
    pub fn take<N: Net>(
        &mut self,
        net: &N,
        registry: &Registry,
        door: Door,
        place: usize,
        now: u64,
    ) -> Option<Wire>
        ensures { IfSome result (λ wire. wire ≡ new_stream door) }
    {
        match (door, &mut self.status, &mut self.link) {
            (Door::Clients, _, _) => self.clients.take(registry, place, now),
            (Door::Status, Some(status), _) => status.take(registry, place, now),
            (Door::Link, _, Some(link)) => link.take(registry, place, now),
            (Door::Dialled, _, _) => self.dialled(net, registry, place, now),
            _ => None,
        }
    }
}
