//! A door at which connections wait.
ghost use Rattle.std.specs.Prelude.{◌≡◌, IfOk, IfSome};
ghost use Rattle.mio_wires.specs.Slots.{new_stream};

use crate::wire::{Wire, register_at};
use many_words::Door;
use mio::net::{TcpListener, TcpStream};
use mio::{Interest, Registry, Token};
use std::io;
use std::io::ErrorKind;
use std::net::{Net, SocketAddr};

/// So many accepts follow each other, where each fails for the fault of its own connection.
const MOST_ACCEPTS: u32 = 10;

/// So many milliseconds a door is left alone whose accept failed for the system's fault, as where no file can
/// be opened.
const PAUSE: u64 = 100;

/// What an accept that gave no connection says of the door.
#[derive(Clone, Copy, Debug, PartialEq, Eq)]
enum Refusal {
    /// None waits.
    None,
    /// The one that waited is gone.
    Gone,
    /// The system can take none now.
    Jammed,
}

fn refusal_of(error: io::Error) -> Refusal {
    match error.kind() {
        ErrorKind::WouldBlock => Refusal::None,
        ErrorKind::Interrupted | ErrorKind::ConnectionAborted => Refusal::Gone,
        _ => Refusal::Jammed,
    }
}

/// The listener of a door, and the connection of it that is taken next.
#[derive(Drop)]
pub struct Doorway {
    door: Door,
    listener: TcpListener,
    next: Option<TcpStream>,
    // An accept may find one, but not before this moment.
    ready: bool,
    from: u64,
}

impl Doorway {
    /// Listens at an address. That connections wait is reported under this token.
    pub fn open<N: Net>(
        net: &N,
        registry: &Registry,
        door: Door,
        at: SocketAddr,
        token: Token,
    ) -> io::Result<Doorway>
        ensures { IfOk result (λ doorway. doorway.door ≡ door) }
    {
        let mut listener = TcpListener::bind(net, at)?;
        registry.register(&mut listener, token, Interest::READABLE)?;
        Ok(Doorway {
            door,
            listener,
            next: None,
            ready: true,
            from: 0,
        })
    }

    /// Where it listens.
    pub fn address(&self) -> io::Result<SocketAddr> {
        self.listener.local_addr()
    }

    /// A connection was reported.
    pub fn wake(&mut self)
        ensures { self.new.door ≡ self.old.door }
    {
        self.ready = true;
    }

    fn accept(&self) -> Result<TcpStream, Refusal> {
        match self.listener.accept() {
            Ok((stream, _)) => Ok(stream),
            Err(error) => Err(refusal_of(error)),
        }
    }

    // Has the next connection in hand, if one waits.
    fn fetch(&mut self, now: u64)
        ensures { self.new.door ≡ self.old.door }
    {
        for _ in 0..MOST_ACCEPTS {
            match self.accept() {
                Ok(stream) => {
                    self.next = Some(stream);
                    return;
                }
                Err(Refusal::Gone) => {}
                Err(Refusal::None) => {
                    self.ready = false;
                    return;
                }
                Err(Refusal::Jammed) => {
                    self.from = now.saturating_add(PAUSE);
                    return;
                }
            }
        }
    }

    /// Whether a connection waits.
    pub fn knocks(&mut self, now: u64) -> bool
        ensures { self.new.door ≡ self.old.door }
    {
        if self.next.is_none() && self.ready && self.from <= now {
            self.fetch(now);
        }
        self.next.is_some()
    }

    /// The next connection, whose readiness is reported under the number of a place.
    pub fn take(&mut self, registry: &Registry, place: usize, now: u64) -> Option<Wire>
        ensures of { IfSome result (λ wire. wire ≡ new_stream self.old.door) }
        ensures door { self.new.door ≡ self.old.door }
    {
        if !self.knocks(now) {
            return None;
        }
        let mut stream = self.next.take()?;
        let _ = stream.set_nodelay(true);
        register_at(&mut stream, registry, place).ok()?;
        Some(Wire::new(stream, self.door))
    }
}
