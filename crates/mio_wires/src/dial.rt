//! The connection that the server dials.
ghost use Rattle.std.specs.Prelude.{◌≡◌, ◌++◌, [], ◌∷◌, true, false, IsSome};
ghost use Rattle.mio_wires.specs.Dials.{is_due, begun_if, next_if, a_second_after};

use crate::wire::register_at;
use express_outside::History;
use mio::Registry;
use mio::net::TcpStream;
use std::io::ErrorKind;
use std::marker::Model;
use std::net::{Net, SocketAddr};

/// So many milliseconds lie between two connects at least.
const BETWEEN: u64 = 1000;

/// So many milliseconds longer a connect may take before it is given up.
const PATIENCE: u64 = 9000;

/// Where a connect stands.
#[derive(Clone, Copy, Debug, PartialEq, Eq)]
enum Progress {
    Connected,
    UnderWay,
    Failed,
}

fn progress_of(stream: &TcpStream) -> Progress {
    if !matches!(stream.take_error(), Ok(None)) {
        return Progress::Failed;
    }
    match stream.peer_addr() {
        Ok(_) => Progress::Connected,
        Err(error) if error.kind() == ErrorKind::NotConnected => Progress::UnderWay,
        Err(_) => Progress::Failed,
    }
}

/// The other server's address, and the connect that is under way, if one is. It tells when each one was
/// begun.
#[derive(Drop)]
pub struct Dial {
    address: SocketAddr,
    stream: Option<TcpStream>,
    begun: History<u64>,
    next: u64,
}

impl Model for Dial {
    ghost use Rattle.std.specs.Prelude.{is_some};
    ghost use Rattle.mio_wires.specs.Dials.{Dial as State};

    ghost Value = { State };

    ghost view = { λ d. record {
      begun = d.begun;
      under_way = is_some d.stream;
      next = d.next;
    } };
}

impl Dial {
    /// No connect was begun yet.
    pub fn new(address: SocketAddr) -> Dial
        ensures { result ≡ record { begun = []; under_way = false; next = 0 } }
    {
        Dial {
            address,
            stream: None,
            begun: History::new(),
            next: 0,
        }
    }

    // Begins a connect, whose end is reported under the number of a place. One that fails at once is over.
    fn begin<N: Net>(&mut self, net: &N, registry: &Registry, place: usize, now: u64)
        ensures begun { self.new.begun ≡ self.old.begun ++ now ∷ [] }
        ensures next { self.new.next ≡ a_second_after now }
    {
        self.begun.note(&now);
        self.next = now.saturating_add(BETWEEN);
        self.stream = None;
        let Ok(mut stream) = TcpStream::connect(net, self.address) else {
            return;
        };
        if register_at(&mut stream, registry, place).is_ok() {
            self.stream = Some(stream);
        }
    }

    // The connect that is under way, once it stands. One that failed or takes too long is given up.
    fn finished(&mut self, now: u64) -> Option<TcpStream>
        ensures begun { self.new.begun ≡ self.old.begun }
        ensures next { self.new.next ≡ self.old.next }
        ensures once { IsSome result → self.new.under_way ≡ false }
        ensures under_way { self.new.under_way ≡ true → self.old.under_way ≡ true }
        ensures of { IsSome result → self.old.under_way ≡ true }
    {
        let stream = self.stream.take()?;
        let late = now.saturating_sub(self.next) >= PATIENCE;
        match progress_of(&stream) {
            Progress::Connected => return Some(stream),
            Progress::UnderWay if !late => self.stream = Some(stream),
            _ => {}
        }
        None
    }

    /// The connection to the other server, once a connect has made it. A connect is begun where none is under
    /// way and a second has passed since the last one was begun.
    pub fn dial<N: Net>(
        &mut self,
        net: &N,
        registry: &Registry,
        place: usize,
        now: u64,
    ) -> Option<TcpStream>
        ensures begun { self.new.begun ≡ begun_if (is_due self.old now) self.old.begun now }
        ensures next { self.new.next ≡ next_if (is_due self.old now) self.old.next now }
        ensures made { IsSome result → (self.old.under_way ≡ true) × (self.new.under_way ≡ false) }
    {
        if self.stream.is_none() && self.next <= now {
            self.begin(net, registry, place, now);
            return None;
        }
        let stream = self.finished(now)?;
        let _ = stream.set_nodelay(true);
        Some(stream)
    }
}
