//! TCP sockets of the system.
ghost use Rattle.std.specs.Prelude.{◌≡◌, ◌≤◌, [], Some, Ok, Err, length, IfOk, MatchResult};

use crate::calls::{Trouble, trouble_of};
use crate::history::{History, noted};
use crate::patience::{Limit, Socket, SocketCall};
use crate::tcp_net::{Connected, PortCall, Ports};
use std::io::{ErrorKind, Read, Write};
use std::net::{Net, OpenListener, OpenStream, SocketAddr, TcpListener, TcpStream, ToSocketAddrs};
use std::time::{Clock, Duration, Instant};
use std::{io, thread};

/// So many seconds a dial may take, over all addresses of a host's name.
const PATIENCE_WITH_DIALS: u64 = 10;

/// So many milliseconds a door that failed is left alone.
const PAUSE: u64 = 100;

/// The ports of the system, with a listener once `listen` has succeeded. An address is an IP address or a host's name,
/// and a port, as "127.0.0.1:7000". They tell their calls.
#[derive(Drop)]
pub struct TcpPorts<R: Net + Clock + Copy> {
    rt: R,
    door: Option<R::Listener>,
    calls: History<PortCall>,
}

/// A stream, and the clock by which its calls end in time. It tells its calls, and the bytes
/// that its reads gave and its writes took.
#[derive(Drop)]
pub struct TcpSocket<R: Net + Clock + Copy> {
    rt: R,
    stream: R::Stream,
    calls: History<SocketCall>,
    given: History<u8>,
    taken: History<u8>,
}

// The moment at which a socket was connected, where it was.
fn moment_of<S>(answer: &Result<Connected<S>, Trouble>) -> Result<Instant, Trouble>
    ensures { MatchResult answer.now (λ made. result ≡ Ok made.at) (λ why. result ≡ Err why) }
{
    match answer {
        Ok(made) => Ok(made.at),
        Err(why) => Err(*why),
    }
}

impl<R: Net + Clock + Copy> TcpPorts<R> {
    /// Listens nowhere yet.
    pub fn new(rt: R) -> Self {
        TcpPorts {
            rt,
            door: None,
            calls: History::new(),
        }
    }

    // The stream, as connected now.
    fn connected(&self, stream: R::Stream) -> io::Result<Connected<TcpSocket<R>>>
        ensures { IfOk result (λ made. (made.socket.given ≡ []) × (made.socket.taken ≡ [])) }
    {
        let at = Instant::now(&self.rt)?;
        Ok(Connected {
            socket: TcpSocket::new(self.rt, stream),
            at,
        })
    }

    fn opened(&mut self, at: &str) -> Result<(), Trouble>
        ensures { self.new.calls ≡ self.old.calls }
    {
        self.door = Some(TcpListener::bind(&self.rt, at).map_err(trouble_of)?);
        Ok(())
    }

    fn accepted(&self) -> io::Result<Connected<TcpSocket<R>>>
        ensures { IfOk result (λ made. (made.socket.given ≡ []) × (made.socket.taken ≡ [])) }
    {
        let Some(door) = &self.door else {
            return Err(io::Error::from(ErrorKind::NotConnected));
        };
        let (stream, _) = door.accept()?;
        self.connected(stream)
    }

    // A connection to one address, if there is time left for it.
    fn dialled_at(&self, addr: SocketAddr, limit: &mut Limit) -> io::Result<R::Stream> {
        let Some(left) = limit.left_at(Instant::now(&self.rt)?) else {
            return Err(io::Error::from(ErrorKind::TimedOut));
        };
        TcpStream::connect_timeout(&self.rt, &addr, left)
    }

    // Each address of the peer is dialled in turn.
    fn dialled(&self, peer: &str) -> io::Result<Connected<TcpSocket<R>>>
        ensures { IfOk result (λ made. (made.socket.given ≡ []) × (made.socket.taken ≡ [])) }
    {
        let mut limit = Limit::of(PATIENCE_WITH_DIALS);
        let mut last = io::Error::from(ErrorKind::InvalidInput);
        for addr in peer.to_socket_addrs(&self.rt)? {
            match self.dialled_at(addr, &mut limit) {
                Ok(stream) => return self.connected(stream),
                Err(error) => last = error,
            }
        }
        Err(last)
    }
}

impl<R: Net + Clock + Copy> Ports for TcpPorts<R> {
    type Socket = TcpSocket<R>;

    ghost calls = { λ ports. Some ports.calls };

    fn listen(&mut self, at: &str) -> Result<(), Trouble> {
        let answer = self.opened(at);
        self.calls
            .note(&PortCall::Listened(noted(at.as_bytes()), answer));
        answer
    }

    fn accept(&mut self) -> Result<Connected<TcpSocket<R>>, Trouble> {
        let answer = self.accepted().map_err(trouble_of);
        self.calls.note(&PortCall::Accepted(moment_of(&answer)));
        answer
    }

    fn dial(&mut self, peer: &str) -> Result<Connected<TcpSocket<R>>, Trouble> {
        let answer = self.dialled(peer).map_err(trouble_of);
        self.calls.note(&PortCall::Dialled(noted(peer.as_bytes()), moment_of(&answer)));
        answer
    }

    fn pause(&mut self) {
        thread::sleep(&self.rt, Duration::from_millis(PAUSE));
    }
}

impl<R: Net + Clock + Copy> TcpSocket<R> {
    /// A stream whose calls end by this clock.
    pub fn new(rt: R, stream: R::Stream) -> Self
        ensures { (result.calls ≡ []) × (result.given ≡ []) × (result.taken ≡ []) }
    {
        TcpSocket {
            rt,
            stream,
            calls: History::new(),
            given: History::new(),
            taken: History::new(),
        }
    }

    fn read_in_time(&mut self, left: Duration, buf: &mut [u8]) -> io::Result<usize>
        ensures bound { IfOk result (λ n. n ≤ length buf.new) }
        ensures calls { self.new.calls ≡ self.old.calls }
        ensures bytes { (self.new.given ≡ self.old.given) × (self.new.taken ≡ self.old.taken) }
    {
        self.stream.set_read_timeout(Some(left))?;
        self.stream.read(buf)
    }

    fn write_in_time(&mut self, left: Duration, bytes: &[u8]) -> io::Result<usize>
        ensures bound { IfOk result (λ n. n ≤ length bytes.now) }
        ensures calls { self.new.calls ≡ self.old.calls }
        ensures bytes { (self.new.given ≡ self.old.given) × (self.new.taken ≡ self.old.taken) }
    {
        self.stream.set_write_timeout(Some(left))?;
        self.stream.write(bytes)
    }
}

impl<R: Net + Clock + Copy> Socket for TcpSocket<R> {
    ghost given = { λ socket. socket.given };

    ghost taken = { λ socket. socket.taken };

    ghost calls = { λ socket. Some socket.calls };

    fn now(&mut self) -> Result<Instant, Trouble> {
        let now = Instant::now(&self.rt).map_err(trouble_of)?;
        self.calls.note(&SocketCall::Told(now));
        Ok(now)
    }

    fn read_within(&mut self, left: Duration, buf: &mut [u8]) -> Result<usize, Trouble> {
        let answer = self.read_in_time(left, buf).map_err(trouble_of);
        if let Ok(count) = answer {
            self.given.note_bytes(&buf[..count]);
        }
        self.calls.note(&SocketCall::ReadWithin(left, answer));
        answer
    }

    fn write_within(&mut self, left: Duration, bytes: &[u8]) -> Result<usize, Trouble> {
        let answer = self.write_in_time(left, bytes).map_err(trouble_of);
        if let Ok(count) = answer {
            self.taken.note_bytes(&bytes[..count]);
        }
        self.calls.note(&SocketCall::WroteWithin(left, answer));
        answer
    }
}
