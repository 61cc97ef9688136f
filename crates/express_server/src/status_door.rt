//! The door at which operators ask how a server stands.
use crate::console::LINE;
use mio::net::TcpListener;
use server_settings::{Address, Key, ServerSettings};
use server_status::{Status, line_in};
use server_words::Stop;
use std::io;
use std::io::{Read, Write};
use std::net::{Shutdown, SocketAddr, TcpStream, ToSocketAddrs};
use std::time::Duration;

/// So many askers are answered behind a round at most; the others are the next one's.
const ASKERS: usize = 4;

/// So many seconds an answer is waited for.
const PATIENCE: u64 = 10;

/// The listener. Whoever connects is sent the line and let go of at once: nobody is waited for, and nothing is read.
#[derive(Drop)]
pub struct StatusDoor {
    listener: TcpListener,
}

/// The first address of a name, under this key.
pub fn socket_of(rt: &HostRuntime, key: Key, address: &Address) -> Result<SocketAddr, Stop> {
    let mut found = address
        .as_str()
        .to_socket_addrs(rt)
        .map_err(|_| Stop::Address(key))?;
    found.next().ok_or(Stop::Address(key))
}

// A line fits what a new connection takes at once.
fn tell(mut stream: mio::net::TcpStream, line: &str) {
    let _taken = stream.write(line.as_bytes());
    let _ended = stream.shutdown(Shutdown::Write);
}

impl StatusDoor {
    /// Listens where the settings say, if they do.
    pub fn of(rt: &HostRuntime, settings: &ServerSettings) -> Result<Option<StatusDoor>, Stop> {
        let Some(address) = &settings.doors.status else {
            return Ok(None);
        };
        let at = socket_of(rt, Key::Status, address)?;
        let listener = TcpListener::bind(rt, at).map_err(|_| Stop::Address(Key::Status))?;
        Ok(Some(StatusDoor { listener }))
    }

    /// Tells each who asks how the server stands; `line` is a room for the text.
    pub fn answer(&self, status: &Status, line: &mut String) {
        for _ in 0..ASKERS {
            let Ok((stream, _)) = self.listener.accept() else {
                return;
            };
            line.clear();
            if write!(line, "{status}\n").is_ok() {
                tell(stream, line.as_str());
            }
        }
    }
}

// Reads until the connection ends, or the buffer is full.
fn read_line(stream: &mut TcpStream, room: &mut [u8]) -> io::Result<usize> {
    let mut count = 0;
    for _ in 0..LINE {
        if count >= room.len() {
            break;
        }
        let read = stream.read(&mut room[count..])?;
        if read == 0 {
            break;
        }
        count += read;
    }
    Ok(count)
}

fn ask_at(rt: &HostRuntime, at: SocketAddr, room: &mut [u8]) -> io::Result<usize> {
    let patience = Duration::from_secs(PATIENCE);
    let mut stream = TcpStream::connect_timeout(rt, &at, patience)?;
    stream.set_read_timeout(Some(patience))?;
    read_line(&mut stream, room)
}

fn print_line(rt: &HostRuntime, came: &[u8]) -> Result<(), Stop> {
    match line_in(came) {
        Some(line) => {
            let _told = println!(rt; "{line}");
            Ok(())
        }
        None => Err(Stop::NoServer),
    }
}

/// Asks the server of these settings how it stands, and prints its line.
pub fn ask(rt: &HostRuntime, settings: &ServerSettings) -> Result<(), Stop> {
    let Some(address) = &settings.doors.status else {
        return Err(Stop::Address(Key::Status));
    };
    let at = socket_of(rt, Key::Status, address)?;
    let mut room = [0; LINE];
    let count = ask_at(rt, at, &mut room).map_err(|_| Stop::NoServer)?;
    match room.get(..count) {
        Some(came) => print_line(rt, came),
        None => Err(Stop::NoServer),
    }
}
