//! Addresses of servers.
ghost use Rattle.std.specs.Prelude.{◌≡◌, ◌↔◌, IsTrue, IfOk, IfSome, Some, List, ℕ};
ghost use Rattle.desk_texts.specs.Places.{is_place};
ghost use Rattle.server_settings.specs.Values.{address_of, has_host, is_loopback};

use crate::found::copied;
use desk_texts::is_place;
use express_texts::{after, last_number};
use express_words::{NoMemory, Text};
use std::alloc::Global;
use std::fmt;
use std::marker::Model;

/// `HOST:PORT` of at most 255 lower-case letters, digits and `.:-[]`, with a port from 1 to 65,535 in decimal digits.
#[derive(Drop)]
pub struct Address {
    text: Text,
}

impl Model for Address {
    ghost Value = { List ℕ };

    ghost view = { λ a. a.text };

    ghost invariant = { λ a. IsTrue (is_place a.text) };
}

// Whether the port stands behind this host and a colon.
fn has_host(host: &[u8], text: &[u8]) -> bool
    ensures { result ≡ has_host host.now text.now }
{
    match after(host, text) {
        Some(port) => last_number(1, 65_535, port).is_some(),
        None => false,
    }
}

impl Address {
    /// The address that this text is, if it is one.
    pub fn of(alloc: Global, text: &str) -> Result<Option<Address>, NoMemory>
        ensures { IfOk result (λ address. address ≡ address_of text.now) }
    {
        if is_place(text.as_bytes()) {
            Ok(Some(Address {
                text: copied(alloc, text)?,
            }))
        } else {
            Ok(None)
        }
    }

    /// Its text.
    pub fn as_str(&self) -> &str
        ensures text { result.now ≡ self.now }
        ensures place { IsTrue (is_place self.now) }
    {
        self.text.as_str()
    }

    /// Whether its host is 127.0.0.1 or [::1], which other machines don't reach.
    pub fn is_loopback(&self) -> bool
        ensures { result ≡ is_loopback self.now }
    {
        let text = self.as_str().as_bytes();
        has_host(b"127.0.0.1:", text) || has_host(b"[::1]:", text)
    }

    /// Whether it is the same text.
    pub fn is(&self, other: &Address) -> bool
        ensures { IsTrue result ↔ (self.now ≡ other.now) }
    {
        self.as_str() == other.as_str()
    }
}

impl fmt::Display for Address {
    ghost output = { λ address. Some address };

    fn fmt<W: fmt::Write>(&self, f: &mut fmt::Formatter<W>) -> fmt::Result {
        f.write_str(self.as_str())
    }
}
