//! The user name of a dial, by which Tor keeps its circuit apart from all others.
ghost use Rattle.socks_proxy.specs.Circuits.{NamesDiffer};

/// The password of each user name.
pub const PASSWORD: &[u8] = b"express";

/// The user name of a dial: bytes that were drawn for its net, and its number there.
#[derive(Clone, Copy)]
pub struct Login {
    pub drawn: [u8; 16],
    pub number: u64,
}

/// Dials of different numbers, or under bytes that were drawn differently, have different names.
pub fn names_differ()
    ensures { NamesDiffer }
{}
