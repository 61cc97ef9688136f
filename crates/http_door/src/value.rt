//! Values of header fields that a program is told: a host, or an origin.
ghost use Rattle.std.specs.Prelude.{◌≡◌, ◌↔◌, IsSome, IfSome, IsTrue, List, ℕ};
ghost use Rattle.http_door.specs.Values.{is_visible, is_value};

use std::marker::Model;

/// The longest value, in bytes.
pub const VALUE_MAX: usize = 255;

/// A header field's value: 1 to 255 bytes of visible ASCII, so no line ends in it.
#[derive(Drop)]
pub struct HeaderValue<'a> {
    bytes: &'a [u8],
}

impl<'a> Model for HeaderValue<'a> {
    ghost Value = { List ℕ };

    ghost view = { λ v. v.bytes.now };

    ghost invariant = { λ v. IsTrue (is_value v.bytes.now) };
}

fn is_visible(bytes: &[u8]) -> bool
    ensures { result ≡ is_visible bytes.now }
{
    for byte in bytes {
        if !byte.is_ascii_graphic() {
            return false;
        }
    }
    true
}

impl<'a> HeaderValue<'a> {
    /// Bytes as a value, if they are one.
    pub fn of(bytes: &'a [u8]) -> Option<HeaderValue<'a>>
        ensures variant { IsSome result ↔ IsTrue (is_value bytes.now) }
        ensures value { IfSome result (λ v. v ≡ bytes.now) }
    {
        if bytes.is_empty() || bytes.len() > VALUE_MAX || !is_visible(bytes) {
            return None;
        }
        Some(HeaderValue { bytes })
    }

    /// Its bytes.
    pub fn bytes(&self) -> &'a [u8]
        ensures bytes { result.now ≡ self.now }
        ensures value { IsTrue (is_value self.now) }
    {
        self.bytes
    }
}
