//! Where a server's door is.
ghost use Rattle.std.specs.Prelude.{◌≡◌, ◌↔◌, IfSome, IsSome, IsTrue, List, ℕ};
ghost use Rattle.http_door.specs.Values.{is_value};

use http_door::HeaderValue;
use std::marker::Model;

/// The place of a clients' door: the text that is dialled, and that stands in a request's `Host`.
#[derive(Drop)]
pub struct Place<'a> {
    text: &'a str,
}

impl<'a> Model for Place<'a> {
    ghost Value = { List ℕ };

    ghost view = { λ p. p.text.now };

    ghost invariant = { λ p. IsTrue (is_value p.text.now) };
}

impl<'a> Place<'a> {
    /// A text as a place: 1 to 255 bytes of visible ASCII.
    pub fn of(text: &'a str) -> Option<Place<'a>>
        ensures variant { IsSome result ↔ IsTrue (is_value text.now) }
        ensures text { IfSome result (λ place. place ≡ text.now) }
    {
        match HeaderValue::of(text.as_bytes()) {
            Some(_) => Some(Place { text }),
            None => None,
        }
    }

    /// Its text.
    pub fn text(&self) -> &'a str
        ensures { result.now ≡ self.now }
    {
        self.text
    }

    // The value of `Host`.
    pub(crate) fn host(&self) -> HeaderValue<'a>
        ensures host { result ≡ self.now }
        ensures value { IsTrue (is_value result) }
    {
        match HeaderValue::of(self.text.as_bytes()) {
            Some(host) => host,
            None => unreachable!(),
        }
    }
}
