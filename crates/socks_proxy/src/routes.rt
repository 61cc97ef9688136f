//! Which places go through a proxy.
ghost use Rattle.std.specs.Prelude.{◌≡◌, ◌≢◌, ◌≤◌, true, List as Listed, ℕ, Bool, length, option_map, IfSome};
ghost use Rattle.std.specs.List.{list_all};
ghost use Rattle.socks_proxy.specs.Routes.{Direct, begins_onion, names_onion, is_base32, is_onion_host, onion_of, plain_target, plain_route, route_of, IsShort};

use crate::targets::{Target, target_of};

/// How a place is reached.
#[derive(Clone, Copy, Debug, PartialEq, Eq)]
pub enum Route<'a> {
    /// It is dialled itself.
    Direct,
    /// A proxy is asked for it.
    Through(Target<'a>),
    /// It isn't dialled, since it is no place of an onion service, or none that a proxy takes.
    Wrong,
}

fn begins_onion(bytes: &[u8]) -> bool
    ensures { result ≡ begins_onion bytes.now }
{
    bytes[..bytes.len().min(6)].eq_ignore_ascii_case(b".onion")
}

// Whether .onion stands somewhere in the place.
#[tactic(auto, unfolding(crate::specs::Routes::names_onion))]
fn names_onion(place: &[u8]) -> bool
    ensures { result ≡ names_onion place.now }
{
    let mut rest = place;
    while let [_, behind @ ..] = rest {
        if begins_onion(rest) {
            return true;
        }
        rest = behind;
    }
    false
}

fn is_base32(byte: u8) -> bool
    ensures { result ≡ is_base32 byte }
{
    byte.is_ascii_lowercase() || (b'2' <= byte && byte <= b'7')
}

fn are_base32(bytes: &[u8]) -> bool
    ensures { result ≡ list_all is_base32 bytes.now }
{
    bytes.iter().all(|b| is_base32(*b))
}

fn is_onion_host(host: &[u8]) -> bool
    ensures { result ≡ is_onion_host host.now }
{
    if host.len() != 62 {
        return false;
    }
    let (letters, ending) = host.split_at(56);
    are_base32(letters) && ending == b".onion".as_slice()
}

#[tactic(auto, unfolding(crate::specs::Routes::onion_of))]
fn onion_of(place: &[u8]) -> Option<Target<'_>>
    ensures target { option_map plain_target result ≡ onion_of place.now }
    ensures short { IfSome result (λ target. length target.host.now ≤ 255) }
{
    let target = target_of(place)?;
    if is_onion_host(target.host) {
        Some(target)
    } else {
        None
    }
}

/// How a place is reached: where `.onion` stands in it, in letters of either case, it is the place of an onion service of
/// version 3, which a proxy is asked for, or else it is wrong; another one is dialled directly, or where a proxy is named
/// through that. Nothing is looked up.
pub fn route_of(place: &[u8], is_named: bool) -> Route<'_>
    ensures exact { plain_route result ≡ route_of place.now is_named }
    ensures short { IsShort result }
{
    if names_onion(place) {
        match onion_of(place) {
            Some(target) => Route::Through(target),
            None => Route::Wrong,
        }
    } else if is_named {
        match target_of(place) {
            Some(target) => Route::Through(target),
            None => Route::Wrong,
        }
    } else {
        Route::Direct
    }
}

/// A place of an onion service, and any place where a proxy is named, is never dialled directly.
pub fn onion_is_never_direct()
    ensures onion { (place : Listed ℕ) (is_named : Bool) → names_onion place ≡ true → route_of place is_named ≢ Direct }
    ensures named { (place : Listed ℕ) → route_of place true ≢ Direct }
{}
