//! A host and its port, as a proxy is asked for them.
ghost use Rattle.std.specs.Prelude.{◌≡◌, ◌<◌, ◌≤◌, ◌==◌, length, position, option_map, IfSome, IsTrue};
ghost use Rattle.socks_proxy.specs.Routes.{around_colon, is_host, plain_target, target_of};

use express_texts::last_number;

const MOST_PORT: u64 = 65_535;

/// A host, by its name of 1 to 255 bytes, and a port of it.
#[derive(Clone, Copy, Debug, PartialEq, Eq)]
pub struct Target<'a> {
    pub host: &'a [u8],
    pub port: u16,
}

fn first_colon(place: &[u8]) -> Option<usize>
    ensures which { result ≡ position (λ b. b == 58) place.now }
    ensures bound { IfSome result (λ i. i < length place.now) }
{
    place.iter().position(|b| *b == b':')
}

// What stands before the first colon, and what stands behind it.
fn around_colon(place: &[u8]) -> Option<(&[u8], &[u8])>
    ensures { option_map (λ parts. (parts.0.now, parts.1.now)) result ≡ around_colon place.now }
{
    match first_colon(place) {
        Some(i) => Some((&place[..i], &place[i + 1..])),
        None => None,
    }
}

fn is_host(host: &[u8]) -> bool
    ensures which { result ≡ is_host host.now }
    ensures short { IsTrue result → length host.now ≤ 255 }
{
    1 <= host.len() && host.len() <= 255
}

/// The host and the port of a place, HOST:PORT: a host of 1 to 255 bytes without a colon, and a port from 1 to 65,535.
#[tactic(auto, unfolding(crate::specs::Routes::target_of))]
pub fn target_of(place: &[u8]) -> Option<Target<'_>>
    ensures target { option_map plain_target result ≡ target_of place.now }
    ensures short { IfSome result (λ target. length target.host.now ≤ 255) }
{
    let (host, digits) = around_colon(place)?;
    let port = last_number(1, MOST_PORT, digits)?;
    if is_host(host) {
        Some(Target {
            host,
            port: port as u16,
        })
    } else {
        None
    }
}
