//! The fields that a schedule's lines alone have: a server, and a frame's bytes.
ghost use Rattle.std.specs.Prelude.{◌≡◌, option_map, IfOk};
ghost use Rattle.schedule_text.specs.Fields.{server_at, bytes_of};

use express_texts::{after, any_bytes_of};
use express_words::NoMemory;
use frame_rules::FRAME_MAX;
use std::alloc::Global;

/// A server and a space at the front, A for the leader (0) and B for the helper (1), and what follows.
#[tactic(auto, unfolding(crate::specs::Fields::server_at))]
pub fn server_at(bytes: &[u8]) -> Option<(u8, &[u8])>
    ensures { option_map (λ r. (r.0, r.1.now)) result ≡ server_at bytes.now }
{
    if let Some(rest) = after(b"A ", bytes) {
        return Some((0, rest));
    }
    let rest = after(b"B ", bytes)?;
    Some((1, rest))
}

/// 1 to 8,213 bytes, in twice as many hexadecimal digits.
#[tactic(auto, unfolding(crate::specs::Fields::bytes_of, express_texts::specs::LineFields::any_bytes_of))]
pub fn bytes_of(alloc: Global, digits: &[u8]) -> Result<Option<Vec<u8>>, NoMemory>
    ensures { IfOk result (λ found. option_map (λ b. b.items) found ≡ bytes_of digits.now) }
{
    let count = digits.len() / 2;
    if count < 1 || count > FRAME_MAX {
        return Ok(None);
    }
    any_bytes_of(alloc, digits)
}
