//! Where a request ends.
ghost use Rattle.std.specs.Prelude.{◌≡◌, ◌⊎◌, ◌+◌, ◌≤◌, ℕ, List, length, None, Some, IfSome, IfNone};
ghost use Rattle.httparse.specs.Grammar.{RequestHead, print_request};
ghost use Rattle.http_door.specs.declared.fault.DoorFault.{DoorFault as Fault};
ghost use Rattle.http_door.specs.Heads.{HasNoHead, HoldsRequest, HoldsUnsized, LacksBody, LacksHead, NeverTakes};

use crate::head::{find_head, stated_len};
use crate::limits::FIELDS_MAX;
use httparse::spans::EMPTY_HEADER_SPAN;

/// How many of these bytes are the first request, its head and its body, whatever follows it. None: more
/// bytes can still make one. Bytes that can't become a request that is taken are whole as they are.
pub fn whole(held: &[u8]) -> Option<usize>
    ensures request { (head : RequestHead) (body rest : List ℕ) → HoldsRequest held.now head body rest
        → result ≡ Some (length (print_request head) + length body) }
    ensures bad_length { (why : Fault) → HoldsUnsized held.now why → result ≡ Some (length held.now) }
    ensures headless { HasNoHead held.now → IfSome result (λ n. n ≡ length held.now) }
    ensures never { HasNoHead held.now → IfSome result (λ n. NeverTakes held.now) }
    ensures short { LacksBody held.now → result ≡ None }
    ensures waits { IfNone result (LacksHead held.now ⊎ LacksBody held.now) }
    ensures within { IfSome result (λ n. n ≤ length held.now) }
{
    let mut spans = [EMPTY_HEADER_SPAN; FIELDS_MAX];
    let Ok(found) = find_head(held, &mut spans) else {
        return Some(held.len());
    };
    let at = found?;
    match stated_len(held, &spans, &at) {
        Ok(n) if at.len + n <= held.len() => Some(at.len + n),
        Ok(_) => None,
        Err(_) => Some(held.len()),
    }
}
