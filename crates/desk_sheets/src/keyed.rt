//! The line of an owner's server: where it is reached, and the key of the owner's lane there.
ghost use Rattle.std.specs.Prelude.{◌≡◌, true, IfSome, option_map};
ghost use Rattle.desk_texts.specs.Places.{is_place};
ghost use Rattle.desk_sheets.specs.Keys.{key_digits, key_of, server_of};

use desk_texts::is_place;
use express_texts::after;
use lane_gate::Ticket;

/// A space, and two digits for each of sixteen bytes.
const KEY_LEN: usize = 33;

/// The 32 digits of a key, in lower case.
pub fn key_digits(key: &Ticket) -> [u8; 32]
    ensures { result ≡ key_digits key.now }
{
    let mut digits = [0; 32];
    match hex::encode_to_slice(key.0.as_slice(), &mut digits) {
        Ok(()) => digits,
        Err(_) => unreachable!(),
    }
}

// The key behind a space, whose digits are in lower case.
#[tactic(auto, unfolding(crate::specs::Keys::key_of))]
fn key_of(text: &[u8]) -> Option<Ticket>
    ensures { result ≡ key_of text.now }
{
    let digits = after(b" ", text)?;
    let mut bytes = [0; 16];
    if hex::decode_to_slice(digits, &mut bytes).is_err() {
        return None;
    }
    let key = Ticket(bytes);
    if digits == key_digits(&key).as_slice() {
        Some(key)
    } else {
        None
    }
}

/// The place and the key on a line of this word.
#[tactic(auto, unfolding(crate::specs::Keys::server_of))]
pub fn server_of<'a>(word: &[u8], content: &'a [u8]) -> Option<(&'a [u8], Ticket)>
    ensures value { option_map (λ r. record { place = r.0.now; key = r.1 }) result
        ≡ server_of word.now content.now }
    ensures place { IfSome result (λ r. is_place r.0.now ≡ true) }
{
    let rest = after(word, content)?;
    let (place, digits) = rest.split_at(rest.len().saturating_sub(KEY_LEN));
    let key = key_of(digits)?;
    if is_place(place) {
        Some((place, key))
    } else {
        None
    }
}
