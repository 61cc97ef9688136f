//! Places of servers.
ghost use Rattle.std.specs.Prelude.{◌≡◌};
ghost use Rattle.std.specs.List.{list_all};
ghost use Rattle.std.specs.Option.{option_copied};
ghost use Rattle.desk_texts.specs.Places.{is_place_byte, behind_colon, begins_with_colon, is_port, is_place};

use express_texts::last_number;

const MOST_PLACE: usize = 255;

const MOST_PORT: u64 = 65_535;

fn is_place_byte(byte: u8) -> bool
    ensures { result ≡ is_place_byte byte }
{
    byte.is_ascii_digit() || byte.is_ascii_lowercase() || b".:-[]".contains(&byte)
}

// What stands behind the last colon.
fn behind_colon(text: &[u8]) -> Option<&[u8]>
    ensures { option_copied result ≡ behind_colon text.now }
{
    let mut found = None;
    let mut rest = text;
    while let [byte, behind @ ..] = rest {
        if *byte == b':' {
            found = Some(behind);
        }
        rest = behind;
    }
    found
}

fn begins_with_colon(text: &[u8]) -> bool
    ensures { result ≡ begins_with_colon text.now }
{
    match text {
        [first, ..] => *first == b':',
        [] => false,
    }
}

fn are_place_bytes(text: &[u8]) -> bool
    ensures { result ≡ list_all is_place_byte text.now }
{
    text.iter().all(|b| is_place_byte(*b))
}

fn has_port(text: &[u8]) -> bool
    ensures { result ≡ is_port (behind_colon text.now) }
{
    match behind_colon(text) {
        Some(port) => last_number(1, MOST_PORT, port).is_some(),
        None => false,
    }
}

/// Whether a server can be reached at this place, by its form: `host:port` of at most 255 lower-case letters,
/// digits and `.:-[]`, where the port is a number from 1 to 65,535 without leading zeros.
#[tactic(auto, unfolding(crate::specs::Places::is_place))]
pub fn is_place(text: &[u8]) -> bool
    ensures { result ≡ is_place text.now }
{
    text.len() <= MOST_PLACE && !begins_with_colon(text) && are_place_bytes(text) && has_port(text)
}
