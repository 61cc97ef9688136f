//! Numbers in decimal digits.
ghost use Rattle.std.specs.Prelude.{◌≡◌, ◌<◌, ◌≤◌, ◌^◌, option_map, IfSome};
ghost use Rattle.express_texts.specs.Numbers.{digits_on, within, number_at, last_number};

// The number whose digits go on after those of the first.
#[tactic(auto, unfolding(crate::specs::Numbers::digits_on))]
fn digits_on(first: u64, high: u64, bytes: &[u8]) -> Option<(u64, &[u8])>
    requires start { first ≤ high }
    requires small { high < 2 ^ 32 }
    ensures value { option_map (λ r. (r.0, r.1.now)) result ≡ within 0 high (digits_on first bytes.now) }
    ensures in_range { IfSome result (λ r. r.0 ≤ high) }
{
    let mut value = first;
    let mut rest = bytes;
    while let [digit, behind @ ..] = rest {
        if !digit.is_ascii_digit() {
            return Some((value, rest));
        }
        value = 10 * value + u64::from(*digit - b'0');
        if value > high {
            return None;
        }
        rest = behind;
    }
    Some((value, rest))
}

/// The number at the front, without leading zeros and within these bounds, and what follows it.
#[tactic(auto, using(crate::proofs::Numerals::too_large), unfolding(crate::specs::Numbers::number_at))]
pub fn number_at(low: u64, high: u64, bytes: &[u8]) -> Option<(u64, &[u8])>
    requires some { low ≤ high }
    requires small { high < 2 ^ 32 }
    ensures value { option_map (λ r. (r.0, r.1.now)) result ≡ number_at low high bytes.now }
    ensures in_range { IfSome result (λ r. r.0 ≤ high) }
{
    let (digit, rest) = bytes.split_first()?;
    if *digit == b'0' {
        return if low == 0 { Some((0, rest)) } else { None };
    }
    if !digit.is_ascii_digit() {
        return None;
    }
    let first = u64::from(*digit - b'0');
    if first > high {
        return None;
    }
    let found = digits_on(first, high, rest)?;
    if found.0 < low { None } else { Some(found) }
}

/// A number and nothing more.
#[tactic(auto, unfolding(crate::specs::Numbers::last_number))]
pub fn last_number(low: u64, high: u64, bytes: &[u8]) -> Option<u64>
    requires some { low ≤ high }
    requires small { high < 2 ^ 32 }
    ensures value { result ≡ last_number low high bytes.now }
    ensures in_range { IfSome result (λ n. n ≤ high) }
{
    let (number, rest) = number_at(low, high, bytes)?;
    if rest.is_empty() { Some(number) } else { None }
}
