//! One level of the tree: the step of a walk, and the word and right bit of the keys.
ghost use Rattle.std.specs.Prelude.{◌≡◌, ◌<◌};
ghost use Rattle.dpf_rules.specs.Expansion.{with_bit};
ghost use Rattle.dpf_rules.specs.Walk.{side_at, correction, corrected, step};
ghost use Rattle.dpf_rules.specs.Keys.{raw_pair, on_side, level_word, level_right};

/// A number with bit 0 replaced.
pub fn with_bit(x: u128, bit: u128) -> u128
    requires { bit < 2 }
    ensures { result ≡ with_bit x bit }
{
    x / 2 * 2 + bit
}

/// The side of an address at a level: 0 is left, 1 is right.
pub fn side_at(address: u128, level: u8) -> u128
    requires { level < 128 }
    ensures value { result ≡ side_at address level }
    ensures bound { result < 2 }
{
    (address >> (127 - level)) % 2
}

/// The member of a pair on a side.
pub fn on_side(pair: (u128, u128), side: u128) -> u128
    ensures { result ≡ on_side pair side }
{
    if side == 0 { pair.0 } else { pair.1 }
}

// What a level adds to the raw child of a side.
fn correction(word: u128, right: u128, side: u128) -> u128
    requires { right < 2 }
    ensures { result ≡ correction word right side }
{
    if side == 0 {
        word
    } else {
        with_bit(word, right)
    }
}

/// A raw child of a state on a side, corrected where the state's control bit is 1.
pub fn corrected(word: u128, right: u128, side: u128, raw: u128, state: u128) -> u128
    requires { right < 2 }
    ensures { result ≡ corrected word right side raw state }
{
    if state % 2 == 1 {
        raw ^ correction(word, right, side)
    } else {
        raw
    }
}

/// The next state on a side, from the raw children of the present one.
pub fn step(word: u128, right: u128, side: u128, state: u128, pair: (u128, u128)) -> u128
    requires raw { pair ≡ raw_pair state }
    requires bit { right < 2 }
    requires side_bound { side < 2 }
    ensures { result ≡ step word right side state }
{
    corrected(word, right, side, on_side(pair, side), state)
}

/// The word of a level of the keys, from both servers' raw pairs: the sum of the seeds on the side that is lost, with
/// the control bit that makes both servers' bits equal there.
pub fn level_word(p: (u128, u128), q: (u128, u128), side: u128) -> u128
    requires { side < 2 }
    ensures { result ≡ level_word p q side }
{
    let lost = on_side(p, 1 - side) ^ on_side(q, 1 - side);
    with_bit(lost, (p.0 % 2 + q.0 % 2 + side + 1) % 2)
}

/// The right bit of a level of the keys.
pub fn level_right(p: (u128, u128), q: (u128, u128), side: u128) -> u128
    requires { side < 2 }
    ensures value { result ≡ level_right p q side }
    ensures bound { result < 2 }
{
    (p.1 % 2 + q.1 % 2 + side) % 2
}
