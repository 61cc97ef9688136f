//! Sums, products and inverses of numbers of a level, by halves. A number of level k has 2^k bits, and its high bits
//! are its high half.
ghost use Rattle.std.specs.Prelude.{◌≡◌, ◌≢◌, ◌+◌, ◌-◌, ◌*◌, ◌/◌, ◌%◌, ◌^◌, ◌<◌, ◌≤◌, bit_xor};
ghost use Rattle.tower_numbers.specs.Levels.{twist_at, product_at, inverse_at};

// The number of bits of a half.
fn width_of(level: u32) -> u32
    requires above { 0 < level }
    requires level { level ≤ 7 }
    ensures value { result ≡ 2 ^ (level - 1) }
    ensures small { result ≤ 64 }
{
    1 << (level - 1)
}

fn low_half(level: u32, a: u128) -> u128
    requires above { 0 < level }
    requires level { level ≤ 7 }
    ensures value { result ≡ a % 2 ^ (2 ^ (level - 1)) }
    ensures small { result < 2 ^ (2 ^ (level - 1)) }
{
    let width = width_of(level);
    a & ((1 << width) - 1)
}

fn high_half(level: u32, a: u128) -> u128
    requires above { 0 < level }
    requires level { level ≤ 7 }
    requires a { a < 2 ^ (2 ^ level) }
    ensures value { result ≡ a / 2 ^ (2 ^ (level - 1)) }
    ensures small { result < 2 ^ (2 ^ (level - 1)) }
{
    a >> width_of(level)
}

fn join(level: u32, low: u128, high: u128) -> u128
    requires above { 0 < level }
    requires level { level ≤ 7 }
    requires low { low < 2 ^ (2 ^ (level - 1)) }
    requires high { high < 2 ^ (2 ^ (level - 1)) }
    ensures value { result ≡ high * 2 ^ (2 ^ (level - 1)) + low }
    ensures small { result < 2 ^ (2 ^ level) }
{
    (high << width_of(level)) | low
}

fn sum(level: u32, a: u128, b: u128) -> u128
    requires a { a < 2 ^ (2 ^ level) }
    requires b { b < 2 ^ (2 ^ level) }
    ensures value { result ≡ bit_xor a b }
    ensures small { result < 2 ^ (2 ^ level) }
{
    a ^ b
}

// The twist of the level below.
fn twist_of(level: u32) -> u128
    requires above { 0 < level }
    requires level { level ≤ 7 }
    ensures value { result ≡ twist_at (level - 1) }
    ensures small { result < 2 ^ (2 ^ (level - 1)) }
{
    if level == 1 {
        1
    } else {
        1 << width_of(level - 1)
    }
}

// The product with the level's twist, which moves the high half down.
fn twisted(level: u32, a: u128) -> u128
    requires level { level ≤ 7 }
    requires a { a < 2 ^ (2 ^ level) }
    ensures value { result ≡ product_at level (twist_at level) a }
    ensures small { result < 2 ^ (2 ^ level) }
{
    if level == 0 {
        return a;
    }
    let high = high_half(level, a);
    let below = level - 1;
    join(
        level,
        high,
        sum(below, low_half(level, a), twisted(below, high)),
    )
}

/// The product of level `level`, by three products of halves and one with the twist.
pub fn product(level: u32, a: u128, b: u128) -> u128
    requires level { level ≤ 7 }
    requires a { a < 2 ^ (2 ^ level) }
    requires b { b < 2 ^ (2 ^ level) }
    ensures value { result ≡ product_at level a b }
    ensures small { result < 2 ^ (2 ^ level) }
{
    if level == 0 {
        return a * b;
    }
    let a0 = low_half(level, a);
    let a1 = high_half(level, a);
    let b0 = low_half(level, b);
    let b1 = high_half(level, b);
    let below = level - 1;
    let lows = product(below, a0, b0);
    let highs = product(below, a1, b1);
    let whole = product(below, sum(below, a0, a1), sum(below, b0, b1));
    let crossed = sum(below, sum(below, whole, lows), highs);
    let high = sum(below, crossed, twisted(below, highs));
    join(level, sum(below, lows, highs), high)
}

/// The inverse of level `level`: the conjugate, divided by the norm. Of zero it is zero.
pub fn inverse(level: u32, a: u128) -> u128
    requires level { level ≤ 7 }
    requires a { a < 2 ^ (2 ^ level) }
    ensures value { result ≡ inverse_at level a }
    ensures small { result < 2 ^ (2 ^ level) }
{
    if level == 0 {
        return a;
    }
    let a0 = low_half(level, a);
    let a1 = high_half(level, a);
    let c = twist_of(level);
    let below = level - 1;
    let outer = sum(
        below,
        product(below, a0, a0),
        product(below, product(below, a0, a1), c),
    );
    let by = inverse(below, sum(below, outer, product(below, a1, a1)));
    let turned = sum(below, a0, product(below, a1, c));
    join(level, product(below, turned, by), product(below, a1, by))
}
