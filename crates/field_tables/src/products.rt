//! Products by halves, from level 7 down to level 3. A level takes three products of halves and one with the twist.
ghost use Rattle.std.specs.Prelude.{◌≡◌, ◌^◌, ◌%◌, ◌/◌, ◌*◌, ◌+◌};
ghost use Rattle.tower_numbers.specs.Levels.{product_at, twist_at};

use crate::tables::Tables;

fn twisted_8(tables: &Tables, a: u8) -> u8
    ensures { result ≡ product_at 3 (twist_at 3) a }
{
    tables.product(16, a)
}

fn halves_16(a: u16) -> (u8, u8)
    ensures low { result.0 ≡ a % 2 ^ (2 ^ 3) }
    ensures high { result.1 ≡ a / 2 ^ (2 ^ 3) }
{
    ((a % 256) as u8, (a / 256) as u8)
}

fn twisted_16(tables: &Tables, a: u16) -> u16
    ensures { result ≡ product_at 4 (twist_at 4) a }
{
    let (low, high) = halves_16(a);
    let above = low ^ twisted_8(tables, high);
    above as u16 * 256 + high as u16
}

// The product by its definition, since all four products come from the same four logarithms.
fn product_16(tables: &Tables, a: u16, b: u16) -> u16
    ensures { result ≡ product_at 4 a b }
{
    let (a0, a1) = halves_16(a);
    let (b0, b1) = halves_16(b);
    let low = tables.product(a0, b0) ^ tables.product(a1, b1);
    let crossed = tables.product(a0, b1) ^ tables.product(a1, b0);
    let high = crossed ^ tables.twisted_product(a1, b1);
    high as u16 * 256 + low as u16
}

fn halves_32(a: u32) -> (u16, u16)
    ensures low { result.0 ≡ a % 2 ^ (2 ^ 4) }
    ensures high { result.1 ≡ a / 2 ^ (2 ^ 4) }
{
    ((a % 65536) as u16, (a / 65536) as u16)
}

fn twisted_32(tables: &Tables, a: u32) -> u32
    ensures { result ≡ product_at 5 (twist_at 5) a }
{
    let (low, high) = halves_32(a);
    let above = low ^ twisted_16(tables, high);
    above as u32 * 65536 + high as u32
}

fn product_32(tables: &Tables, a: u32, b: u32) -> u32
    ensures { result ≡ product_at 5 a b }
{
    let (a0, a1) = halves_32(a);
    let (b0, b1) = halves_32(b);
    let lows = product_16(tables, a0, b0);
    let highs = product_16(tables, a1, b1);
    let whole = product_16(tables, a0 ^ a1, b0 ^ b1);
    let high = whole ^ lows ^ highs ^ twisted_16(tables, highs);
    let low = lows ^ highs;
    high as u32 * 65536 + low as u32
}

fn halves_64(a: u64) -> (u32, u32)
    ensures low { result.0 ≡ a % 2 ^ (2 ^ 5) }
    ensures high { result.1 ≡ a / 2 ^ (2 ^ 5) }
{
    ((a % 0x1_0000_0000) as u32, (a / 0x1_0000_0000) as u32)
}

fn twisted_64(tables: &Tables, a: u64) -> u64
    ensures { result ≡ product_at 6 (twist_at 6) a }
{
    let (low, high) = halves_64(a);
    let above = low ^ twisted_32(tables, high);
    above as u64 * 0x1_0000_0000 + high as u64
}

fn product_64(tables: &Tables, a: u64, b: u64) -> u64
    ensures { result ≡ product_at 6 a b }
{
    let (a0, a1) = halves_64(a);
    let (b0, b1) = halves_64(b);
    let lows = product_32(tables, a0, b0);
    let highs = product_32(tables, a1, b1);
    let whole = product_32(tables, a0 ^ a1, b0 ^ b1);
    let high = whole ^ lows ^ highs ^ twisted_32(tables, highs);
    let low = lows ^ highs;
    high as u64 * 0x1_0000_0000 + low as u64
}

fn halves_128(a: u128) -> (u64, u64)
    ensures low { result.0 ≡ a % 2 ^ (2 ^ 6) }
    ensures high { result.1 ≡ a / 2 ^ (2 ^ 6) }
{
    (
        (a % 0x1_0000_0000_0000_0000) as u64,
        (a / 0x1_0000_0000_0000_0000) as u64,
    )
}

fn join_128(high: u64, low: u64) -> u128
    ensures { result ≡ high * 2 ^ (2 ^ 6) + low }
{
    high as u128 * 0x1_0000_0000_0000_0000 + low as u128
}

fn twisted_128(tables: &Tables, a: u128) -> u128
    ensures { result ≡ product_at 7 (twist_at 7) a }
{
    let (low, high) = halves_128(a);
    let above = low ^ twisted_64(tables, high);
    join_128(above, high)
}

fn product_128(tables: &Tables, a: u128, b: u128) -> u128
    ensures { result ≡ product_at 7 a b }
{
    let (a0, a1) = halves_128(a);
    let (b0, b1) = halves_128(b);
    let lows = product_64(tables, a0, b0);
    let highs = product_64(tables, a1, b1);
    let whole = product_64(tables, a0 ^ a1, b0 ^ b1);
    let high = whole ^ lows ^ highs ^ twisted_64(tables, highs);
    let low = lows ^ highs;
    join_128(high, low)
}

/// The product of two elements of the field of 2^128 elements.
pub fn mul_fast(tables: &Tables, a: u128, b: u128) -> u128
    ensures { result ≡ product_at 7 a b }
{
    product_128(tables, a, b)
}
