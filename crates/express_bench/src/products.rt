//! Products of the field of 2^128 elements in a chain, so that each one waits for the one before, and the tables that
//! make them fast.
use field_tables::{Tables, mul_fast};
use tower_field::{Field, Gf128};

// Any element whose powers don't soon repeat.
const FACTOR: u128 = 0x0123_4567_89ab_cdef_fedc_ba98_7654_3210;

/// The checksum by the plain product.
pub fn plain(times: u32) -> u128 {
    let factor = Gf128(FACTOR);
    let mut product = factor;
    for _ in 0..times {
        product = product.mul(factor);
    }
    product.value()
}

/// The same checksum by tables that are made once.
pub fn by_tables(times: u32) -> u128 {
    let tables = Tables::new();
    let mut product = FACTOR;
    for _ in 0..times {
        product = mul_fast(&tables, product, FACTOR);
    }
    product
}

/// The same checksum by tables that are made for each product.
pub fn by_new_tables(times: u32) -> u128 {
    let mut product = FACTOR;
    for _ in 0..times {
        let tables = Tables::new();
        product = mul_fast(&tables, product, FACTOR);
    }
    product
}
