//! Blocks of one stream, and challenges of one key: one by one and eight at once.
use crate::sums::{sum, total};
use chacha_expand::{block_into, challenge, challenge8};
use dpf_rules::read_number;

// Any eight different addresses.
const ADDRESSES: [u128; 8] = [
    0x00112233445566778899aabbccddeeff,
    0x0123456789abcdeffedcba9876543210,
    1,
    2,
    3,
    1 << 64,
    1 << 127,
    u128::MAX,
];

const CKEY: [u8; 32] = [0x5a; 32];

/// Sixteen blocks of a state, which begin with the next state.
pub fn blocks(times: u32) -> u128 {
    let mut state = ADDRESSES[0];
    let mut block = [0u8; 1024];
    for _ in 0..times {
        block_into(state, &mut block);
        state = read_number(&block[1008..]);
    }
    state
}

/// The sums of both challenges at eight addresses are the next addresses.
pub fn one_by_one(times: u32) -> u128 {
    let mut addresses = ADDRESSES;
    for _ in 0..times {
        let [a0, a1, a2, a3, a4, a5, a6, a7] = addresses;
        addresses = [
            sum(challenge(&CKEY, a0)),
            sum(challenge(&CKEY, a1)),
            sum(challenge(&CKEY, a2)),
            sum(challenge(&CKEY, a3)),
            sum(challenge(&CKEY, a4)),
            sum(challenge(&CKEY, a5)),
            sum(challenge(&CKEY, a6)),
            sum(challenge(&CKEY, a7)),
        ];
    }
    total(&addresses)
}

/// The same checksum by `challenge8`.
pub fn eight_at_once(times: u32) -> u128 {
    let mut addresses = ADDRESSES;
    for _ in 0..times {
        let [p0, p1, p2, p3, p4, p5, p6, p7] = challenge8(&CKEY, &addresses);
        addresses = [
            sum(p0),
            sum(p1),
            sum(p2),
            sum(p3),
            sum(p4),
            sum(p5),
            sum(p6),
            sum(p7),
        ];
    }
    total(&addresses)
}
