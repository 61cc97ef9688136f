//! Eight nodes of a point function's tree, each expanded to the sum of its children, many times over.
use crate::sums::{sum, total};
use chacha_expand::{children, children8};

// Any eight different states.
const STATES: [u128; 8] = [
    0x00112233445566778899aabbccddeeff,
    0x0123456789abcdeffedcba9876543210,
    1,
    2,
    3,
    1 << 64,
    1 << 127,
    u128::MAX,
];

/// The checksum by `children`.
pub fn one_by_one(times: u32) -> u128 {
    let mut states = STATES;
    for _ in 0..times {
        let [s0, s1, s2, s3, s4, s5, s6, s7] = states;
        states = [
            sum(children(s0)),
            sum(children(s1)),
            sum(children(s2)),
            sum(children(s3)),
            sum(children(s4)),
            sum(children(s5)),
            sum(children(s6)),
            sum(children(s7)),
        ];
    }
    total(&states)
}

/// The same checksum by `children8`.
pub fn eight_at_once(times: u32) -> u128 {
    let mut states = STATES;
    for _ in 0..times {
        let [p0, p1, p2, p3, p4, p5, p6, p7] = children8(&states);
        states = [
            sum(p0),
            sum(p1),
            sum(p2),
            sum(p3),
            sum(p4),
            sum(p5),
            sum(p6),
            sum(p7),
        ];
    }
    total(&states)
}
