//! The calls against RFC 8439's block of zeros and against an independent program written from the protocol's
//! description.
ghost use Rattle.std.specs.Prelude.{◌≤◌, length};

use chacha_expand::*;

const ZEROS: [u8; 32] = [0; 32];

// Bytes 0 to 31 of the block of a key of zeros at counter 0 and nonce 0 (RFC 8439, appendix A.1, test vector
// 1), as bytes and as two numbers.
const ZERO_BLOCK: [u8; 32] =
    *b"\x76\xb8\xe0\xad\xa0\xf1\x3d\x90\x40\x5d\x6a\xe5\x53\x86\xbd\x28\xbd\xd2\x19\xb8\xa0\x8d\xed\x1a\xa8\x36\xef\xcc\x8b\x77\x0d\xc7";

const ZERO_PAIR: (u128, u128) = (
    0x28bd8653e56a5d40903df1a0ade0b876,
    0xc70d778bccef36a81aed8da0b819d2bd,
);

const STATES: [u128; 8] = [
    0x855a777d484fc8789311ece17c0ad3c5,
    0xf9be98667189a09e1bb5ffe3b84aef6b,
    0x1fe8ca4591d743b35670a784477c34fe,
    0xe2d5c64908c6aedd4f7c2811b1fb229c,
    0xa5c449e0b702feecfd1dd79668b05bea,
    0x506573300d644702714b42e4bf6abde1,
    0xf077a7fe01464c8eda28671ce34a53ac,
    0x9842059055e2ae8a1fc3f96286c923a3,
];

const CHILDREN: [(u128, u128); 8] = [
    (
        0x313630909de3f870dffa8b88bcfa15d5,
        0xcaedde88f6b3f640e6640b08a4f4b50b,
    ),
    (
        0x3a6500a022f58a093a6f4a187b0f7b80,
        0x9c49c84e1cdb9c36a1c61c541ecbc781,
    ),
    (
        0xd419acdf4e1136889225b3af6ef06844,
        0xb42c775ac40c517048f3cf3da0ad6b1f,
    ),
    (
        0xac99342ede2a39a70d16f21b355ce078,
        0x6619346430b7d4eead62da8bb7760818,
    ),
    (
        0x605b4becd5b0b0574f4e0c28374b5903,
        0x256deac9be7974b5e21e2ddf949fe152,
    ),
    (
        0xa28eb014e60e9e24299e55e9ae6f8d95,
        0xc57f28e03c6d90a3ca8fe60d6058bb3f,
    ),
    (
        0x10c62a78b482959a09f49ccfe77eb89c,
        0xc676ad86bf4245dabff56a56dd5f0708,
    ),
    (
        0xee70546b4da5d47b0207b7b90901feeb,
        0x5a81733116a1b3a03f29d704d189f401,
    ),
];

// Whoever calls one of these learns nothing of a contract, which keeps the proofs small.

fn has_children(state: u128, pair: (u128, u128)) -> bool {
    children(state) == pair
}

fn children_of(state: u128) -> (u128, u128) {
    children(state)
}

fn have_children(states: &[u128; 8], pairs: &[(u128, u128); 8]) -> bool {
    children8(states) == *pairs
}

fn fill_block(state: u128, out: &mut [u8])
    requires { length out.old ≤ 4096 }
{
    block_into(state, out);
}

fn has_draw(seed: &[u8; 32], index: u64, draw: &[u8; 32]) -> bool {
    draw32(seed, index) == *draw
}

fn has_keys(seed: &[u8; 32], serial: u32, zero: &[u8; 32], one: &[u8; 32]) -> bool {
    let keys = owner_keys(seed, serial);
    keys.0 == *zero && keys.1 == *one
}

fn has_choices(seed: &[u8; 32], serial: u32, words: &[u128; 16]) -> bool {
    choices(seed, serial) == *words
}

fn is_challenge(ckey: &[u8; 32], address: u128, pair: (u128, u128)) -> bool {
    challenge(ckey, address) == pair
}

fn are_challenges(ckey: &[u8; 32], addresses: &[u128; 8], pairs: &[(u128, u128); 8]) -> bool {
    challenge8(ckey, addresses) == *pairs
}

fn is_token(key: &[u8; 32], lane: u16, serial: u32, wanted: u128) -> bool {
    token(key, lane, serial) == wanted
}

fn mask_over(key: &[u8; 32], lane: u16, serial: u32, out: &mut [u8])
    requires { length out.old ≤ 4096 }
{
    mask_into(key, lane, serial, out);
}

#[test]
fn children_match_an_independent_program(rt: HostRuntime) {
    let mut same = has_children(0, ZERO_PAIR) & has_children(1, ZERO_PAIR);
    for i in 0..8 {
        same = has_children(STATES[i], CHILDREN[i]) & same;
    }
    assert!(rt; same);
}

const BLOCK: [u8; 128] =
    *b"\x35\x4d\xfa\xa3\x84\x34\x2a\x11\x64\xc8\xe4\x36\x6e\x1a\x75\x8f\x1a\x7a\x6c\x12\x7e\x82\xbf\x4f\x2a\x25\x21\x9e\x8d\xcf\xc4\xfa\x8b\x81\x6d\x03\xb1\xe6\x4c\x00\x10\xd2\x31\x49\x9b\xd0\xef\x50\xf5\xdb\xcf\xf1\x45\x5e\x56\xaa\xd2\xb8\xbc\x8d\x00\x45\x9c\x38\xaa\x17\x01\x15\xc8\x92\xbd\xea\x86\xe0\x71\x3a\xef\x60\xa5\x35\xce\x85\xe2\x5e\xfd\xd5\x98\xdf\x15\x5d\xa5\x6c\x7b\x1b\xcb\x10\x34\xd4\x4b\x7e\xa3\x84\xc0\x04\x9f\x28\x38\x72\x5e\xf8\xae\x54\xfc\x3d\xa9\xe0\xa6\x47\xc2\x76\xc5\xd8\x90\xda\x7f\x31\xe3\x64";

fn is_block(block: &[u8; 128], wanted: &[u8; 128]) -> bool {
    *block == *wanted
}

#[test]
fn a_block_matches_an_independent_program(rt: HostRuntime) {
    let mut block = [0u8; 128];
    fill_block(0x9842059055e2ae8a1fc3f96286c923a3, &mut block);
    assert!(rt; is_block(&block, &BLOCK));
}

// Equal states, all zeros, all ones, and eight that differ.
#[test]
fn eight_nodes_at_once_have_the_children_of_each(rt: HostRuntime) {
    let told = [
        have_children(&[0; 8], &[ZERO_PAIR; 8]),
        have_children(&[u128::MAX; 8], &[children_of(u128::MAX); 8]),
        have_children(&[STATES[0]; 8], &[CHILDREN[0]; 8]),
        have_children(&STATES, &CHILDREN),
    ];
    assert!(rt; told == [true; 4]);
}

// One lane differs from the others, each in turn.
#[test]
fn a_lane_that_differs_changes_its_own_children_alone(rt: HostRuntime) {
    for lane in 0..8 {
        let mut states = [STATES[0]; 8];
        states[lane] = STATES[1];
        let mut expected = [CHILDREN[0]; 8];
        expected[lane] = CHILDREN[1];
        assert!(rt; have_children(&states, &expected));
    }
}

#[test]
fn draws_match_an_independent_program(rt: HostRuntime) {
    assert!(rt; has_draw(&ZEROS, 0, &ZERO_BLOCK));
    let seed =
        b"\x60\x03\xbc\x0b\xd8\xe8\x91\x8c\x0c\x63\xb0\x39\x99\x53\xfb\x88\x9c\x8f\xf3\x69\x12\xc2\x8a\x70\xe2\x4f\x0a\xbb\x27\x5e\x49\x62";
    let draw =
        b"\x21\x3b\xf4\xd2\xca\x64\x61\xfb\x24\xf5\x17\xac\xf9\x75\xbb\x79\xbb\x37\xee\xa3\xec\x4b\xea\x5a\x4f\xbc\xcd\xef\xe9\xb6\xf1\xa4";
    assert!(rt; has_draw(seed, 17443390952395400492, draw));
}

#[test]
fn keys_and_choices_match_an_independent_program(rt: HostRuntime) {
    let seed =
        b"\x72\x94\x25\xfa\xc4\xf0\xc3\xa2\xc6\x98\xb8\xbe\x2a\xbe\xd7\x8d\x52\x10\x7a\x5a\x4b\x11\x05\x7f\xbe\x78\xf9\x33\xf0\xd1\xe6\x41";
    let zero =
        b"\x1f\x01\xa1\x05\x9c\x57\x9b\x55\x9c\xb8\x5c\x86\xe6\xed\x99\x1d\x21\x57\xb9\x8d\x57\xb1\x96\xa2\xe2\x5f\xe3\x8a\xfd\x3a\x03\x11";
    let one =
        b"\xf2\xd5\x8d\x2e\xfe\x00\x14\xf6\xa4\x78\x1d\xe2\xc5\x2e\x4a\xc3\xc3\xed\x78\x7f\xec\x09\x3a\x68\x3e\x69\xe5\x4c\x1a\x7a\xcd\x58";
    assert!(rt; has_keys(seed, 853883046, zero, one));
    let seed =
        b"\x24\x9a\xf7\x10\xec\x31\x8e\x91\x14\x91\xd1\x2c\x0a\x05\x80\xde\x5a\x68\x81\xcd\x27\xc8\x32\xb3\xe9\x3d\x7a\xfd\x85\x5f\x8d\x62";
    let words = [
        0x3c2722b5bedf04d5c7c5c92446e98ce3,
        0xc6044c315fdf6090aaa6cb481380c2bc,
        0x8577daf1471f72cc983473a8ea118426,
        0x74d8383776cf8165f3a1337e46ed81cc,
        0x320c6c77bc9c371ba9a861ea4a8db32b,
        0x16497f2054256d5a7a68274c318b2ad3,
        0x19f3d3c7d99fb96533d6defed1d75953,
        0xa1742f84f67b7aedf9f2ff6ec95fb57f,
        0x11bee691b42d92b74630ceb8934d7484,
        0x908c456f2b8e687b305995edfab9d27a,
        0xd13ba3c9b7cddc5391c1ac2e587272cb,
        0x34e706369e2d0f7cf8af65cce2adc613,
        0x0fa9dad2e9eb7263009ae8db758dfca2,
        0xfa57ec6ace8f28adb254bdf965ab7e54,
        0x263a0c1d70b1c698d28c47c09712aec7,
        0x026b69d6ae1eb22a96dc381861669cfb,
    ];
    assert!(rt; has_choices(seed, 853883046, &words));
}

#[test]
fn challenges_match_an_independent_program(rt: HostRuntime) {
    assert!(rt; is_challenge(&ZEROS, 0, ZERO_PAIR));
    let ckey =
        b"\xe6\x1f\x10\x02\xd0\x68\xa0\x32\x8b\x71\xda\x43\xe6\x74\xec\xd7\xcd\x84\x55\x2b\x00\xdd\xd3\x01\xbd\x1d\x15\x3d\x0c\x80\x9d\xdc";
    let pair = (
        0x8821f7efc0081078ecdb156415161980,
        0x98bec89ced31ab932fb442465a9f64d6,
    );
    assert!(rt; is_challenge(ckey, 0x3ef5615c9c144550d7c820396a443a32, pair));
    let ckey =
        b"\x48\x7c\x67\x17\xa0\xeb\xa0\xc2\x62\xba\xca\xa9\xa5\x61\x53\x10\x82\x71\x54\x23\x18\x0f\xd7\x4a\x0a\xe0\x91\xad\xc4\xd4\x24\xca";
    let pair = (
        0x415863df2109d7cb82fa7aa81a8cdc32,
        0xdfa9e9d3a07a8a0bbeda593891b46b17,
    );
    assert!(rt; is_challenge(ckey, 0x18a0306bf0db8cc09272a062d6861928, pair));
}

fn has_at(block: &[u8], at: usize, bytes: &[u8; 16]) -> bool {
    let end = at.saturating_add(16);
    end <= block.len() && block[at..end] == bytes[..]
}

// Two runs of eight blocks, and five blocks more: the bytes at the ends of each.
#[test]
fn many_blocks_are_right_at_the_ends_of_their_runs(rt: HostRuntime) {
    let first = b"\xcc\x28\x83\xd2\xbe\x09\xbb\xb3\x9a\x85\xc4\x2a\xc0\x29\xbd\x02";
    let second = b"\xe8\x99\x93\xca\x47\x14\x08\x29\x91\xe8\xab\x5f\x53\xbd\x9d\xc3";
    let last = b"\xfb\xfe\xa0\x00\xd8\x6a\xcf\xf4\x29\x4b\x08\x90\x75\x04\x49\xdd";
    let mut block = [0u8; 1360];
    fill_block(STATES[7], &mut block);
    let told = [
        has_at(&block, 504, first),
        has_at(&block, 1016, second),
        has_at(&block, 1344, last),
    ];
    assert!(rt; told == [true; 3]);
}

#[test]
fn two_whole_runs_of_blocks_are_right_at_their_ends(rt: HostRuntime) {
    let first = b"\xcc\x28\x83\xd2\xbe\x09\xbb\xb3\x9a\x85\xc4\x2a\xc0\x29\xbd\x02";
    let second = b"\x14\xb8\x96\x12\xda\x5d\xd3\xdd\xe8\x99\x93\xca\x47\x14\x08\x29";
    let mut block = [0u8; 1024];
    fill_block(STATES[7], &mut block);
    let told = [has_at(&block, 504, first), has_at(&block, 1008, second)];
    assert!(rt; told == [true; 2]);
}

#[test]
fn eight_challenges_at_once_match_an_independent_program(rt: HostRuntime) {
    let ckey =
        b"\xe6\x1f\x10\x02\xd0\x68\xa0\x32\x8b\x71\xda\x43\xe6\x74\xec\xd7\xcd\x84\x55\x2b\x00\xdd\xd3\x01\xbd\x1d\x15\x3d\x0c\x80\x9d\xdc";
    let addresses = [
        0x3ef5615c9c144550d7c820396a443a32,
        0x00000000000000000000000000000000,
        0x00000000000000000000000000000001,
        0x00000000000000010000000000000000,
        0xffffffffffffffffffffffffffffffff,
        0x0000000000000000ffffffffffffffff,
        0x5bc8fbbcbde5c0994164d8399f767c45,
        0xd76d4330f1446beab0c11fdecb91ce37,
    ];
    let expected = [
        (
            0x8821f7efc0081078ecdb156415161980,
            0x98bec89ced31ab932fb442465a9f64d6,
        ),
        (
            0x07eeadd6f79526029b493e78ecb7b871,
            0x1ecc4f750736dfeb9aeebc2820779509,
        ),
        (
            0x063cd8204b6fa4f98ecd84c6cdef727f,
            0x863f69b66a334327bbc9e61cfdb14238,
        ),
        (
            0x7f0e3e4e9ea77e9c41c69a52f9f3dfe6,
            0x90f595d75b4d0f284df114827da3f9eb,
        ),
        (
            0xaee7f50c9941156d7e6fd5415f1dc6f9,
            0x78f65a8907fc77425ca4e06d5126bee3,
        ),
        (
            0x3b5810a396b91e595aca6ec044912ba5,
            0x8ad9ef45f26e3653b998ea645531b466,
        ),
        (
            0xae1acba9b39aa836ab37c30db734638e,
            0x8828e44ada14f574d8d63c7e833cded1,
        ),
        (
            0x49d573d79938eeeb1b644b1135801ba7,
            0x4ee3be1f2c07709f828667dcb84f459a,
        ),
    ];
    assert!(rt; are_challenges(ckey, &addresses, &expected));
    assert!(rt; are_challenges(&ZEROS, &[0; 8], &[ZERO_PAIR; 8]));
}

#[test]
fn tokens_and_masks_match_an_independent_program(rt: HostRuntime) {
    assert!(rt; is_token(&ZEROS, 0, 0, ZERO_PAIR.0));
    let mut out = [0u8; 16];
    mask_over(&ZEROS, 0, 0, &mut out);
    assert!(rt; out[..] == ZERO_BLOCK[16..]);
    let key =
        b"\x44\x28\x23\xa2\xcb\x4e\x7d\xf5\xc6\x4f\xe2\x80\x81\xb9\xcb\x6a\xbc\x68\x81\xe0\x80\x93\x13\x0a\x70\x02\xa5\xda\x9b\x39\xd0\x80";
    assert!(rt; is_token(key, 16765, 12279281, 0xf2eb51b50d9c58bfd504796f13a12b42));
    let mut out =
        *b"\x6c\x64\x81\xb7\x7f\x0d\x08\x2a\xfa\x9d\x31\x61\xf9\x6d\x66\x52\x8f\xdd\xed\x4b\x2c\x8a\xc0\x4c\x43\xc4\xdd\xe1\x48\x44\xaa\x6b\xed\x37\x2e\x79\x73\xe2\x2d\x4e\x9f\x45\xb9\x6d\xe0\x34\xdd\x1b\x79\x4d\xd0\x9d\x99\xc7\x78\xa6\xa8\xe4\x7d\xfa\xb6\xc5\x35\x1d\x5b\xa8\x9b\x1a\x48\x3f\xee\x4e\x75\xe8\xba\x2f\xc1\x0a\x5a\x5b\xb5\x3b\xcf\xda\xd5\x6d\x33\x5f\x32\x03\x78\x70\x18\x3d\xcd\x09\x30\x15\xcc\x9a\x33\x05\xab\x41\x76\x01\x00\xde\x7f\x69\xc9\xc9\x6a\xd5\x84\xb3\xeb\xd7\xb1\xec\xbe\xea\x28\x2a\xc0\x25\x9b\xdc";
    mask_over(key, 16765, 12279281, &mut out);
    assert!(rt; is_block(&out, &[0; 128]));
}
