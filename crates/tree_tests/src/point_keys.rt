//! Keys, walks and write bytes against an independent program written from the protocol's description.
ghost use Rattle.std.specs.Prelude.{◌<◌};

use crate::keys::writes_keys;
use dpf_keys::*;

// A message of 32 bytes at a target. Of the public part: the words of levels 0, 64 and 127, the right bits as
// bytes, and the last correction. Then both leaves and server 0's write bytes at the target, at its
// neighbour, and where the first bit differs.
struct Case {
    target: u128,
    message: [u8; 32],
    root0: u128,
    root1: u128,
    words: [u128; 3],
    rights: u128,
    last: [u8; 32],
    leaves: [(u128, u128, u128, [u8; 32]); 3],
}

const FIRST: Case = Case {
    target: 0xf9be98667189a09e1bb5ffe3b84aef6b,
    message: *b"\x86\x6d\x62\x6b\xf4\xca\x4b\xd3\xac\x74\xe6\x56\xde\xb0\xc5\xf8\x4e\xe0\xfd\x4d\x74\xaa\xf8\xa0\x7a\xe9\x9a\xa3\x32\x01\xdc\xf3",
    root0: 0x105361a5a9caba62c2a0eba017677c48,
    root1: 0x18a0306bf0db8cc09272a062d6861928,
    words: [
        0x7f9b4d169c04e43645425a0d425ffa71,
        0xce69b6ea3352a4b51da121906fa365b5,
        0xd7bd96dd58cd9494bfb6b76ecfd49a37,
    ],
    rights: 0x6a99fd9a56ce4a8f147c7cb1ebfa3814,
    last: *b"\x53\x72\x12\x84\x19\xb5\xe1\x17\xb4\xee\xe2\x9c\xb0\x31\x8b\x7a\x81\x6a\x09\x3e\xd5\x33\xa6\xa8\x03\x6a\xd6\xdc\x28\x1e\x8f\x4b",
    leaves: [
        (
            0xf9be98667189a09e1bb5ffe3b84aef6b,
            0x4a786dae4bf1138585f9bb3f3e9ea9af,
            0xaea7c9835a35a5a803b226232789b0aa,
            *b"\xb8\xa7\xd5\xcc\x92\xd6\xf5\xdd\x5a\xb5\xa1\x01\x20\x3f\x4e\x0f\xaa\x53\xb5\xf1\x37\x0a\x23\x7a\x32\x5f\xfc\xe2\xe5\xea\x0a\x2e",
        ),
        (
            0xf9be98667189a09e1bb5ffe3b84aef6a,
            0x9f4afcc1c4525c8591bebd8008d896b3,
            0x9f4afcc1c4525c8591bebd8008d896b3,
            *b"\xc2\x88\x97\x18\x41\xb6\x27\x67\x50\x0b\xae\x03\x21\xf6\x15\x34\xa2\xea\xfe\xb5\xe8\x92\xee\x83\xed\x19\x91\x3f\x29\x48\x0c\x29",
        ),
        (
            0x79be98667189a09e1bb5ffe3b84aef6b,
            0x2f0cd7ae17968afa05c99a8c51b5d3ab,
            0x2f0cd7ae17968afa05c99a8c51b5d3ab,
            *b"\x7a\x43\x9e\x43\x92\x5f\xdc\x00\x17\xff\x2e\xaf\xf4\x55\x47\x86\x69\x31\xa7\x77\x72\x59\xa9\x1d\x3c\x1c\x1b\x19\xae\xe4\x4e\xa9",
        ),
    ],
};

const SECOND: Case = Case {
    target: 0x506573300d644702714b42e4bf6abde1,
    message: *b"\x7d\x68\x8d\xb0\xb7\x84\x07\xdd\x33\x97\x14\x74\xb6\xab\x09\xdb\x31\xdd\x93\x24\x2f\x20\x7c\x11\xcf\xc7\x56\x59\x25\xb0\xb5\x75",
    root0: 0x11d4352452a67f96ebcb9dc97cf8e910,
    root1: 0x09cb62c7ae82ed0a71df3ecbe1939f7a,
    words: [
        0x69ba7b6ff7f139ec26656c892dda23c9,
        0x9559c51eb6118ec1c1022c689bff69e4,
        0x6b19c4cae7751618a2eff351de1af9aa,
    ],
    rights: 0x47300f6356da58c54764c407de58c33c,
    last: *b"\x83\xaf\x8f\x45\x86\xd5\xfe\xde\x58\x0d\x00\xf8\x98\x86\x53\x60\xfe\x59\x73\x0f\x51\xa0\x49\x16\x1b\x85\x03\xdf\x28\x94\x0c\x65",
    leaves: [
        (
            0x506573300d644702714b42e4bf6abde1,
            0x47bede474beae4106ee5048c873622c7,
            0xa0b0f51394510d7a4886039438bd8990,
            *b"\xd9\x03\x11\x36\x34\xcb\x06\x76\x9d\xe4\x85\x26\xe8\x56\x59\x22\xf7\x85\x43\xf2\x5f\x3e\xaf\xb0\xde\xce\xa7\x94\x2f\x9d\x56\x01",
        ),
        (
            0x506573300d644702714b42e4bf6abde0,
            0x2b3bdbeb0213d3bcd4bb08e1ed0d277a,
            0x2b3bdbeb0213d3bcd4bb08e1ed0d277a,
            *b"\x26\x14\x3c\xcb\x37\x8d\x38\x2d\xa2\x70\x7d\xbb\xc3\xad\x79\xf8\x17\x1b\xc9\x99\x37\x72\x68\xf3\xad\xbe\xc8\x84\xc1\xc6\x37\xf4",
        ),
        (
            0xd06573300d644702714b42e4bf6abde1,
            0x125f820c3744a08b2b6ffcd9e2f34ece,
            0x125f820c3744a08b2b6ffcd9e2f34ece,
            *b"\x4a\xf4\xaa\x79\x0c\x28\x57\x36\xa5\x36\x65\x54\xd5\x3e\xf2\xae\xec\x23\xb7\x55\xb3\x2c\x85\xd1\xb4\xe7\x3f\x20\x6e\x69\x14\x33",
        ),
    ],
};

fn has_words(part: &PublicPart, words: [u128; 3]) -> bool {
    part.word(0) == words[0] && part.word(64) == words[1] && part.word(127) == words[2]
}

fn has_rights(part: &PublicPart, rights: u128) -> bool {
    let mut same = true;
    for level in 0..128 {
        same = same && part.right(level) == ((rights >> level) % 2 == 1);
    }
    same
}

fn has_last(part: &PublicPart, last: &[u8; 32]) -> bool {
    part.last() == last.as_slice()
}

fn has_leaf(part: &PublicPart, server: u8, root: u128, address: u128, leaf: u128) -> bool
    requires { server < 2 }
{
    walk(part, server, root, address) == leaf
}

fn writes(part: &PublicPart, leaf: u128, bytes: &[u8; 32]) -> bool {
    let mut out = [0u8; 32];
    if part.last().len() != 32 {
        return false;
    }
    output_into(part, leaf, &mut out);
    out == *bytes
}

fn has_leaves(part: &PublicPart, case: &Case) -> bool {
    let mut same = true;
    for (address, leaf0, leaf1, bytes) in &case.leaves {
        same = has_leaf(part, 0, case.root0, *address, *leaf0) & same;
        same = has_leaf(part, 1, case.root1, *address, *leaf1) & same;
        same = writes(part, *leaf0, bytes) & same;
    }
    same
}

// What is as the case has it: the words, the right bits, the last correction, and the leaves with their bytes.
fn told(part: &PublicPart, case: &Case) -> [bool; 4] {
    [
        has_words(part, case.words),
        has_rights(part, case.rights),
        has_last(part, &case.last),
        has_leaves(part, case),
    ]
}

fn is_case(case: &Case) -> bool {
    let mut public = [0u8; 2096];
    let roots = [case.root0, case.root1];
    let is_written = writes_keys(case.target, &case.message, roots, &mut public);
    match PublicPart::of(&public) {
        Some(part) => is_written && told(&part, case) == [true; 4],
        None => false,
    }
}

fn is_part(public: &[u8]) -> bool {
    PublicPart::of(public).is_some()
}

#[test]
fn leaves_and_write_bytes_match_an_independent_program(rt: HostRuntime) {
    let told = [is_case(&FIRST), is_case(&SECOND), !is_part(&[0; 2079])];
    assert!(rt; told == [true; 3]);
}
