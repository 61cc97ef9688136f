//! Both views of one game, by an independent program written from the protocol's description. The choice is
//! drawn from a seed of zeros.
ghost use Rattle.std.specs.Prelude.{◌+◌, ◌≤◌, length};

use chacha_expand::{choices, draw32};
use dpf_rules::read_number;
use express_words::{Closing, List, NoMemory, Openings, ProofShare};
use std::alloc::Global;
use std::test::Fail;
use write_hiding::*;

// The game's two addresses: all zeros, and all ones.
const ADDRESSES: [u128; 2] = [0, 0xffffffffffffffffffffffffffffffff];

const GAME: Game = Game {
    addresses: &ADDRESSES,
    ckey: [0; 32],
    sigma: 0,
};

const FIRST: Aim = Aim {
    target: ADDRESSES[0],
    message: &[0xff; 16],
};

const SECOND: Aim = Aim {
    target: ADDRESSES[1],
    message: &[0; 16],
};

// Of a view: the words of levels 0, 64 and 127, the right bits as bytes, the last correction, the share, and
// what the other server opens and closes.
struct Seen {
    words: [u128; 3],
    rights: u128,
    last: [u8; 16],
    proof: ProofShare,
    opened: Openings,
    closed: Closing,
}

// By viewer.
const SEEN: [Seen; 2] = [
    Seen {
        words: [
            0x58df96b767756b7d58fdcde28600fddb,
            0x79b77d624cd42d43ff84bb6ad6a68c8e,
            0x8d8533db58c98963537f2cab468803dd,
        ],
        rights: 0xb07f79b868f406aeb7d998c79d92c981,
        last: *b"\xac\x98\x18\xad\x42\xa0\x04\xb1\x7f\xe4\x23\x18\x49\x2e\x35\xc3",
        proof: ProofShare {
            u: 0x374ad8b83fe024778d4857517c5941da,
            v: 0x0d082d737c97ba987a385155bee7079f,
            h: [
                0xd539d874b03371d5434ee69c7621b729,
                0x6f4d794b1f0ae1ac45fb0a51281fed31,
                0x75a0681908d17eaee16c2663e6a0092d,
                0x5db3a0a93446c3b0c662d37b998e718e,
                0x1ebc58e4fd3a1e280f5d7b1f68372701,
            ],
            a: 0xf248a2406271f35fc094cfc913d3d273,
            b: 0xa4915cb4349763c3732785fb20b1b8c5,
            c: 0x7e1667316c1e6ae85618cd6dfff82c1f,
        },
        opened: Openings {
            d: 0x8cda3c8cc36ca71677f7abc2ac186379,
            e: 0x3fac62101358b1ed2e0d84f883cbd42d,
        },
        closed: Closing {
            o: 0x7953af749d423dbbb7e9d878bbe48b16,
            tau: 0xb9dfde61c7bde3c2a0339628adab8394,
        },
    },
    Seen {
        words: [
            0x58df96b767756b7d58fdcde28600fddb,
            0x25930ef681e61395b9b938d234a322e6,
            0x5083f5bcc13eacdb843592ba22bb085f,
        ],
        rights: 0x839117e2b5a4d6094878369c1790b405,
        last: *b"\xe8\xfe\x20\x87\xe4\xa8\x16\xdd\xe3\x71\x4d\x72\x9b\xd2\xd3\x12",
        proof: ProofShare {
            u: 0x8665eeb269b687c31ca11815f4b8436a,
            v: 0xed7aee323e53c6126965e348a0290fcb,
            h: [
                0x524f3367d5a331aac3f7a4e46687e57f,
                0x25aaf4b8c37fe291e48c9d50ded8de24,
                0x0f4e0580714dff0ed6241fbeb1a0880c,
                0x686393c766e2badb577d87d2943205f9,
                0xb1c20e60c6375e4580eecba560f05707,
            ],
            a: 0x0abfd23eaada20d56b56b3d758a02013,
            b: 0x3fac62101358b1ed2e0d84f883cbd42d,
            c: 0x92d8df8f4322869c897f2caa8c87971e,
        },
        opened: Openings {
            d: 0xc5027af85d91d7284ddc98986f8a93a9,
            e: 0xa4915cb4349763c3732785fb20b1b8c5,
        },
        closed: Closing {
            o: 0x7953af749d423dbbb7e9d878bbe48b16,
            tau: 0xb9dfde61c7bde3c2a0339628adab8394,
        },
    },
];

const SEED: [u8; 32] = [0; 32];

fn drawn_words() -> [u128; 16] {
    choices(&SEED, 0)
}

fn drawn_level(index: u64) -> (u128, u128) {
    let draw = draw32(&SEED, index);
    (read_number(&draw[..16]), read_number(&draw[16..]))
}

// A pair for each level of the tree, from draw 1 on.
fn drawn_levels(alloc: Global) -> Result<List<(u128, u128)>, NoMemory> {
    let mut levels = Vec::new(alloc);
    for index in 1..129u64 {
        levels.push(drawn_level(index))?;
    }
    Ok(List::from_vec(levels))
}

fn drawn_block(alloc: Global) -> Result<List<u8>, NoMemory> {
    let draw = draw32(&SEED, 129);
    Ok(List::from_vec(Vec::from_slice(alloc, &draw[..16])?))
}

// The choice that a seed of zeros gives a viewer, for messages of 16 bytes.
fn drawn_choice(alloc: Global, viewer: u8) -> Result<IdealChoice, NoMemory> {
    let [
        own_root,
        other_root,
        u0,
        u1,
        v0,
        v1,
        h0,
        h1,
        h2,
        h3,
        h4,
        a0,
        a1,
        b0,
        b1,
        c0,
    ] = drawn_words();
    let levels = drawn_levels(alloc)?;
    let last_block = drawn_block(alloc)?;
    Ok(IdealChoice {
        viewer,
        own_root,
        other_root,
        levels,
        last_block,
        words: [u0, u1, v0, v1, h0, h1, h2, h3, h4, a0, a1, b0, b1, c0],
    })
}

fn number_at(bytes: &[u8], at: usize) -> u128
    requires { at + 16 ≤ length bytes.now }
{
    read_number(&bytes[at..at + 16])
}

fn is_public(public: &[u8], want: &Seen) -> bool {
    public.len() == 2080
        && number_at(public, 0) == want.words[0]
        && number_at(public, 1024) == want.words[1]
        && number_at(public, 2032) == want.words[2]
        && number_at(public, 2048) == want.rights
        && public[2064..2080] == want.last[..]
}

// Whether a view is the one that is wanted.
fn is_seen(view: &View, want: &Seen) -> bool {
    view.own_root == 0x28bd8653e56a5d40903df1a0ade0b876
        && is_public(view.public.as_slice(), want)
        && view.proof == want.proof
        && view.opened == want.opened
        && view.closed == want.closed
}

// Whether the choice is one for messages of 16 bytes, and gives this view of the write.
fn sees(alloc: Global, choice: &IdealChoice, aim: &Aim, want: &Seen) -> Result<bool, NoMemory> {
    if choice.viewer > 1 || choice.levels.as_slice().len() != 128 {
        return Ok(false);
    }
    if choice.last_block.as_slice().len() != 16 || aim.message.len() != 16 {
        return Ok(false);
    }
    let seen = view(alloc, choice, aim, &GAME)?;
    Ok(is_seen(&seen, want))
}

// The choice that gives the same view of the second write, where this one is one for messages of 16 bytes.
fn moved_choice(alloc: Global, choice: &IdealChoice) -> Result<IdealChoice, Fail> {
    if choice.viewer > 1 || choice.levels.as_slice().len() != 128 {
        Err("levels")?;
    }
    if choice.last_block.as_slice().len() != 16 {
        Err("last block")?;
    }
    Ok(moved(alloc, choice, &FIRST, &SECOND, &GAME)?)
}

#[test]
fn both_writes_look_alike(rt: HostRuntime) -> Result<(), Fail> {
    for viewer in 0..2u8 {
        let want = &SEEN[viewer as usize];
        let choice = drawn_choice(rt.alloc(), viewer)?;
        assert!(rt; choice.viewer == viewer && sees(rt.alloc(), &choice, &FIRST, want)?);
        let gone = moved_choice(rt.alloc(), &choice)?;
        assert!(rt; gone.viewer == viewer && sees(rt.alloc(), &gone, &SECOND, want)?);
    }
    Ok(())
}
