//! Games. The outputs are an independent program's; both views of a game are the same.
use crate::runs::{is_end, ran};
use std::alloc::Global;
use std::test::Fail;

const GAMES: [&[u8]; 2] = [
    b"cloak 1 0 16 0000000000000000000000000000000000000000000000000000000000000000\n",
    b"cloak 1 1 16 0000000000000000000000000000000000000000000000000000000000000000\n",
];

const OTHERS: &[u8] = b"ckey 0000000000000000000000000000000000000000000000000000000000000000\n\
sigma 00000000000000000000000000000000\n\
from 00000000000000000000000000000000 ffffffffffffffffffffffffffffffff\n\
to ffffffffffffffffffffffffffffffff 00000000000000000000000000000000\n\
address 00000000000000000000000000000000\n\
address ffffffffffffffffffffffffffffffff\n";

// A view's text from its last correction on, by viewer.
const TAILS: [&[u8]; 2] = [
    b"ac9818ad42a004b17fe42318492e35c3\n\
    proof 374ad8b83fe024778d4857517c5941da 0d082d737c97ba987a385155bee7079f \
    d539d874b03371d5434ee69c7621b729 6f4d794b1f0ae1ac45fb0a51281fed31 \
    75a0681908d17eaee16c2663e6a0092d 5db3a0a93446c3b0c662d37b998e718e \
    1ebc58e4fd3a1e280f5d7b1f68372701 f248a2406271f35fc094cfc913d3d273 \
    a4915cb4349763c3732785fb20b1b8c5 7e1667316c1e6ae85618cd6dfff82c1f\n\
    other 8cda3c8cc36ca71677f7abc2ac186379 3fac62101358b1ed2e0d84f883cbd42d \
    7953af749d423dbbb7e9d878bbe48b16 b9dfde61c7bde3c2a0339628adab8394\n",
    b"e8fe2087e4a816dde3714d729bd2d312\n\
    proof 8665eeb269b687c31ca11815f4b8436a ed7aee323e53c6126965e348a0290fcb \
    524f3367d5a331aac3f7a4e46687e57f 25aaf4b8c37fe291e48c9d50ded8de24 \
    0f4e0580714dff0ed6241fbeb1a0880c 686393c766e2badb577d87d2943205f9 \
    b1c20e60c6375e4580eecba560f05707 0abfd23eaada20d56b56b3d758a02013 \
    3fac62101358b1ed2e0d84f883cbd42d 92d8df8f4322869c897f2caa8c87971e\n\
    other c5027af85d91d7284ddc98986f8a93a9 a4915cb4349763c3732785fb20b1b8c5 \
    7953af749d423dbbb7e9d878bbe48b16 b9dfde61c7bde3c2a0339628adab8394\n",
];

// What is written of a game with this first line.
fn written_of(alloc: Global, first: &[u8]) -> Result<Vec<u8>, Fail> {
    let mut input = first.to_vec(alloc)?;
    input.extend_from_slice(OTHERS)?;
    let (status, written) = ran(alloc, &["cloak"], &input, &[], &[])?;
    if status != 0 {
        Err("the status isn't 0")?;
    }
    Ok(written)
}

fn is_view(view: &[u8], tail: &[u8]) -> bool {
    view.starts_with(b"root 28bd8653e56a5d40903df1a0ade0b876\npublic db") && view.ends_with(tail)
}

// Whether a text is the same view twice, with this tail, and an end.
fn is_view_twice(text: &[u8], tail: &[u8]) -> bool {
    let (old, rest) = text.split_at(4680.min(text.len()));
    let (new, end) = rest.split_at(4680.min(rest.len()));
    old == new && is_view(old, tail) && end == b"end\n".as_slice()
}

#[test]
fn shows_both_views(rt: HostRuntime) -> Result<(), Fail> {
    for (first, tail) in [(GAMES[0], TAILS[0]), (GAMES[1], TAILS[1])] {
        let written = written_of(rt.alloc(), first)?;
        assert!(rt; is_view_twice(&written, tail));
    }
    Ok(())
}

#[test]
fn names_the_line_of_a_game(rt: HostRuntime) -> Result<(), Fail> {
    let end = ran(rt.alloc(), &["cloak"], GAMES[0], &[], &[])?;
    assert!(rt; is_end(&end, 3, b"bad line 2\n"));
    Ok(())
}
