//! Texts of games: one that is read, and lines that are named.
use crate::joined::joined;
use crate::told::is_told;
use express_texts::{AimText, CloakGame, TextFault, read_cloak};
use std::alloc::{AllocError, Global};
use std::test::Fail;

const CLOAK: &[u8] =
    b"cloak 1 1 16 00000000000000000000000000000000000000000000000000000000000000fF\n";

const NO_VIEWER: &[u8] =
    b"cloak 1 2 16 00000000000000000000000000000000000000000000000000000000000000fF\n";

const UNEVEN: &[u8] =
    b"cloak 1 1 24 00000000000000000000000000000000000000000000000000000000000000fF\n";

const WIDE: &[u8] =
    b"cloak 1 1 32 00000000000000000000000000000000000000000000000000000000000000fF\n";

const CKEY: &[u8] = b"ckey 0100000000000000000000000000000000000000000000000000000000000000\n";

const SIGMA: &[u8] = b"sigma 0000000000000000000000000000000A\n";

const FROM: &[u8] = b"from 00000000000000000000000000000000 ffffffffffffffffffffffffffffff01\n";

const FROM_ONE: &[u8] = b"from 00000000000000000000000000000001 ffffffffffffffffffffffffffffff01\n";

const TO: &[u8] = b"to ffffffffffffffffffffffffffffffff 00000000000000000000000000000002\n";

const TO_ONE: &[u8] = b"to 00000000000000000000000000000001 ffffffffffffffffffffffffffffff01\n";

const ZERO: &[u8] = b"address 00000000000000000000000000000000\n";

const TWO: &[u8] = b"address 00000000000000000000000000000002\n";

const LAST: &[u8] = b"address ffffffffffffffffffffffffffffffff\n";

const WORKED: [&[u8]; 7] = [CLOAK, CKEY, SIGMA, FROM, TO, ZERO, LAST];

const ROWS: [&[&[u8]]; 13] = [
    &WORKED,
    &[],
    &[CLOAK, CKEY, SIGMA],
    &[CLOAK, CKEY, SIGMA, FROM, TO],
    &[NO_VIEWER, CKEY, SIGMA, FROM, TO, ZERO, LAST],
    &[UNEVEN, CKEY, SIGMA, FROM, TO, ZERO, LAST],
    &[WIDE, CKEY, SIGMA, FROM, TO, ZERO, LAST],
    &[CLOAK, CKEY, SIGMA, FROM_ONE, TO, ZERO, LAST],
    &[CLOAK, CKEY, SIGMA, FROM, TO_ONE, ZERO, LAST],
    &[CLOAK, CKEY, SIGMA, FROM, TO, TWO, LAST],
    &[CLOAK, CKEY, SIGMA, FROM, TO, ZERO, ZERO],
    &[CLOAK, CKEY, SIGMA, FROM, TO, ZERO],
    &[CLOAK, CKEY, SIGMA, FROM_ONE, TO, ZERO],
];

// Its callers learn nothing of how games are spelled, which keeps their proofs small.
fn game_in(alloc: Global, text: &[u8]) -> Result<CloakGame, TextFault> {
    read_cloak(alloc, text)
}

fn aim_told(told: &mut String, aim: &AimText) -> Result<(), AllocError> {
    write!(told, "{:x} {:?}\n", aim.address, aim.message.as_slice())
}

fn head_told(told: &mut String, game: &CloakGame) -> Result<(), AllocError> {
    write!(told, "{} {} {:x}\n", game.viewer, game.width, game.sigma)?;
    write!(told, "{:?}\n{:?}\n", game.seed, game.ckey)
}

fn aims_told(told: &mut String, game: &CloakGame) -> Result<(), AllocError> {
    aim_told(told, &game.old_aim)?;
    aim_told(told, &game.new_aim)?;
    write!(told, "{:?}\n", game.addresses.as_slice())
}

fn game_told(alloc: Global) -> Result<String, Fail> {
    let text = joined(alloc, &WORKED)?;
    let game = game_in(alloc, &text)?;
    let mut told = String::new(alloc);
    head_told(&mut told, &game)?;
    aims_told(&mut told, &game)?;
    Ok(told)
}

const GAME: &str = "1 16 a\n\
    [0, 0, 0, 0, 0, 0, 0, 0, 0, 0, 0, 0, 0, 0, 0, 0, 0, 0, 0, 0, 0, 0, 0, 0, 0, 0, 0, 0, 0, 0, 0, 255]\n\
    [1, 0, 0, 0, 0, 0, 0, 0, 0, 0, 0, 0, 0, 0, 0, 0, 0, 0, 0, 0, 0, 0, 0, 0, 0, 0, 0, 0, 0, 0, 0, 0]\n\
    0 [255, 255, 255, 255, 255, 255, 255, 255, 255, 255, 255, 255, 255, 255, 255, 1]\n\
    ffffffffffffffffffffffffffffffff [0, 0, 0, 0, 0, 0, 0, 0, 0, 0, 0, 0, 0, 0, 0, 2]\n\
    [0, 340282366920938463463374607431768211455]\n";

// Whether a row's text is read, or else the line that is named.
fn row_told(alloc: Global, row: &[&[u8]], told: &mut String) -> Result<(), AllocError> {
    let text = joined(alloc, row)?;
    match game_in(alloc, &text) {
        Ok(_) => told.push_str("read\n"),
        Err(fault) => write!(told, "{fault}\n"),
    }
}

fn rows_told(alloc: Global, rows: &[&[&[u8]]]) -> Result<String, Fail> {
    let mut told = String::new(alloc);
    for row in rows {
        row_told(alloc, row, &mut told)?;
    }
    Ok(told)
}

const NAMED: &str = "read\nbad line 1\nbad line 4\nbad line 6\nbad line 1\nbad line 1\nbad line 4\n\
    bad line 4\nbad line 5\nbad line 4\nbad line 7\nbad line 5\nbad line 4\n";

#[test]
fn a_game_and_lines_that_are_named(rt: HostRuntime) -> Result<(), Fail> {
    is_told(game_told(rt.alloc()), GAME)?;
    is_told(rows_told(rt.alloc(), &ROWS), NAMED)
}
