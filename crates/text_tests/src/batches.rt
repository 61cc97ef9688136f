//! Texts of batches: a worked one, lines that are bad, as many pairs as there may be, and what is printed of
//! a fault.
use crate::joined::joined;
use crate::told::is_told;
use express_texts::{MOST_PAIRS, read_batch};
use std::alloc::Global;
use std::test::Fail;

const HEADER: &[u8] = b"batch 1 00000000000000000000000000000000000000000000000000000000000000fF\n";

const PAIR: &[u8] = b"pair 00000000000000000000000000000001 0000000000000000000000000000000A \
    0000000000000000000000000000000b 000000000000000000000000000000Ff";

// How many pairs are read of a text, or else its fault.
fn count_told(alloc: Global, text: &[u8]) -> Result<String, Fail> {
    match read_batch(alloc, text) {
        Ok(pairs) => Ok(format!(in alloc; "{}\n", pairs.zero.as_slice().len())?),
        Err(fault) => Ok(format!(in alloc; "{fault}\n")?),
    }
}

fn counts_told(alloc: Global, texts: &[&[&[u8]]]) -> Result<String, Fail> {
    let mut told = String::new(alloc);
    for parts in texts {
        let text = joined(alloc, parts)?;
        let count = count_told(alloc, &text)?;
        told.push_str(count.as_str())?;
    }
    Ok(told)
}

// The seed, and the closings of both servers.
fn pairs_told(alloc: Global, text: &[u8]) -> Result<String, Fail> {
    let pairs = read_batch(alloc, text)?;
    let zero = pairs.zero.as_slice();
    let one = pairs.one.as_slice();
    Ok(format!(in alloc; "{:?}\n{zero:?}\n{one:?}\n", pairs.seed)?)
}

const PAIRS: &str =
    "[0, 0, 0, 0, 0, 0, 0, 0, 0, 0, 0, 0, 0, 0, 0, 0, 0, 0, 0, 0, 0, 0, 0, 0, 0, 0, 0, 0, 0, 0, 0, 255]\n\
    [Closing { o: 1, tau: 10 }]\n[Closing { o: 11, tau: 255 }]\n";

const TEXTS: [&[&[u8]]; 9] = [
    &[HEADER],
    &[HEADER, b"\n"],
    &[HEADER, PAIR, b"\n"],
    &[HEADER, PAIR, b" \n"],
    &[HEADER, PAIR, b"\r\n"],
    &[HEADER, PAIR, b"0\n"],
    &[HEADER, PAIR, b"\n\n"],
    &[HEADER, PAIR, b"\npair"],
    &[],
];

#[test]
fn one_pair_and_bad_lines(rt: HostRuntime) -> Result<(), Fail> {
    let text = joined(rt.alloc(), &[HEADER, PAIR])?;
    is_told(pairs_told(rt.alloc(), &text), PAIRS)?;
    let wanted =
        "0\nbad line 2\n1\nbad line 2\nbad line 2\nbad line 2\nbad line 3\nbad line 3\nbad line 1\n";
    is_told(counts_told(rt.alloc(), &TEXTS), wanted)
}

// The header and as many pairs as there may be, and these bytes behind them.
fn many_pairs(alloc: Global, end: &[u8]) -> Result<Vec<u8>, Fail> {
    let mut text = Vec::from_slice(alloc, HEADER)?;
    for _ in 0..MOST_PAIRS {
        text.extend_from_slice(PAIR)?;
        text.push(b'\n')?;
    }
    text.extend_from_slice(end)?;
    Ok(text)
}

#[test]
fn as_many_pairs_as_there_may_be(rt: HostRuntime) -> Result<(), Fail> {
    let most = many_pairs(rt.alloc(), b"")?;
    is_told(count_told(rt.alloc(), &most), "20000\n")?;
    let more = many_pairs(rt.alloc(), PAIR)?;
    is_told(count_told(rt.alloc(), &more), "bad line 20002\n")
}
