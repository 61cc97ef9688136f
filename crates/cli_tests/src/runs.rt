//! The top call over objects in memory.
ghost use Rattle.express_words.specs.Seen.{silent};

use crate::cases::{CASES, Case, SMALLEST};
use express_cli::run;
use express_words::outside::{Counted, Failed, MemoryNet, MemorySink, MemorySource, Source};
use std::alloc::{AllocError, Global};
use std::test::Fail;

fn add_text(alloc: Global, texts: &mut Vec<String>, word: &str) -> Result<(), AllocError> {
    Ok(texts.push(String::from_str(alloc, word)?)?)
}

fn texts(alloc: Global, words: &[&str]) -> Result<Vec<String>, AllocError> {
    let mut texts = Vec::new(alloc);
    for word in words {
        add_text(alloc, &mut texts, word)?;
    }
    Ok(texts)
}

// The call's own status. Its callers learn nothing of what it promises, which keeps their proofs small.
fn answer<S: Source>(
    alloc: Global,
    words: &Vec<String>,
    seed: &[u8; 32],
    input: &mut S,
    out: &mut MemorySink,
    net: &mut MemoryNet,
) -> u8 {
    run(alloc, words, seed, input, out, net)
}

// The status of a run over a net with no connections.
fn status_of<S: Source>(
    alloc: Global,
    words: &[&str],
    input: &mut S,
    out: &mut MemorySink,
) -> Result<u8, Fail> {
    let words = texts(alloc, words)?;
    let mut net = MemoryNet::new(alloc, Vec::new(alloc), 0, 0, &[])?;
    Ok(answer(alloc, &words, &[0; 32], input, out, &mut net))
}

// The status of a run over a source, and the bytes written. The puts with these numbers fail.
fn ran_over<S: Source>(
    alloc: Global,
    words: &[&str],
    input: &mut S,
    bad_puts: &[u64],
) -> Result<(u8, Vec<u8>), Fail> {
    let mut out = MemorySink::new(alloc, 10_000, bad_puts)?;
    let status = status_of(alloc, words, input, &mut out)?;
    Ok((status, out.written().to_vec(alloc)?))
}

// The status of a run over an input, and the bytes written. The calls with these numbers fail.
pub(crate) fn ran(
    alloc: Global,
    words: &[&str],
    input: &[u8],
    bad_takes: &[u64],
    bad_puts: &[u64],
) -> Result<(u8, Vec<u8>), Fail> {
    let mut input = MemorySource::new(alloc, input, bad_takes)?;
    ran_over(alloc, words, &mut input, bad_puts)
}

// Whether a run had this status and wrote this.
pub(crate) fn is_end(ran: &(u8, Vec<u8>), status: u8, written: &[u8]) -> bool {
    ran.0 == status && ran.1.as_slice() == written
}

fn ends_as_wanted(alloc: Global, case: &Case) -> Result<bool, Fail> {
    let end = ran(alloc, case.words, case.input, &[], &[])?;
    Ok(is_end(&end, case.status, case.written))
}

#[test]
fn answers_and_writes(rt: HostRuntime) -> Result<(), Fail> {
    for case in &CASES {
        assert!(rt; ends_as_wanted(rt.alloc(), case)?, "{}", case.name);
    }
    Ok(())
}

#[test]
fn faults_of_source_and_sink(rt: HostRuntime) -> Result<(), Fail> {
    let read = ran(rt.alloc(), &["replay"], SMALLEST, &[1], &[])?;
    assert!(rt; is_end(&read, 4, b"read fault\n"));
    let written = ran(rt.alloc(), &["replay"], SMALLEST, &[], &[1])?;
    assert!(rt; is_end(&written, 5, b""));
    Ok(())
}

/// A source with so many bytes left, which it doesn't hold.
#[derive(Drop)]
struct Long {
    left: usize,
}

impl Counted for Long {
    ghost seen = { λ _. silent 0 };

    fn faults(&self) -> u64 {
        0
    }
}

impl Source for Long {
    fn take(&mut self, buf: &mut [u8]) -> Result<usize, Failed> {
        let count = self.left.min(buf.len());
        self.left -= count;
        Ok(count)
    }
}

// Whether a run over so many bytes has this status and writes this.
fn ends_long(alloc: Global, bytes: usize, status: u8, written: &[u8]) -> Result<bool, Fail> {
    let end = ran_over(alloc, &["replay"], &mut Long { left: bytes }, &[])?;
    Ok(is_end(&end, status, written))
}

#[test]
fn an_input_that_is_too_long(rt: HostRuntime) -> Result<(), Fail> {
    assert!(rt; ends_long(rt.alloc(), 67_108_865, 8, b"input too long\n")?);
    assert!(rt; ends_long(rt.alloc(), 67_108_864, 3, b"bad line 1\n")?);
    Ok(())
}
