//! Batches of closings. The worked outputs are an independent program's.
use crate::runs::{is_end, ran};
use std::alloc::Global;
use std::test::Fail;

const HEADER: &[u8] = b"batch 1 0000000000000000000000000000000000000000000000000000000000000000\n";

const GOOD: &[u8] = b"pair 00000000000000000000000000000000 00000000000000000000000000000000 \
00000000000000000000000000000000 00000000000000000000000000000000\n";

const BAD: &[u8] = b"pair 00000000000000000000000000000001 00000000000000000000000000000000 \
00000000000000000000000000000000 00000000000000000000000000000000\n";

// Whether a batch of these lines has this status and writes this.
fn judges(alloc: Global, lines: &[&[u8]], status: u8, written: &[u8]) -> Result<bool, Fail> {
    let mut input = Vec::new(alloc);
    for line in lines {
        input.extend_from_slice(line)?;
    }
    let end = ran(alloc, &["batch"], &input, &[], &[])?;
    Ok(is_end(&end, status, written))
}

#[test]
fn judges_pairs(rt: HostRuntime) -> Result<(), Fail> {
    let cases: [(&[&[u8]], u8, &[u8]); 4] = [
        (&[HEADER], 0, b"accepted 0\njudged 0\nend\n"),
        (
            &[HEADER, GOOD, BAD],
            0,
            b"rejected 1\naccepted 1\njudged 3\nend\n",
        ),
        (&[], 3, b"bad line 1\n"),
        (&[HEADER, GOOD, HEADER], 3, b"bad line 3\n"),
    ];
    for (lines, status, written) in cases {
        assert!(rt; judges(rt.alloc(), lines, status, written)?);
    }
    Ok(())
}
