//! One frame of each kind, and the frames of the worked examples: written, read, cut, changed and gathered.
use crate::frame_rows::{Answer, Row, rows};
use std::alloc::{AllocError, Global};
use std::test::Fail;
use wire_frames::{FRAME_MAX, FrameFault, Gather, decode, encode_into};

/// Held after a deposit on lane 0, serial 1.
const HELD: [u8; 21] = [
    0, 0, 0, 17, 1, 6, 0, 0, 0, 0, 0, 1, 0, 0, 0, 0, 0, 0, 0, 0, 1,
];

/// A retirement of box 0 on the link, number 2, lane 0, serial 2.
const LINK_RETIRE: [u8; 24] = [
    0, 0, 0, 20, 2, 17, 0, 0, 0, 0, 0, 2, 0, 0, 0, 0, 0, 0, 0, 2, 0, 0, 0, 0,
];

fn bytes_of(alloc: Global, row: &Row) -> Result<Vec<u8>, AllocError> {
    let mut bytes = Vec::from_slice(alloc, row.front)?;
    let mut next = 3u8;
    for _ in 0..row.more {
        bytes.push(next)?;
        next = next.wrapping_add(7);
    }
    Ok(bytes)
}

fn answer_to(bytes: &[u8]) -> Answer {
    match decode(bytes) {
        Ok(_) => Answer::Read,
        Err(fault) => Answer::Fault(fault),
    }
}

/// Reads the bytes as a frame and writes it: how many bytes were read, and how many were written.
fn written(out: &mut [u8], bytes: &[u8]) -> Option<(usize, usize)> {
    if out.len() < FRAME_MAX {
        return None;
    }
    let Ok((frame, len)) = decode(bytes) else {
        return None;
    };
    Some((len, encode_into(&frame, out)))
}

/// Whether the bytes are read as one frame, which is written as the same bytes.
fn is_written_back(out: &mut [u8], bytes: &[u8]) -> bool {
    let Some((read, written)) = written(out, bytes) else {
        return false;
    };
    read == bytes.len() && written == bytes.len() && out.starts_with(bytes)
}

fn is_short_where_cut(bytes: &[u8]) -> bool {
    for cut in 0..bytes.len() {
        if answer_to(&bytes[..cut]) != Answer::Fault(FrameFault::Short) {
            return false;
        }
    }
    true
}

/// The answer with another byte in this place.
fn answer_with(bytes: &mut [u8], place: usize, other: u8) -> Answer {
    if place >= bytes.len() {
        return Answer::Read;
    }
    let byte = bytes[place];
    bytes[place] = other;
    let answer = answer_to(bytes);
    bytes[place] = byte;
    answer
}

/// The answer with a byte raised by one.
fn raised(bytes: &mut [u8], place: usize) -> Answer {
    let byte = match bytes.get(place) {
        Some(byte) => *byte,
        None => 0,
    };
    answer_with(bytes, place, byte.wrapping_add(1))
}

/// What the row says of a byte of the header.
fn expected(row: &Row, place: usize) -> Answer {
    match place {
        2 => row.raised[0],
        4 => row.raised[1],
        5 => row.raised[2],
        6 | 7 => row.raised[3],
        8..=11 => row.raised[4],
        12..=19 => row.raised[5],
        _ => Answer::Fault(FrameFault::Malformed(0)),
    }
}

/// Feeds a gatherer. Its callers learn nothing of what is held, which keeps their proofs small.
fn fed(gather: &mut Gather, piece: &[u8]) -> Result<usize, FrameFault> {
    gather.feed(piece)
}

fn is_fed(gather: &mut Gather, piece: &[u8], wanted: Result<usize, FrameFault>) -> bool {
    fed(gather, piece) == wanted
}

/// How many bytes are held, and how many are missing.
fn held_and_missing(gather: &Gather) -> (usize, usize) {
    (gather.held().len(), gather.want())
}

fn frame_in(gather: &Gather) -> Option<&[u8]> {
    gather.frame()
}

fn is_taken_in_pieces(gather: &mut Gather, bytes: &[u8], size: usize) -> bool {
    for piece in bytes.chunks(size.max(1)) {
        if !is_fed(gather, piece, Ok(piece.len())) {
            return false;
        }
    }
    true
}

/// Whether a cleared gatherer takes the bytes in pieces of a size, and nothing behind them.
fn is_gathered(gather: &mut Gather, bytes: &[u8], size: usize) -> bool {
    gather.clear();
    is_taken_in_pieces(gather, bytes, size)
        && held_and_missing(gather) == (bytes.len(), 0)
        && is_fed(gather, &[1, 2, 3], Ok(0))
        && frame_in(gather) == Some(bytes)
}

fn opened(alloc: Global) -> Result<Gather, Fail> {
    let Ok(gather) = Gather::open(alloc) else {
        return Err("memory")?;
    };
    Ok(gather)
}

fn is_frame(out: &mut [u8], bytes: &[u8]) -> bool {
    is_written_back(out, bytes) && is_short_where_cut(bytes)
}

// Whether the row's answers come where a byte of its frame is raised.
fn is_answered(row: &Row, bytes: &mut [u8]) -> bool {
    for place in 0..20usize {
        if raised(bytes, place) != expected(row, place) {
            return false;
        }
    }
    true
}

fn are_rows(alloc: Global, out: &mut [u8], rows: &[Row]) -> Result<bool, AllocError> {
    let mut right = true;
    for row in rows {
        let mut bytes = bytes_of(alloc, row)?;
        right = is_frame(out, &bytes) & is_answered(row, &mut bytes) & right;
    }
    Ok(right)
}

// Each kind and tag, and the worked frames.
#[test]
fn frames_are_written_back(rt: HostRuntime) -> Result<(), Fail> {
    let mut out = vec![in rt.alloc(); 0u8; FRAME_MAX]?;
    let written = [
        are_rows(rt.alloc(), &mut out, rows())?,
        is_frame(&mut out, &HELD),
        is_frame(&mut out, &LINK_RETIRE),
    ];
    assert!(rt; written == [true; 3]);
    Ok(())
}

/// Whether the answer is this one where a byte of the frame is another.
fn is_answer(frame: &[u8], place: usize, other: u8, wanted: FrameFault) -> bool {
    let mut bytes = [0; 24];
    let len = frame.len().min(24);
    bytes[..len].copy_from_slice(&frame[..len]);
    answer_with(&mut bytes[..len], place, other) == Answer::Fault(wanted)
}

const WRONG: [(&[u8], usize, u8, FrameFault); 5] = [
    (&HELD, 4, 9, FrameFault::Version(9)),
    (&HELD, 4, 2, FrameFault::Malformed(5)),
    (&HELD, 3, 16, FrameFault::Malformed(0)),
    (&HELD, 5, 16, FrameFault::Malformed(5)),
    (&LINK_RETIRE, 4, 1, FrameFault::Malformed(5)),
];

#[test]
fn worked_frames_with_a_wrong_byte(rt: HostRuntime) {
    for (frame, place, other, fault) in &WRONG {
        assert!(rt; is_answer(frame, *place, *other, *fault));
    }
}

// Whether the bytes are gathered in pieces of each of these sizes.
fn is_gathered_in(gather: &mut Gather, bytes: &[u8], sizes: &[usize]) -> bool {
    for size in sizes {
        if !is_gathered(gather, bytes, *size) {
            return false;
        }
    }
    true
}

#[test]
fn gathered_in_any_pieces(rt: HostRuntime) -> Result<(), Fail> {
    let mut gather = opened(rt.alloc())?;
    assert!(rt; held_and_missing(&gather) == (0, 4));
    for row in rows() {
        let bytes = bytes_of(rt.alloc(), row)?;
        assert!(rt; is_gathered_in(&mut gather, &bytes, &[1, 7, 22, 9000]));
    }
    Ok(())
}

// Whether a gatherer answers so to a piece, and holds and misses so many bytes then.
fn is_after(
    gather: &mut Gather,
    piece: &[u8],
    answer: Result<usize, FrameFault>,
    after: (usize, usize),
) -> bool {
    is_fed(gather, piece, answer) && held_and_missing(gather) == after
}

// The kind is wrong, so that its byte is the last that is taken, and the fault stays.
#[test]
fn a_wrong_kind_ends_a_gatherer(rt: HostRuntime) -> Result<(), Fail> {
    let mut gather = opened(rt.alloc())?;
    let wrong = Err(FrameFault::Malformed(5));
    assert!(rt; is_after(&mut gather, &HELD[..5], Ok(5), (5, 16)));
    assert!(rt; is_after(&mut gather, &[99, 0, 0], wrong, (6, 0)));
    assert!(rt; is_after(&mut gather, &HELD, wrong, (6, 0)));
    assert!(rt; frame_in(&gather).is_none());
    Ok(())
}
