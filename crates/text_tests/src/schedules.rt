//! Worked rows read and printed again, lines that are bad, and a mill.
use crate::joined::joined;
use crate::told::is_told;
use schedule_text::{Asked, Event, ReadFault, Schedule, mill, print, read};
use std::alloc::Global;
use std::test::Fail;

// Two writers whose replies come out of order.
const TWO_WRITERS: &[u8] = b"express 1 16 4 2 2 00000000000000000000000000000000\
    00000000000000000000000000000000\n\
    ask 0 register 00112233445566778899aabbccddeeff\n\
    finish 0\n\
    ask 1 register ffffffffffffffffffffffffffffffff\n\
    finish 1\n\
    ask 0 write ffffffffffffffffffffffffffffffff ffffffffffffffffffffffffffffffff\n\
    ask 1 write 00112233445566778899aabbccddeeff 00112233445566778899aabbccddeeff\n\
    send 0\n\
    send 1\n\
    deliver 14\n\
    deliver 15\n\
    deliver 16\n\
    deliver 17\n\
    send 0\n\
    send 1\n\
    deliver 19\n\
    deliver 18\n\
    deliver 21\n\
    deliver 20\n\
    deliver 21\n\
    deliver 23\n\
    deliver 22\n\
    deliver 23\n\
    finish 0\n\
    finish 1\n\
    ask 0 read 0\n\
    finish 0\n\
    ask 1 read 0\n\
    finish 1\n";

const RETIRE: &[u8] = b"express 1 16 4 1 1 00000000000000000000000000000000\
    00000000000000000000000000000000\n\
    ask 0 register 00112233445566778899aabbccddeeff\n\
    ask 0 write 00112233445566778899aabbccddeeff ffffffffffffffffffffffffffffffff\n\
    ask 0 retire 0\n\
    ask 0 write 00112233445566778899aabbccddeeff ffffffffffffffffffffffffffffffff\n\
    ask 0 read 0\n\
    ask 0 register 00112233445566778899aabbccddeeff\n\
    finish 0\n";

const SHOWN_FRAMES: &[u8] = b"express 1 16 4 1 1 00000000000000000000000000000000\
    00000000000000000000000000000000\n\
    ask 0 register 00112233445566778899aabbccddeeff\n\
    show 1\n\
    finish 0\n\
    show 1\n\
    show 3\n\
    show 6\n";

const HEADER: &[u8] = b"express 1 16 4 2 1 00000000000000000000000000000000\
    00000000000000000000000000000000\n";

// A foreign register.
const FOREIGN: &[u8] =
    b"inject A 0000004001020001000000010000000000000000ffffffffffffffffffffffffffffffff00000000000000\
    00000000000000000000000000000000000000000000000000\n";

// What stands behind it where no deposit waits for it.
const DELIVERED: &[u8] = b"deliver 0\ndeliver 1\ndeliver 2\n";

// What is printed of the schedule that a text is read as. Its callers learn nothing of how schedules are spelled,
// which keeps their proofs small.
fn reprinted(alloc: Global, text: &[u8]) -> Result<Vec<u8>, Fail> {
    let schedule = read(alloc, text)?;
    Ok(print(alloc, &schedule)?)
}

fn is_printed_again(alloc: Global, parts: &[&[u8]]) -> Result<bool, Fail> {
    let text = joined(alloc, parts)?;
    let printed = reprinted(alloc, &text)?;
    Ok(printed.as_slice() == text.as_slice())
}

const ROWS: [&[&[u8]]; 5] = [
    &[TWO_WRITERS],
    &[RETIRE],
    &[SHOWN_FRAMES],
    &[HEADER, FOREIGN, DELIVERED],
    &[HEADER],
];

#[test]
fn rows_are_printed_again(rt: HostRuntime) -> Result<(), Fail> {
    for row in &ROWS {
        assert!(rt; is_printed_again(rt.alloc(), row)?);
    }
    Ok(())
}

// Its callers learn nothing of how schedules are spelled, which keeps their proofs small.
fn schedule_in(alloc: Global, text: &[u8]) -> Result<Schedule, ReadFault> {
    read(alloc, text)
}

// Whether a text of these parts is read, or else its fault.
fn row_told(alloc: Global, parts: &[&[u8]], told: &mut String) -> Result<(), Fail> {
    let text = joined(alloc, parts)?;
    match schedule_in(alloc, &text) {
        Ok(_) => told.push_str("read\n")?,
        Err(fault) => write!(told, "{fault}\n")?,
    }
    Ok(())
}

fn rows_told(alloc: Global, rows: &[&[&[u8]]]) -> Result<String, Fail> {
    let mut told = String::new(alloc);
    for parts in rows {
        row_told(alloc, parts, &mut told)?;
    }
    Ok(told)
}

const JUDGED: [&[&[u8]]; 8] = [
    &[HEADER],
    &[HEADER, b"\n"],
    &[HEADER, b"finish 0\nask 0 read 00\n"],
    &[HEADER, b"show 0\n", b"deliver 4294967296\n"],
    &[HEADER, b"send 1\n", FOREIGN],
    &[HEADER, FOREIGN, b"finish 1\n"],
    &[HEADER, FOREIGN, b"finish 0\n"],
    &[],
];

#[test]
fn bad_lines(rt: HostRuntime) -> Result<(), Fail> {
    let judged =
        "read\nbad line 2\nbad line 3\nbad line 3\nbad line 3\nbad line 3\nread\nbad line 1\n";
    is_told(rows_told(rt.alloc(), &JUDGED), judged)
}

#[test]
fn either_case(rt: HostRuntime) -> Result<(), Fail> {
    let text = joined(rt.alloc(), &[HEADER, b"tick\ninject B 0aBF"])?;
    let wanted = joined(rt.alloc(), &[HEADER, b"tick\ninject B 0abf\n"])?;
    let printed = reprinted(rt.alloc(), &text)?;
    assert!(rt; printed.as_slice() == wanted.as_slice());
    Ok(())
}

// The first address, from an independent program.
fn is_mill(events: &[Event]) -> bool {
    match events {
        [Event::Ask(0, Asked::Register(address)), ..] => {
            events.len() == 258 && *address == 0x01962079dede42113124826b89870941
        }
        _ => false,
    }
}

// What is printed of a mill.
fn printed_mill(alloc: Global) -> Result<Vec<u8>, Fail> {
    let schedule = mill(alloc, 1)?;
    if !is_mill(schedule.events.as_slice()) {
        return Err("it isn't the mill")?;
    }
    Ok(print(alloc, &schedule)?)
}

fn is_mill_read(alloc: Global) -> Result<bool, Fail> {
    let text = printed_mill(alloc)?;
    let again = reprinted(alloc, &text)?;
    Ok(again.as_slice() == text.as_slice())
}

#[test]
fn a_mill_is_printed_and_read(rt: HostRuntime) -> Result<(), Fail> {
    assert!(rt; is_mill_read(rt.alloc())?);
    Ok(())
}
