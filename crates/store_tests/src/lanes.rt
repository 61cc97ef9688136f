//! Two lanes through sets and keeps, the gates of one of them, and a table of the largest settings.
//! What the helpers say of a table is what the next call on it requires, and no more.
ghost use Rattle.std.specs.Prelude.{◌≡◌, ◌≤◌, length};

use lane_table::{Gate, Lanes, Row, Want, closing, opening, phase};
use std::test::Fail;

const WAITING: Row = Row {
    serial: 7,
    phase: phase::WAITING,
    want: Want::Write,
};

// Whether the lane is there, to which it gives the reply.
fn keeps(lanes: &mut Lanes, lane: u16, reply: &[u8]) -> bool
    requires { length reply.now ≤ lanes.old.room }
    ensures { lanes.new.room ≡ lanes.old.room }
{
    let is_there = lanes.get(lane).is_ok();
    if is_there {
        lanes.keep(lane, reply);
    }
    is_there
}

// Whether the lane is there, to which it gives the row.
fn sets(lanes: &mut Lanes, lane: u16, row: Row) -> bool
    ensures { lanes.new.room ≡ lanes.old.room }
{
    let is_there = lanes.get(lane).is_ok();
    if is_there {
        lanes.set(lane, row);
    }
    is_there
}

fn has_row(lanes: &Lanes, lane: u16, row: Row) -> bool {
    lanes.get(lane) == Ok(row)
}

fn has_reply(lanes: &Lanes, lane: u16, reply: &[u8]) -> bool {
    lanes.get(lane).is_ok() && *lanes.kept(lane) == *reply
}

fn is_refused(lanes: &Lanes, lane: u16, count: u16) -> bool {
    lanes.get(lane) == Err(count)
}

fn set_and_keep(lanes: &mut Lanes) -> [bool; 3]
    requires { lanes.old.room ≡ 4 }
{
    [
        keeps(lanes, 1, &[1, 2, 3, 4]),
        sets(lanes, 1, WAITING),
        keeps(lanes, 1, &[5]),
    ]
}

fn are_kept(lanes: &Lanes) -> [bool; 5] {
    [
        has_row(lanes, 0, Row::IDLE),
        has_row(lanes, 1, WAITING),
        is_refused(lanes, 2, 2),
        has_reply(lanes, 0, &[]),
        has_reply(lanes, 1, &[5]),
    ]
}

#[test]
fn each_lane_keeps_its_own_row_and_reply(rt: HostRuntime) -> Result<(), Fail> {
    let mut lanes = Lanes::open(rt.alloc(), 2, 4)?;
    let set = set_and_keep(&mut lanes);
    assert!(rt; set == [true; 3] && are_kept(&lanes) == [true; 5]);
    Ok(())
}

fn gates(row: &Row, serial: u32, want: Want) -> (Gate, Gate) {
    (opening(row, serial, want), closing(row, serial))
}

fn are_gates(serial: u32, want: Want, opened: Gate, closed: Gate) -> bool {
    gates(&WAITING, serial, want) == (opened, closed)
}

const READING: Row = Row {
    serial: 7,
    phase: phase::WAITING,
    want: Want::Read,
};

#[test]
fn gates_judge_serials_and_wants_against_a_row(rt: HostRuntime) {
    let waits = Gate::Phase(phase::WAITING);
    let told = [
        are_gates(6, Want::Write, Gate::Stale(7), Gate::Stale(7)),
        are_gates(7, Want::Write, Gate::Same, Gate::Same),
        are_gates(7, Want::Read, waits, Gate::Same),
        are_gates(8, Want::Read, Gate::New, Gate::Stale(7)),
        gates(&READING, 7, Want::Read).1 == waits,
    ];
    assert!(rt; told == [true; 5]);
}

fn keep_longest(lanes: &mut Lanes, reply: &[u8; 8213]) -> [bool; 4]
    requires { lanes.old.room ≡ 8213 }
{
    [
        keeps(lanes, 255, reply),
        has_reply(lanes, 255, reply),
        has_reply(lanes, 254, &[]),
        is_refused(lanes, 256, 256),
    ]
}

// The most lanes, each with room for the longest frame.
#[test]
fn the_last_of_256_lanes_keeps_the_longest_reply(rt: HostRuntime) -> Result<(), Fail> {
    let mut lanes = Lanes::open(rt.alloc(), 256, 8213)?;
    assert!(rt; keep_longest(&mut lanes, &[7; 8213]) == [true; 4]);
    Ok(())
}
