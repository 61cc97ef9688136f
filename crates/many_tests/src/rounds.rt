//! Rounds of the loop over an outside in memory.
ghost use Rattle.std.specs.Prelude.{◌≡◌, ℕ, List, [], ◌∷◌, take, IfOk};
ghost use Rattle.many_conns.specs.Hall.{IsSettled};
ghost use Rattle.many_conns.specs.Rules.{IsWithin, outcome_of};
ghost use Rattle.many_tests.specs.Numbering.{first_byte, whole, is_long, noted, outcome, outstanding, key};

use many_conns::{Answering, Bounds, Doors, Hall, Key, Patience, Role, Said, Stop};
use many_words::{Door, Entry, Kind, MemoryHub, Note, Script};
use std::alloc::{AllocError, Global};
use std::test::Fail;

// Answers each frame with its number and its first byte. A frame begins with its length; one that has more than 99 bytes
// takes long. One of two bytes, [0, n], waits for the answer to n, and [1, n] brings it: its number and n; [2, n] is the
// last, and [3, n] is a command, whose answer it waits for. Its first bytes are noted of each but one that begins with 9, which has no number.
#[derive(Drop)]
struct Numbering {
    count: u8,
    room: usize,
}

impl Answering for Numbering {
    ghost use Rattle.std.specs.Prelude.{◌+◌, ◌%◌, ◌^◌, [], ◌∷◌};

    ghost rules = { record {
      whole = λ door held. whole held;
      is_dear = λ door frame. is_long frame;
      room = λ s. s.room;
      noted = λ s door frame. noted frame;
      says = λ s door frame bytes. outcome s.count frame;
      after = λ s bytes. record s { count = (s.count + 1) % 2 ^ 8 };
      outstanding = λ s. outstanding;
    } };

    fn whole(&self, _door: Door, held: &[u8]) -> Option<usize> {
        match held {
            [length, rest @ ..] if usize::from(*length) <= rest.len() => {
                Some(1 + usize::from(*length))
            }
            _ => None,
        }
    }

    fn is_dear(&self, _door: Door, frame: &[u8]) -> bool {
        frame.len() > 100
    }

    fn room(&self) -> usize {
        self.room
    }

    fn record(&self, _door: Door, frame: &[u8], out: &mut [u8]) -> Option<usize> {
        if first_byte(frame) == 9 {
            return None;
        }
        let count = frame.len().min(3);
        out[..count].copy_from_slice(&frame[..count]);
        Some(count)
    }

    fn step(&mut self, _door: Door, frame: &[u8], noted: Option<&[u8]>, out: &mut [u8]) -> Said {
        let (said, last) = said_of(frame);
        let answer = [self.count, last];
        out[..2].copy_from_slice(&answer);
        if noted.is_some() {
            self.count = self.count.wrapping_add(1);
        }
        said
    }

    fn outstanding(&self, place: usize, out: &mut [u8]) -> Option<usize> {
        if place > 0 {
            return None;
        }
        out[0] = 7;
        Some(1)
    }
}

fn key(serial: u8) -> Key
    ensures { result ≡ key serial }
{
    Key {
        lane: 1,
        serial: u32::from(serial),
    }
}

// What is said of a frame, and the last byte of its answer.
fn said_of(frame: &[u8]) -> (Said, u8)
    ensures outcome { (count : ℕ) (out : List ℕ) → take 2 out ≡ count ∷ result.1 ∷ [] → outcome_of result.0 out ≡ outcome count frame.now }
    ensures within { IsWithin result.0 2 }
{
    match frame {
        [_, 0, serial] => (Said::Wait(key(*serial)), 0),
        [_, 1, serial] => (Said::Reply(key(*serial), 2), *serial),
        [_, 2, serial] => (Said::Last(2), *serial),
        [_, 3, serial] => (Said::Command(Some(key(*serial)), 2), *serial),
        _ => (Said::Answer(2), first_byte(frame)),
    }
}

fn first_byte(frame: &[u8]) -> u8
    ensures { result ≡ first_byte frame.now }
{
    match frame {
        [_, first, ..] => *first,
        _ => 0,
    }
}

fn script(alloc: Global, bytes: &[u8], pace: usize, ends: bool) -> Result<Script, AllocError> {
    Ok(Script {
        door: Door::Clients,
        bytes: Vec::from_slice(alloc, bytes)?,
        pace,
        ends,
        slow: 0,
    })
}

fn hall(alloc: Global, places: usize, patience: u64) -> Result<Hall<Numbering>, AllocError>
    ensures { IfOk result (IsSettled ⟦<Numbering as Answering>⟧.rules) }
{
    hall_of(alloc, Role::Helper, places, patience)
}

fn hall_of(
    alloc: Global,
    role: Role,
    places: usize,
    patience: u64,
) -> Result<Hall<Numbering>, AllocError>
    ensures { IfOk result (IsSettled ⟦<Numbering as Answering>⟧.rules) }
{
    let bounds = Bounds {
        patience: Patience {
            frame: patience,
            answer: patience,
        },
        frames: 64,
        dear: 1,
    };
    let doors = Doors {
        role,
        status: 1,
        clients: places,
    };
    Hall::open(alloc, Numbering { count: 0, room: 64 }, doors, bounds)
}

// How many notes of the log have these frames, one after another.
fn logs(notes: &[Note], bytes: &[u8]) -> usize {
    let mut found = 0usize;
    for note in notes {
        if note.kind == Kind::Logged && is_spelled(&note.entries, bytes) {
            found = found.saturating_add(1);
        }
    }
    found
}

// Whether these are the frames of the entries, one after another.
fn is_spelled(entries: &[Entry], bytes: &[u8]) -> bool {
    let mut rest = bytes;
    for entry in entries {
        match rest.strip_prefix(entry.frame()) {
            Some(left) => rest = left,
            None => return false,
        }
    }
    rest.is_empty()
}

// How many notes have this kind, place and bytes.
fn count(notes: &[Note], kind: Kind, number: usize, bytes: &[u8]) -> usize {
    let mut found = 0usize;
    for note in notes {
        if note.kind == kind && note.number == number && note.bytes.as_slice() == bytes {
            found = found.saturating_add(1);
        }
    }
    found
}

// How many connections were dropped for others.
fn dropped(notes: &[Note]) -> usize {
    let mut found = 0usize;
    for note in notes {
        if note.kind == Kind::Dropped {
            found = found.saturating_add(1);
        }
    }
    found
}

#[test]
fn drippers_hold_nobody_up(rt: HostRuntime) -> Result<(), Fail> {
    let alloc = rt.alloc();
    let mut coming = Vec::new(alloc);
    coming.push(script(alloc, &[200, 1, 2, 3, 4, 5, 6, 7, 8, 9], 1, false)?)?;
    coming.push(script(alloc, &[], 0, false)?)?;
    coming.push(script(alloc, &[1, 65, 2, 66, 67, 1, 68], 100, true)?)?;
    coming.push(script(alloc, &[1, 90], 1, true)?)?;
    let mut hub = MemoryHub::new(alloc, coming, 0);
    let mut hall = hall(alloc, 4, 4)?;
    assert!(rt; hall.serve(&mut hub, 12).is_ok());
    let notes = hub.notes().unwrap_or(&[]);
    // three frames of one connection, one a round, beside one that comes byte by byte
    assert_eq!(rt; count(notes, Kind::Sent, 4, &[0, 65]), 1);
    assert_eq!(rt; count(notes, Kind::Sent, 4, &[1, 66]), 1);
    assert_eq!(rt; count(notes, Kind::Sent, 5, &[2, 90]), 1);
    assert_eq!(rt; count(notes, Kind::Sent, 4, &[3, 68]), 1);
    assert_eq!(rt; logs(notes, &[2, 66, 67, 1, 90]), 1);
    // the one that drips, the one that is silent, and those that ended
    for place in 2..6 {
        assert_eq!(rt; count(notes, Kind::Closed, place, &[]), 1);
    }
    assert_eq!(rt; logs(notes, &[]), 0);
    Ok(())
}

#[test]
fn a_batch_is_logged_together(rt: HostRuntime) -> Result<(), Fail> {
    let alloc = rt.alloc();
    let mut coming = Vec::new(alloc);
    for byte in 65..75u8 {
        coming.push(script(alloc, &[1, byte], 2, true)?)?;
    }
    let mut hub = MemoryHub::new(alloc, coming, 0);
    let mut hall = hall(alloc, 10, 4)?;
    assert!(rt; hall.round(&mut hub).is_ok());
    let notes = hub.notes().unwrap_or(&[]);
    let all = [
        1, 65, 1, 66, 1, 67, 1, 68, 1, 69, 1, 70, 1, 71, 1, 72, 1, 73, 1, 74,
    ];
    assert_eq!(rt; logs(notes, &all), 1);
    assert_eq!(rt; count(notes, Kind::Sent, 11, &[9, 74]), 1);
    Ok(())
}

#[test]
fn nothing_is_sent_where_the_log_failed(rt: HostRuntime) -> Result<(), Fail> {
    let alloc = rt.alloc();
    let mut coming = Vec::new(alloc);
    coming.push(script(alloc, &[1, 65], 2, true)?)?;
    let mut hub = MemoryHub::new(alloc, coming, 1);
    let mut hall = hall(alloc, 1, 4)?;
    assert_eq!(rt; hall.round(&mut hub), Err(Stop::Log));
    let notes = hub.notes().unwrap_or(&[]);
    assert_eq!(rt; count(notes, Kind::LogFailed, 0, &[]), 1);
    assert!(rt; notes.iter().all(|note| note.kind != Kind::Sent));
    Ok(())
}

#[test]
fn the_one_that_waited_longest_makes_room(rt: HostRuntime) -> Result<(), Fail> {
    let alloc = rt.alloc();
    let mut coming = Vec::new(alloc);
    for _ in 0..6 {
        coming.push(script(alloc, &[], 0, false)?)?;
    }
    coming.push(script(alloc, &[1, 65], 2, true)?)?;
    let mut hub = MemoryHub::new(alloc, coming, 0);
    let mut hall = hall(alloc, 2, 1000)?;
    assert!(rt; hall.serve(&mut hub, 6).is_ok());
    let notes = hub.notes().unwrap_or(&[]);
    assert_eq!(rt; count(notes, Kind::Sent, 2, &[0, 65]), 1);
    assert_eq!(rt; count(notes, Kind::Dropped, 2, &[]), 3);
    assert_eq!(rt; count(notes, Kind::Dropped, 3, &[]), 2);
    Ok(())
}

#[test]
fn several_are_let_in_at_once(rt: HostRuntime) -> Result<(), Fail> {
    let alloc = rt.alloc();
    let mut coming = Vec::new(alloc);
    for _ in 0..12 {
        coming.push(script(alloc, &[], 0, false)?)?;
    }
    coming.push(script(alloc, &[1, 65], 2, true)?)?;
    let mut hub = MemoryHub::new(alloc, coming, 0);
    let mut hall = hall(alloc, 8, 1000)?;
    assert!(rt; hall.serve(&mut hub, 2).is_ok());
    let notes = hub.notes().unwrap_or(&[]);
    assert_eq!(rt; dropped(notes), 2);
    assert!(rt; hall.serve(&mut hub, 2).is_ok());
    let notes = hub.notes().unwrap_or(&[]);
    assert_eq!(rt; dropped(notes), 5);
    assert_eq!(rt; count(notes, Kind::Sent, 6, &[0, 65]), 1);
    Ok(())
}

#[test]
fn who_had_no_room_is_next(rt: HostRuntime) -> Result<(), Fail> {
    let alloc = rt.alloc();
    let mut long = Vec::new(alloc);
    long.push(120)?;
    for _ in 0..120 {
        long.push(7)?;
    }
    let mut coming = Vec::new(alloc);
    for _ in 0..2 {
        coming.push(script(alloc, &long, 200, false)?)?;
    }
    coming.push(script(alloc, &[1, 65], 2, false)?)?;
    let mut hub = MemoryHub::new(alloc, coming, 0);
    let mut hall = hall(alloc, 3, 100)?;
    assert!(rt; hall.serve(&mut hub, 2).is_ok());
    let notes = hub.notes().unwrap_or(&[]);
    assert_eq!(rt; count(notes, Kind::Sent, 2, &[0, 7]), 1);
    assert_eq!(rt; count(notes, Kind::Sent, 3, &[1, 7]), 1);
    assert_eq!(rt; count(notes, Kind::Sent, 4, &[2, 65]), 1);
    Ok(())
}

#[test]
fn nothing_is_taken_of_one_that_does_not_read(rt: HostRuntime) -> Result<(), Fail> {
    let alloc = rt.alloc();
    let mut slow = script(alloc, &[1, 65, 1, 66], 4, true)?;
    slow.slow = 3;
    let mut coming = Vec::new(alloc);
    coming.push(slow)?;
    let mut hub = MemoryHub::new(alloc, coming, 0);
    let mut hall = hall(alloc, 1, 100)?;
    assert!(rt; hall.serve(&mut hub, 4).is_ok());
    assert_eq!(rt;
        count(hub.notes().unwrap_or(&[]), Kind::Sent, 2, &[1, 66]),
        0
    );
    assert!(rt; hall.serve(&mut hub, 5).is_ok());
    let notes = hub.notes().unwrap_or(&[]);
    assert_eq!(rt; count(notes, Kind::Blocked, 2, &[]), 6);
    assert_eq!(rt; count(notes, Kind::Sent, 2, &[1, 66]), 1);
    assert_eq!(rt; count(notes, Kind::Closed, 2, &[]), 1);
    Ok(())
}

#[test]
fn an_answer_goes_to_who_waits_for_it(rt: HostRuntime) -> Result<(), Fail> {
    let alloc = rt.alloc();
    let mut coming = Vec::new(alloc);
    coming.push(script(alloc, &[2, 0, 5], 3, false)?)?;
    coming.push(script(alloc, &[2, 0, 6], 3, false)?)?;
    coming.push(script(alloc, &[2, 0, 5], 3, false)?)?;
    coming.push(script(alloc, &[2, 1, 5, 2, 1, 7], 6, false)?)?;
    let mut hub = MemoryHub::new(alloc, coming, 0);
    let mut hall = hall(alloc, 4, 100)?;
    assert!(rt; hall.serve(&mut hub, 2).is_ok());
    let notes = hub.notes().unwrap_or(&[]);
    // who asked last is told; who asked for the same before is closed, and who asked for something else waits on
    assert_eq!(rt; count(notes, Kind::Sent, 4, &[3, 5]), 1);
    assert_eq!(rt;
        notes.iter().filter(|note| note.kind == Kind::Sent).count(),
        1
    );
    assert_eq!(rt; count(notes, Kind::Closed, 2, &[]), 1);
    assert_eq!(rt;
        notes
            .iter()
            .filter(|note| note.kind == Kind::Closed)
            .count(),
        1
    );
    assert_eq!(rt; count(notes, Kind::Unanswered, 5, &[]), 1);
    Ok(())
}

#[test]
fn nothing_is_taken_behind_the_last(rt: HostRuntime) -> Result<(), Fail> {
    let alloc = rt.alloc();
    let mut coming = Vec::new(alloc);
    coming.push(script(alloc, &[2, 2, 7, 1, 65], 5, false)?)?;
    let mut hub = MemoryHub::new(alloc, coming, 0);
    let mut hall = hall(alloc, 1, 100)?;
    assert!(rt; hall.serve(&mut hub, 3).is_ok());
    let notes = hub.notes().unwrap_or(&[]);
    assert_eq!(rt; count(notes, Kind::Sent, 2, &[0, 7]), 1);
    assert_eq!(rt;
        notes.iter().filter(|note| note.kind == Kind::Sent).count(),
        1
    );
    assert_eq!(rt; count(notes, Kind::Closed, 2, &[]), 1);
    Ok(())
}

#[test]
fn a_frame_without_a_record_costs_no_write(rt: HostRuntime) -> Result<(), Fail> {
    let alloc = rt.alloc();
    let mut coming = Vec::new(alloc);
    coming.push(script(alloc, &[1, 9], 2, true)?)?;
    coming.push(script(alloc, &[1, 9, 1, 65], 4, true)?)?;
    let mut hub = MemoryHub::new(alloc, coming, 1);
    let mut hall = hall(alloc, 2, 100)?;
    assert!(rt; hall.round(&mut hub).is_ok());
    assert_eq!(rt; hall.round(&mut hub), Err(Stop::Log));
    let notes = hub.notes().unwrap_or(&[]);
    assert_eq!(rt; count(notes, Kind::Sent, 2, &[0, 9]), 1);
    assert_eq!(rt; count(notes, Kind::Sent, 3, &[0, 9]), 1);
    Ok(())
}

#[test]
fn the_next_link_takes_the_first_ones_place(rt: HostRuntime) -> Result<(), Fail> {
    let alloc = rt.alloc();
    let mut coming = Vec::new(alloc);
    for byte in 65..67u8 {
        let mut link = script(alloc, &[1, byte], 2, false)?;
        link.door = Door::Link;
        coming.push(link)?;
    }
    let mut status = script(alloc, &[], 0, false)?;
    status.door = Door::Status;
    coming.push(status)?;
    let mut hub = MemoryHub::new(alloc, coming, 0);
    let mut hall = hall(alloc, 1, 4)?;
    assert!(rt; hall.serve(&mut hub, 9).is_ok());
    let notes = hub.notes().unwrap_or(&[]);
    assert_eq!(rt; count(notes, Kind::Opened(Door::Link), 0, &[]), 2);
    assert_eq!(rt; count(notes, Kind::Sent, 0, &[0, 65]), 1);
    assert_eq!(rt; count(notes, Kind::Sent, 0, &[1, 66]), 1);
    // an operator is waited for no longer than a client, and the other server as long as it takes
    assert_eq!(rt; count(notes, Kind::Closed, 0, &[]), 0);
    assert_eq!(rt; count(notes, Kind::Closed, 1, &[]), 1);
    Ok(())
}

#[test]
fn what_is_unanswered_is_sent_again(rt: HostRuntime) -> Result<(), Fail> {
    let alloc = rt.alloc();
    let mut coming = Vec::new(alloc);
    let mut broken = script(alloc, &[], 0, true)?;
    broken.door = Door::Dialled;
    coming.push(broken)?;
    let mut other = script(alloc, &[2, 1, 5], 3, false)?;
    other.door = Door::Dialled;
    other.slow = 9;
    coming.push(other)?;
    coming.push(script(alloc, &[2, 3, 5], 3, false)?)?;
    let mut hub = MemoryHub::new(alloc, coming, 0);
    let mut hall = hall_of(alloc, Role::Leader, 1, 100)?;
    assert!(rt; hall.serve(&mut hub, 2).is_ok());
    let notes = hub.notes().unwrap_or(&[]);
    // on each connection all that is unanswered, and a new command on the one that stands
    assert_eq!(rt; count(notes, Kind::Opened(Door::Dialled), 0, &[]), 2);
    assert_eq!(rt; count(notes, Kind::SentAgain, 0, &[7]), 2);
    assert_eq!(rt; count(notes, Kind::Sent, 0, &[0, 5]), 1);
    // the answer goes to who asked, though output to the other server is pending
    assert_eq!(rt; count(notes, Kind::Sent, 2, &[1, 5]), 1);
    Ok(())
}

#[test]
fn all_that_the_other_server_sent_comes_first(rt: HostRuntime) -> Result<(), Fail> {
    let alloc = rt.alloc();
    let mut coming = Vec::new(alloc);
    coming.push(script(alloc, &[1, 90, 1, 91], 4, false)?)?;
    let mut link = script(alloc, &[1, 65, 1, 66, 1, 67, 1], 7, false)?;
    link.door = Door::Link;
    coming.push(link)?;
    let mut hub = MemoryHub::new(alloc, coming, 0);
    let mut hall = hall(alloc, 1, 100)?;
    assert!(rt; hall.round(&mut hub).is_ok());
    let notes = hub.notes().unwrap_or(&[]);
    assert_eq!(rt; logs(notes, &[1, 65, 1, 66, 1, 67, 1, 90]), 1);
    assert_eq!(rt; count(notes, Kind::Sent, 0, &[2, 67]), 1);
    assert_eq!(rt; count(notes, Kind::Sent, 2, &[3, 90]), 1);
    Ok(())
}
