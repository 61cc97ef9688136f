//! The records of a client's journal, against bytes that were written by hand.
ghost use Rattle.client_restart.specs.Notes.{FitsRecord, plain_note};

use client_core::Request;
use client_restart::{ClientOpening, NOTE_MAX, Note, OwnedBox};

fn is_record(note: &Note<'_>, bytes: &[u8]) -> bool
    requires { FitsRecord (plain_note note.now) }
{
    let mut room = [0; NOTE_MAX];
    let record = note.record(&mut room);
    record == bytes && Note::of(bytes) == Some(*note)
}

const REGISTER: [u8; 17] = [4, 0, 0, 0, 0, 0, 0, 0, 0, 0, 0, 0, 0, 0, 0, 1, 2];

const WRITE: [u8; 19] = [5, 0, 0, 0, 0, 0, 0, 0, 0, 0, 0, 0, 0, 0, 0, 1, 2, 104, 105];

fn are_requests() -> [bool; 4] {
    let write = Request::Write {
        target: 258,
        message: b"hi",
    };
    [
        is_record(&Note::Asked(Request::Register { address: 258 }), &REGISTER),
        is_record(&Note::Asked(write), &WRITE),
        is_record(&Note::Asked(Request::Read { own: 258 }), &[6, 0, 0, 1, 2]),
        is_record(&Note::Asked(Request::Retire { own: 258 }), &[7, 0, 0, 1, 2]),
    ]
}

const OWNED: OwnedBox = OwnedBox {
    number: 258,
    serial: 3,
};

fn are_others() -> [bool; 4] {
    [
        is_record(&Note::Told, &[9]),
        is_record(&Note::GivenUp, &[10]),
        is_record(&Note::Owned(OWNED), &[11, 0, 0, 1, 2, 0, 0, 0, 3]),
        is_record(&Note::Remark(b"hi"), &[12, 104, 105]),
    ]
}

const OPENING: ClientOpening = ClientOpening {
    lane: 258,
    width: 1024,
    capacity: 3,
    first_serial: 5,
    seed: [7; 32],
};

fn record() -> [u8; 47] {
    OPENING.record()
}

fn is_written(bytes: &[u8; 47]) -> bool {
    bytes[..15] == [3, 1, 2, 0, 0, 4, 0, 0, 0, 0, 3, 0, 0, 0, 5] && bytes[15..] == [7; 32]
}

// Whether it is read as the opening, and without its last byte as none.
fn is_read(bytes: &[u8; 47]) -> bool {
    ClientOpening::of(bytes) == Some(OPENING) && ClientOpening::of(&bytes[..46]).is_none()
}

#[test]
fn client_records_are_as_the_table_has_them(rt: HostRuntime) {
    let bytes = record();
    assert!(rt; are_requests() == [true; 4]);
    assert!(rt; are_others() == [true; 4]);
    assert!(rt; is_written(&bytes) && is_read(&bytes));
}
