//! What changes a gate, and the records of it.
ghost use Rattle.std.specs.Prelude.{◌≡◌, ◌∷◌, [], IsNone, IfSome, length};
ghost use Rattle.std.specs.Int.{w16, w32, to_be_bytes, from_be_bytes};
ghost use Rattle.lane_gate.specs.Notes.{IsNote, note_bytes, note_record, tag_in, serial_in, lane_in, hash_in};

use crate::opening::short;
use crate::statement::StatementHash;
use crate::ticket::TicketHash;

/// How many bytes the record of a note has.
pub const NOTE_LEN: usize = 39;

/// What changes a gate.
#[derive(Clone, Copy)]
pub enum Note {
    /// The owner of a lane was given the key of this hash.
    Key {
        lane: u16,
        hash: TicketHash,
    },
    /// A client was given challenges for its write of this serial, of which this is the statement's hash: it
    /// is made of the challenges' key and the public part that the server's own core has for that write.
    Statement {
        lane: u16,
        serial: u32,
        hash: StatementHash,
    },
    /// A serial of a strangers' lane was leased to the ticket of this hash: at the leader that of its own ticket,
    /// at the helper the one that the leader announced.
    Lease {
        lane: u16,
        serial: u32,
        hash: TicketHash,
    },
}

fn wide(a: u8, b: u8, c: u8, d: u8) -> u32
    ensures { to_be_bytes w32 result ≡ a ∷ b ∷ c ∷ d ∷ [] }
{
    u32::from_be_bytes([a, b, c, d])
}

fn note_bytes(tag: u8, lane: u16, serial: u32, hash: &[u8; 32]) -> [u8; NOTE_LEN]
    ensures { result ≡ note_bytes tag lane serial hash.now }
{
    let [l0, l1] = lane.to_be_bytes();
    let [s0, s1, s2, s3] = serial.to_be_bytes();
    let mut bytes = [0; NOTE_LEN];
    bytes[..7].copy_from_slice(&[tag, l0, l1, s0, s1, s2, s3]);
    bytes[7..].copy_from_slice(hash);
    bytes
}

// The note of these parts, if one has them.
fn note_of(tag: u8, lane: u16, serial: u32, hash: [u8; 32]) -> Option<Note>
    ensures some { IfSome result IsNote }
    ensures is { IfSome result (λ n. note_record n ≡ note_bytes tag lane serial hash) }
    ensures none { IsNone result → (n : Note) → tag_in n ≡ tag → serial_in n ≡ serial → ⊥ }
{
    match tag {
        17 if serial == 0 => Some(Note::Key {
            lane,
            hash: TicketHash(hash),
        }),
        18 => Some(Note::Statement {
            lane,
            serial,
            hash: StatementHash(hash),
        }),
        19 => Some(Note::Lease {
            lane,
            serial,
            hash: TicketHash(hash),
        }),
        _ => None,
    }
}

impl Note {
    /// The record: a tag, 17 of a key, 18 of a statement, 19 of a lease; lane and serial, big-endian, the
    /// serial 0 of a key; and the 32 bytes of the hash.
    pub fn record(&self) -> [u8; NOTE_LEN]
        ensures { result ≡ note_record self.now }
    {
        match self {
            Note::Key { lane, hash } => note_bytes(17, *lane, 0, &hash.0),
            Note::Statement { lane, serial, hash } => note_bytes(18, *lane, *serial, &hash.0),
            Note::Lease { lane, serial, hash } => note_bytes(19, *lane, *serial, &hash.0),
        }
    }

    /// The note that a record is, if it is one.
    pub fn of(bytes: &[u8]) -> Option<Note>
        ensures some { IfSome result IsNote }
        ensures is { IfSome result (λ n. bytes.now ≡ note_record n) }
        ensures none { IsNone result → (n : Note) → IsNote n → bytes.now ≡ note_record n → ⊥ }
    {
        let [tag, l0, l1, s0, s1, s2, s3, hash @ ..] = bytes else {
            return None;
        };
        if hash.len() != 32 {
            return None;
        }
        let mut word = [0; 32];
        word.copy_from_slice(hash);
        note_of(*tag, short(*l0, *l1), wide(*s0, *s1, *s2, *s3), word)
    }
}
