//! What a letter's journal notes behind its opening, and the records of it.
ghost use Rattle.std.specs.Prelude.{◌≡◌, ◌≤◌, ◌<◌, ◌+◌, ◌^◌, ◌∷◌, ◌++◌, [], ℕ, IsNone, IfSome, length};
ghost use Rattle.std.specs.Int.{w16, w32, to_be_bytes};
ghost use Rattle.kept_letter.specs.Notes.{FitsRecord, IsNote, Noted, note_record, plain_note, told_number};
ghost use Rattle.kept_letter.specs.declared.note.Told.{Told as ToldOf};

use node_journal::RECORD_MAX;

/// What a server told, in place of a frame, of a lane and serial that are not the try's, or no longer.
#[derive(Clone, Copy, Debug, PartialEq, Eq)]
pub enum Told {
    /// Nothing more.
    NotYours,
    /// The try's request ended as written.
    Written,
    /// It ended as not written.
    NotWritten,
}

/// A serial of a lane that was leased.
#[derive(Clone, Copy, Debug, PartialEq, Eq)]
pub struct LaneSerial {
    pub lane: u16,
    /// From 1.
    pub serial: u32,
}

/// What is noted behind a letter's opening, one record each.
#[derive(Clone, Copy, Debug, PartialEq, Eq)]
pub enum LetterNote<'a> {
    /// The next bytes of the text, at most 8,213.
    Text(&'a [u8]),
    /// A try of the first copy that waits begins.
    Begins,
    /// The present try was leased this.
    Leased(LaneSerial),
    /// The last proof of the present try goes out: noted before its first byte is sent.
    ProofGoes,
    /// A server's frame was heard, of at most 8,213 bytes.
    Heard(&'a [u8]),
    /// A server told that the lane and serial are not the try's, or no longer.
    Told(Told),
}

// These bytes one behind the other.
pub(crate) fn put<'r>(head: &[u8], rest: &[u8], room: &'r mut [u8; RECORD_MAX]) -> &'r [u8]
    requires { length head.now + length rest.now ≤ 8214 }
    ensures { result.now ≡ head.now ++ rest.now }
{
    let (front, behind) = room.split_at_mut(head.len());
    front.copy_from_slice(head);
    behind[..rest.len()].copy_from_slice(rest);
    &room[..head.len() + rest.len()]
}

// A lane and a serial, big-endian.
fn lane_serial_bytes(at: &LaneSerial) -> [u8; 6]
    ensures { result ≡ to_be_bytes w16 at.now.lane ++ to_be_bytes w32 at.now.serial }
{
    let [l0, l1] = at.lane.to_be_bytes();
    let [s0, s1, s2, s3] = at.serial.to_be_bytes();
    [l0, l1, s0, s1, s2, s3]
}

fn lane_serial_in(bytes: &[u8]) -> Option<LaneSerial>
    ensures some { IfSome result (λ at. bytes.now ≡ to_be_bytes w16 at.lane ++ to_be_bytes w32 at.serial) }
    ensures is { IfSome result (λ at. IsNote (plain_note (LetterNote.Leased at))) }
    ensures none { IsNone result → (lane serial : ℕ) → 1 ≤ serial → serial < 2 ^ 32
        → bytes.now ≡ to_be_bytes w16 lane ++ to_be_bytes w32 serial → ⊥ }
{
    let [l0, l1, s0, s1, s2, s3] = bytes else {
        return None;
    };
    let lane = u16::from_be_bytes([*l0, *l1]);
    let serial = u32::from_be_bytes([*s0, *s1, *s2, *s3]);
    if serial == 0 {
        return None;
    }
    Some(LaneSerial { lane, serial })
}

fn told_number(told: Told) -> u8
    ensures { result ≡ told_number told }
{
    match told {
        Told::NotYours => 0,
        Told::Written => 1,
        Told::NotWritten => 2,
    }
}

fn told_in(bytes: &[u8]) -> Option<Told>
    ensures some { IfSome result (λ told. bytes.now ≡ told_number told ∷ []) }
    ensures none { IsNone result → (told : ToldOf) → bytes.now ≡ told_number told ∷ [] → ⊥ }
{
    match bytes {
        [0] => Some(Told::NotYours),
        [1] => Some(Told::Written),
        [2] => Some(Told::NotWritten),
        _ => None,
    }
}

impl<'a> LetterNote<'a> {
    /// The record: a tag, and what the note holds.
    pub fn record<'r>(&self, room: &'r mut [u8; RECORD_MAX]) -> &'r [u8]
        requires { FitsRecord (plain_note self.now) }
        ensures { result.now ≡ note_record (plain_note self.now) }
    {
        match *self {
            LetterNote::Text(bytes) => put(&[33], bytes, room),
            LetterNote::Begins => put(&[34], &[], room),
            LetterNote::Leased(at) => put(&[35], &lane_serial_bytes(&at), room),
            LetterNote::ProofGoes => put(&[36], &[], room),
            LetterNote::Heard(frame) => put(&[37], frame, room),
            LetterNote::Told(told) => put(&[38], &[told_number(told)], room),
        }
    }

    /// The note that a record is, if it is one.
    pub fn of(bytes: &'a [u8]) -> Option<LetterNote<'a>>
        ensures some { IfSome result (λ n. IsNote (plain_note n)) }
        ensures is { IfSome result (λ n. bytes.now ≡ note_record (plain_note n)) }
        ensures none { IsNone result → (n : Noted) → IsNote n → bytes.now ≡ note_record n → ⊥ }
    {
        match bytes {
            [33, text @ ..] => Some(LetterNote::Text(text)),
            [34] => Some(LetterNote::Begins),
            [35, at @ ..] => Some(LetterNote::Leased(lane_serial_in(at)?)),
            [36] => Some(LetterNote::ProofGoes),
            [37, frame @ ..] => Some(LetterNote::Heard(frame)),
            [38, told @ ..] => Some(LetterNote::Told(told_in(told)?)),
            _ => None,
        }
    }
}
