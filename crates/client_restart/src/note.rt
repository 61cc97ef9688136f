//! What a client's journal notes behind its opening, and the records of it.
ghost use Rattle.std.specs.Prelude.{◌≡◌, ◌≤◌, ◌+◌, ◌<◌, ◌∷◌, ◌++◌, [], IsNone, IfSome, length};
ghost use Rattle.std.specs.Int.{w32, w128, to_be_bytes};
ghost use Rattle.client_restart.specs.Notes.{FitsRecord, IsNoNote, IsNote, note_record, plain_note, size_of};

use crate::owned_box::OwnedBox;
use client_core::Request;
use frame_rules::FRAME_MAX;
use wire_frames::whole;

/// Room for a tag and the longest frame.
pub const NOTE_MAX: usize = FRAME_MAX + 1;

/// What is noted behind a client's opening, one record each.
#[derive(Clone, Copy, Debug, PartialEq, Eq)]
pub enum Note<'a> {
    /// A request was asked.
    Asked(Request<'a>),
    /// A server's frame was heard.
    Heard(&'a [u8]),
    /// The oldest outcome that wasn't told yet was told.
    Told,
    /// The current request was given up.
    GivenUp,
    /// A box is owned that a serial of an earlier journal registered.
    Owned(OwnedBox),
    /// Words of the program above, at most 8,213 bytes, which mean nothing to the client.
    Remark(&'a [u8]),
}

// These bytes one behind the other.
fn put<'a>(head: &[u8], rest: &[u8], room: &'a mut [u8; NOTE_MAX]) -> &'a [u8]
    requires { length head.now + length rest.now ≤ 8214 }
    ensures { result.now ≡ head.now ++ rest.now }
{
    let (front, behind) = room.split_at_mut(head.len());
    front.copy_from_slice(head);
    behind[..rest.len()].copy_from_slice(rest);
    &room[..head.len() + rest.len()]
}

// A tag, and behind it an address.
fn tagged(tag: u8, address: u128) -> [u8; 17]
    ensures { result ≡ tag ∷ to_be_bytes w128 address }
{
    let mut bytes = [tag; 17];
    bytes[1..].copy_from_slice(&address.to_be_bytes());
    bytes
}

// A tag, and behind it a number of an own box.
fn tagged_own(tag: u8, own: u32) -> [u8; 5]
    ensures { result ≡ tag ∷ to_be_bytes w32 own }
{
    let [a, b, c, d] = own.to_be_bytes();
    [tag, a, b, c, d]
}

// A tag, and behind it a box's number and serial.
fn tagged_box(tag: u8, owned: &OwnedBox) -> [u8; 9]
    ensures { result ≡ tag ∷ to_be_bytes w32 owned.now.number ++ to_be_bytes w32 owned.now.serial }
{
    let [a, b, c, d] = owned.number.to_be_bytes();
    let [e, f, g, h] = owned.serial.to_be_bytes();
    [tag, a, b, c, d, e, f, g, h]
}

#[tactic(auto, using(frame_rules::proofs::Digits::be_back))]
fn address_in(bytes: &[u8]) -> Option<u128>
    ensures some { IfSome result (λ address. bytes.now ≡ to_be_bytes w128 address) }
    ensures none { IsNone result → length bytes.now ≡ 16 → ⊥ }
{
    if bytes.len() != 16 {
        return None;
    }
    let mut number = [0; 16];
    number.copy_from_slice(bytes);
    Some(u128::from_be_bytes(number))
}

fn own_in(bytes: &[u8]) -> Option<u32>
    ensures some { IfSome result (λ own. bytes.now ≡ to_be_bytes w32 own) }
    ensures none { IsNone result → length bytes.now ≡ 4 → ⊥ }
{
    let [a, b, c, d] = bytes else {
        return None;
    };
    Some(u32::from_be_bytes([*a, *b, *c, *d]))
}

fn box_in(bytes: &[u8]) -> Option<OwnedBox>
    ensures some { IfSome result (λ b. bytes.now ≡ to_be_bytes w32 b.number ++ to_be_bytes w32 b.serial) }
    ensures none { IsNone result → length bytes.now ≡ 8 → ⊥ }
{
    let [a, b, c, d, e, f, g, h] = bytes else {
        return None;
    };
    Some(OwnedBox {
        number: u32::from_be_bytes([*a, *b, *c, *d]),
        serial: u32::from_be_bytes([*e, *f, *g, *h]),
    })
}

fn write_in(bytes: &[u8]) -> Option<Request<'_>>
    ensures some { IfSome result (λ request. 5 ∷ bytes.now ≡ note_record (plain_note (Note.Asked request))) }
    ensures none { IsNone result → length bytes.now < 16 }
{
    if bytes.len() < 16 {
        return None;
    }
    let (front, message) = bytes.split_at(16);
    let target = address_in(front)?;
    Some(Request::Write { target, message })
}

impl<'a> Note<'a> {
    /// The record: a tag, and what the note holds, numbers big-endian.
    pub fn record<'r>(&self, room: &'r mut [u8; NOTE_MAX]) -> &'r [u8]
        requires { FitsRecord (plain_note self.now) }
        ensures { result.now ≡ note_record (plain_note self.now) }
    {
        match *self {
            Note::Asked(Request::Register { address }) => put(&tagged(4, address), &[], room),
            Note::Asked(Request::Write { target, message }) => put(
                &tagged(5, target),
                message,
                room,
            ),
            Note::Asked(Request::Read { own }) => put(&tagged_own(6, own), &[], room),
            Note::Asked(Request::Retire { own }) => put(&tagged_own(7, own), &[], room),
            Note::Heard(frame) => put(&[8], frame, room),
            Note::Told => put(&[9], &[], room),
            Note::GivenUp => put(&[10], &[], room),
            Note::Owned(owned) => put(&tagged_box(11, &owned), &[], room),
            Note::Remark(words) => put(&[12], words, room),
        }
    }

    /// How many bytes the record has.
    pub(crate) fn size(&self) -> usize
        requires { FitsRecord (plain_note self.now) }
        ensures { result ≡ size_of (plain_note self.now) }
    {
        match *self {
            Note::Asked(Request::Register { address: _ }) => 17,
            Note::Asked(Request::Write { target: _, message }) => 17 + message.len(),
            Note::Asked(Request::Read { own: _ } | Request::Retire { own: _ }) => 5,
            Note::Heard(bytes) | Note::Remark(bytes) => 1 + bytes.len(),
            Note::Owned(_) => 9,
            Note::Told | Note::GivenUp => 1,
        }
    }

    /// The note that a record is, if it is one.
    pub fn of(bytes: &'a [u8]) -> Option<Note<'a>>
        ensures some { IfSome result (λ note. IsNote (plain_note note)) }
        ensures is { IfSome result (λ note. bytes.now ≡ note_record (plain_note note)) }
        ensures none { IsNone result → IsNoNote bytes.now }
    {
        let (tag, rest) = bytes.split_first()?;
        match *tag {
            4 => {
                let address = address_in(rest)?;
                Some(Note::Asked(Request::Register { address }))
            }
            5 => {
                let request = write_in(rest)?;
                Some(Note::Asked(request))
            }
            6 => {
                let own = own_in(rest)?;
                Some(Note::Asked(Request::Read { own }))
            }
            7 => {
                let own = own_in(rest)?;
                Some(Note::Asked(Request::Retire { own }))
            }
            8 if whole(rest).is_ok() => Some(Note::Heard(rest)),
            9 if rest.is_empty() => Some(Note::Told),
            10 if rest.is_empty() => Some(Note::GivenUp),
            11 => {
                let owned = box_in(rest)?;
                Some(Note::Owned(owned))
            }
            12 => Some(Note::Remark(rest)),
            _ => None,
        }
    }
}
