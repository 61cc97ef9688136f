//! The records of notes.
ghost use Rattle.std.specs.Prelude.{◌≡◌, ◌≤◌, ◌∷◌, ◌++◌, [], length};
ghost use Rattle.std.specs.Int.{w32, w64, w128, to_be_bytes};
ghost use Rattle.kept_ledger.specs.Notes.{FitsRecord, IsNote, address_bytes, day_bytes, denial_byte};
ghost use Rattle.kept_ledger.specs.Notes.{denied_bytes, handling_tag, marked_bytes, note_record, own_bytes};
ghost use Rattle.kept_ledger.specs.Notes.{IsWanted, plain_note, plain_reading, plain_wanted, reading_bytes};
ghost use Rattle.kept_ledger.specs.Notes.{task_record, until_bytes, wanted_bytes};

use crate::digits::{ADDRESSES_LEN, address_bytes};
use crate::entry::{Denial, Denied, Handling, Marked, OwnBox};
use crate::note::{CarriedReading, LedgerNote, WantedBoxes};
use crate::parts::{day_bytes, put, put_three, until_bytes};
use crate::task::Task;
use desk_texts::Day;
use node_journal::RECORD_MAX;

// A tag, and behind it an address.
fn tagged_address(tag: u8, address: u128) -> [u8; 17]
    ensures { result ≡ tag ∷ to_be_bytes w128 address }
{
    let mut bytes = [tag; 17];
    bytes[1..].copy_from_slice(&address.to_be_bytes());
    bytes
}

// A tag, and behind it a number of four bytes.
fn tagged_word(tag: u8, number: u32) -> [u8; 5]
    ensures { result ≡ tag ∷ to_be_bytes w32 number }
{
    let [a, b, c, d] = number.to_be_bytes();
    [tag, a, b, c, d]
}

fn tagged_long(tag: u8, number: u64) -> [u8; 9]
    ensures { result ≡ tag ∷ to_be_bytes w64 number }
{
    let [a, b, c, d, e, f, g, h] = number.to_be_bytes();
    [tag, a, b, c, d, e, f, g, h]
}

fn handling_tag(handling: Handling) -> u8
    ensures { result ≡ handling_tag handling }
{
    match handling {
        Handling::Shown => 52,
        Handling::Written => 53,
    }
}

fn marked_record(marked: &Marked) -> [u8; 18]
    ensures { result ≡ handling_tag marked.now.handling ∷ marked_bytes marked.now }
{
    let [a, b, c, d, e, f, g, h] = marked.mark.id.to_be_bytes();
    let [i, j, k, l, m, n, o, p] = marked.seconds.to_be_bytes();
    let tag = handling_tag(marked.handling);
    [
        tag,
        a,
        b,
        c,
        d,
        e,
        f,
        g,
        h,
        marked.mark.parts,
        i,
        j,
        k,
        l,
        m,
        n,
        o,
        p,
    ]
}

fn own_front(owned: &OwnBox) -> [u8; 9]
    ensures { result ≡ 60 ∷ to_be_bytes w32 owned.now.number ++ to_be_bytes w32 owned.now.serial }
{
    let [a, b, c, d] = owned.number.to_be_bytes();
    let [e, f, g, h] = owned.serial.to_be_bytes();
    [60, a, b, c, d, e, f, g, h]
}

fn denial_byte(denial: Denial) -> u8
    ensures { result ≡ denial_byte denial }
{
    match denial {
        Denial::Taken => 0,
        Denial::Full => 1,
        Denial::Retired => 2,
    }
}

fn wanted_front(until: &Option<Day>, count: u8) -> [u8; 6]
    ensures { result ≡ 49 ∷ until_bytes until.now ++ count ∷ [] }
{
    let [a, b, c, d] = until_bytes(until);
    [49, a, b, c, d, count]
}

#[tactic(auto, using(crate::proofs::TextLaws::name_short, crate::proofs::AddressLaws::flat_size))]
fn put_wanted<'r>(wanted: &WantedBoxes<'_>, room: &'r mut [u8; RECORD_MAX]) -> &'r [u8]
    requires { IsWanted (plain_wanted wanted.now) }
    ensures { result.now ≡ 49 ∷ wanted_bytes (plain_wanted wanted.now) }
{
    let mut bytes = [0; ADDRESSES_LEN];
    let addresses = address_bytes(wanted.addresses, &mut bytes);
    let head = wanted_front(&wanted.until, wanted.addresses.len() as u8);
    put_three(&head, addresses, wanted.name.as_bytes(), room)
}

fn put_closed<'r>(day: &Day, name: &str, room: &'r mut [u8; RECORD_MAX]) -> &'r [u8]
    requires { length name.now ≤ 32 }
    ensures { result.now ≡ 50 ∷ day_bytes day.now ++ name.now }
{
    let [a, b, c, d] = day_bytes(day);
    put(&[50, a, b, c, d], name.as_bytes(), room)
}

fn put_task<'r>(task: Task, room: &'r mut [u8; RECORD_MAX]) -> &'r [u8]
    ensures { result.now ≡ task_record task }
{
    match task {
        Task::Register(address) => put(&tagged_address(54, address), &[], room),
        Task::Read(own) => put(&tagged_word(55, own), &[], room),
        Task::Retire(own) => put(&tagged_word(56, own), &[], room),
    }
}

fn put_owned<'r>(owned: &OwnBox, room: &'r mut [u8; RECORD_MAX]) -> &'r [u8]
    ensures { result.now ≡ 60 ∷ own_bytes owned.now }
{
    put(&own_front(owned), &owned.address.to_be_bytes(), room)
}

fn put_denied<'r>(denied: &Denied, room: &'r mut [u8; RECORD_MAX]) -> &'r [u8]
    ensures { result.now ≡ 61 ∷ denied_bytes denied.now }
{
    put(
        &[61, denial_byte(denied.denial)],
        &denied.address.to_be_bytes(),
        room,
    )
}

fn put_carried<'r>(carried: &CarriedReading<'_>, room: &'r mut [u8; RECORD_MAX]) -> &'r [u8]
    requires { length carried.now.bytes.now ≤ 8189 }
    ensures { result.now ≡ 62 ∷ reading_bytes (plain_reading carried.now) }
{
    let head = tagged_long(62, carried.seconds);
    put_three(&head, &carried.address.to_be_bytes(), carried.bytes, room)
}

impl<'a> LedgerNote<'a> {
    /// The record: a tag, and what the note holds.
    #[tactic(auto, using(crate::proofs::TextLaws::name_short))]
    pub fn record<'r>(&self, room: &'r mut [u8; RECORD_MAX]) -> &'r [u8]
        requires is { IsNote (plain_note self.now) }
        requires fits { FitsRecord (plain_note self.now) }
        ensures { result.now ≡ note_record (plain_note self.now) }
    {
        match *self {
            LedgerNote::Named(wanted) => put_wanted(&wanted, room),
            LedgerNote::Closed(closed) => put_closed(&closed.day, closed.name, room),
            LedgerNote::Retiring(name) => put(&[51], name.as_bytes(), room),
            LedgerNote::Marked(marked) => put(&marked_record(&marked), &[], room),
            LedgerNote::Asked(task) => put_task(task, room),
            LedgerNote::Time(seconds) => put(&tagged_long(57, seconds), &[], room),
            LedgerNote::Heard(frame) => put(&[58], frame, room),
            LedgerNote::GivenUp => put(&[59], &[], room),
            LedgerNote::Owned(owned) => put_owned(&owned, room),
            LedgerNote::Denied(denied) => put_denied(&denied, room),
            LedgerNote::Carried(carried) => put_carried(&carried, room),
        }
    }
}
