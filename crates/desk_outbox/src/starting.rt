//! How a try begins.
ghost use Rattle.std.specs.Prelude.{◌≡◌, ◌≤◌, [], Some, IfOk, IfErr, OnOk, length, slice_get};
ghost use Rattle.node_journal.specs.Records.{GivesNoByte};
ghost use Rattle.kept_machine.specs.Faults.{Counts, CountsFault};
ghost use Rattle.desk_draws.specs.Streams.{stream_from};
ghost use Rattle.desk_texts.specs.Printing.{printed};
ghost use Rattle.desk_texts.specs.Spelling.{IsSheet};
ghost use Rattle.desk_texts.specs.declared.sheet.CardHead.{CardHead};
ghost use Rattle.desk_texts.specs.declared.sheet.Head.TheVariants.{Card};
ghost use Rattle.desk_outbox.specs.Begun.{BeginsOnly, CountsStart, HasNoted, IsBegun, IsNoted, IsOfNoting, LeavesNoted, OnBeginning, OnKeep, RetriesOnly, StartsOnly, front_notes};
ghost use Rattle.desk_outbox.specs.Drawing.{behind_first};
ghost use Rattle.desk_outbox.specs.Outboxes.{IsCardSheet, OnDisk};
ghost use Rattle.desk_outbox.specs.Places.{address_at};
ghost use Rattle.desk_outbox.specs.Trying.{Begins, IsOfNext, IsOfStart, MakesLetter, OnLetter, OnSpent, Retries, Starts, left_by, left_for};

use crate::drawing::{first_lane, next_lane_and_serial};
use crate::fault::StartFault;
use crate::outbox::{OUTBOX_LIMIT, Outbox};
use crate::place::Place;
use client_core::Request;
use client_restart::{ClientOpening, KeepFault, KeptClient};
use desk_draws::Draws;
use desk_letters::seal;
use desk_texts::{CardHead, Head, Sheet, print, read_sheet};
use express_texts::TextFault;
use express_words::NoMemory;
use express_words::limits::MOST_WIDTH;
use node_journal::Disk;
use std::alloc::Global;

/// What a try is: a card, a place on it, how its client is opened, and the box's bytes.
#[derive(Clone, Copy)]
struct TryParts<'a> {
    card: &'a Sheet,
    place: Place,
    opening: ClientOpening,
    message: &'a [u8],
}

// The card once more, and its text.
#[tactic(auto, using(crate::proofs::CardLaws::same_sheet))]
fn copied(alloc: Global, card: &Sheet) -> Result<(Sheet, Vec<u8>), NoMemory>
    requires { IsSheet card.now }
    ensures card { IfOk result (λ r. r.0 ≡ card.now) }
    ensures text { IfOk result (λ r. r.1.items ≡ printed card.now) }
    ensures few { IfOk result (λ r. length r.1.items ≤ 4096) }
{
    let text = print(alloc, card)?;
    match read_sheet(alloc, &text) {
        Ok(card) => Ok((card, text)),
        Err(TextFault::NoMemory) => Err(NoMemory),
        Err(TextFault::Wrong(_)) => unreachable!(),
        Err(TextFault::WrongKey(_)) => unreachable!(),
    }
}

fn head_of(card: &Sheet) -> CardHead
    requires { IsCardSheet card.now }
    ensures { card.now.head ≡ Card result }
{
    match card.head {
        Head::Card(head) => head,
        Head::Pair(_) => unreachable!(),
    }
}

// The address at which a try stands.
fn target_of(card: &Sheet, place: &Place) -> u128
    requires { 1 ≤ length card.now.addresses }
    ensures { slice_get card.now.addresses (address_at (length card.now.addresses) place.now) ≡ Some result }
{
    let addresses = card.addresses.as_slice();
    let at = (usize::from(place.first) + usize::from(place.address)) % addresses.len();
    addresses[at]
}

// The card's text and where the try stands are on its disk.
fn note_place<D: Disk>(
    client: &mut KeptClient<D>,
    text: &[u8],
    begun: &TryParts<'_>,
) -> Result<(), KeepFault>
    requires text { text.now ≡ printed begun.now.card.now }
    requires few { length text.now ≤ 4096 }
    requires made { HasNoted D.disk begun.now.opening [] 52 client.old }
    ensures placed { OnOk result (HasNoted D.disk begun.now.opening
        (front_notes begun.now.card.now begun.now.place) 4170 client.new) }
    ensures fault { IfErr result IsOfNoting }
    ensures counts { Counts (D.Counted.seen client.old.disk).faults
        (D.Counted.seen client.new.disk).faults result }
    ensures leaves { LeavesNoted begun.now.card.now begun.now.place begun.now.opening begun.now.message.now
        (D.disk client.old.disk) (D.disk client.new.disk) }
{
    match client.remark(text) {
        Ok(()) => client.remark(&begun.place.record()),
        Err(fault) => Err(fault),
    }
}

// All that a try needs is on its disk: the card's text, where it stands, and last its request.
fn note_try<D: Disk>(
    client: &mut KeptClient<D>,
    text: &[u8],
    begun: &TryParts<'_>,
) -> Result<(), KeepFault>
    requires begun { IsBegun begun.now.card.now begun.now.place begun.now.opening begun.now.message.now }
    requires text { text.now ≡ printed begun.now.card.now }
    requires few { length text.now ≤ 4096 }
    requires made { HasNoted D.disk begun.now.opening [] 52 client.old }
    ensures noted { OnOk result (IsNoted D.disk begun.now.card.now begun.now.place begun.now.opening
        begun.now.message.now client.new) }
    ensures fault { IfErr result IsOfNoting }
    ensures counts { Counts (D.Counted.seen client.old.disk).faults
        (D.Counted.seen client.new.disk).faults result }
    ensures leaves { LeavesNoted begun.now.card.now begun.now.place begun.now.opening begun.now.message.now
        (D.disk client.old.disk) (D.disk client.new.disk) }
{
    match note_place(client, text, begun) {
        Ok(()) => {}
        Err(fault) => return Err(fault),
    }
    let request = Request::Write {
        target: target_of(begun.card, &begun.place),
        message: begun.message,
    };
    match client.ask(&request) {
        Ok(Ok(())) => Ok(()),
        Ok(Err(_)) => unreachable!(),
        Err(fault) => Err(fault),
    }
}

fn begin<D: Disk>(alloc: Global, begun: &TryParts<'_>, disk: D) -> Result<Outbox<D>, (KeepFault, D)>
    requires { IsBegun begun.now.card.now begun.now.place begun.now.opening begun.now.message.now }
    ensures begins { IfOk result (Begins D.disk begun.now.card.now begun.now.place begun.now.message.now) }
    ensures opening { IfOk result (λ o. o.kept.opening ≡ begun.now.opening) }
    ensures empty { OnOk result (GivesNoByte (D.disk disk).reads) }
    ensures keep { IfErr result (λ x. OnBeginning (D.disk disk).reads x.0) }
    ensures counts_ok { IfOk result
        (λ o. (D.Counted.seen o.kept.disk).faults ≡ (D.Counted.seen disk).faults) }
    ensures counts { IfErr result
        (λ x. CountsFault (D.Counted.seen disk).faults (D.Counted.seen x.1).faults x.0) }
    ensures any_moment { OnDisk result (λ d. BeginsOnly begun.now.card.now begun.now.place begun.now.opening
        begun.now.message.now (D.disk disk) (D.disk d)) }
{
    let Ok((card, text)) = copied(alloc, begun.card) else {
        return Err((KeepFault::NoMemory, disk));
    };
    match KeptClient::create(alloc, &begun.opening, disk, OUTBOX_LIMIT) {
        Err((fault, disk)) => Err((fault, disk)),
        Ok(client) => {
            let mut client = client;
            match note_try(&mut client, &text, begun) {
                Ok(()) => Ok(Outbox {
                    client,
                    card,
                    place: begun.place,
                }),
                Err(fault) => Err((fault, client.into_disk())),
            }
        }
    }
}

// A try's client has no boxes of its own.
fn opening_of(lane: u16, width: u32, first_serial: u32, seed: [u8; 32]) -> ClientOpening
    ensures { result ≡ record {
      lane = lane;
      width = width;
      capacity = 0;
      first_serial = first_serial;
      seed = seed;
    } }
{
    ClientOpening {
        lane,
        width,
        capacity: 0,
        first_serial,
        seed,
    }
}

impl<D: Disk> Outbox<D> {
    /// Begins the first try of a letter of this text, at an address of the card that is drawn by lot, on a disk with no
    /// byte. Its request is on the disk then; nothing was sent.
    pub fn start(
        alloc: Global,
        card: &Sheet,
        text: &[u8],
        draws: &mut Draws,
        disk: D,
    ) -> Result<Outbox<D>, (StartFault, D)>
        requires card { IsCardSheet card.now }
        ensures starts { (h : CardHead) → card.now.head ≡ Card h
            → IfOk result (Starts D.disk card.now h text.now (stream_from draws.old)) }
        ensures letter { (h : CardHead) → card.now.head ≡ Card h
            → OnOk result (MakesLetter h.width text.now) }
        ensures no_letter { (h : CardHead) → card.now.head ≡ Card h
            → IfErr result (λ x. OnLetter x.0 h.width text.now (x.1 ≡ disk)) }
        ensures cause { IfErr result (λ x. IsOfStart x.0) }
        ensures empty { OnOk result (GivesNoByte (D.disk disk).reads) }
        // Memory and the disk apart, a try that fits is begun on a disk with no byte.
        ensures keep { IfErr result (λ x. OnKeep (D.disk disk).reads x.0) }
        ensures counts_ok { IfOk result
            (λ o. (D.Counted.seen o.kept.disk).faults ≡ (D.Counted.seen disk).faults) }
        ensures counts { IfErr result
            (λ x. CountsStart (D.Counted.seen disk).faults (D.Counted.seen x.1).faults x.0) }
        // What was drawn isn't drawn again.
        ensures drawn { OnOk result (stream_from draws.new ≡ behind_first (stream_from draws.old)) }
        ensures left { IfErr result (λ x. stream_from draws.new ≡ left_by x.0 (stream_from draws.old)) }
        ensures any_moment { OnDisk result
            (λ d. StartsOnly card.now text.now (stream_from draws.old) (D.disk disk) (D.disk d)) }
    {
        let head = head_of(card);
        let seed = draws.seed();
        let mut room = [0u8; MOST_WIDTH as usize];
        let message = &mut room[..head.width as usize];
        if let Err(why) = seal(text, draws.id(), message) {
            return Err((StartFault::Letter(why), disk));
        }
        let first = (draws.number() % u64::from(head.addresses)) as u8;
        let (lane, first_serial) = first_lane(&head, draws);
        let begun = TryParts {
            card,
            place: Place::first_at(first),
            opening: opening_of(lane, head.width, first_serial, seed),
            message,
        };
        match begin(alloc, &begun, disk) {
            Ok(outbox) => Ok(outbox),
            Err((fault, disk)) => Err((StartFault::Keep(fault), disk)),
        }
    }

    /// Begins the next try on another disk with no byte: the same bytes, with a fresh seed, at the address where the try
    /// stands. Its request is on that disk then; nothing was sent.
    pub fn next_try<E: Disk>(
        &self,
        alloc: Global,
        draws: &mut Draws,
        disk: E,
    ) -> Result<Outbox<E>, (StartFault, E)>
        ensures retries { (h : CardHead) → self.now.card.head ≡ Card h
            → IfOk result (Retries E.disk h self.now (stream_from draws.old)) }
        ensures cause { IfErr result (λ x. IsOfNext x.0) }
        ensures spent { (h : CardHead) → self.now.card.head ≡ Card h
            → IfErr result (λ x. OnSpent h self.now (stream_from draws.old) x.0) }
        ensures empty { OnOk result (GivesNoByte (E.disk disk).reads) }
        ensures keep { IfErr result (λ x. OnKeep (E.disk disk).reads x.0) }
        ensures counts_ok { IfOk result
            (λ o. (E.Counted.seen o.kept.disk).faults ≡ (E.Counted.seen disk).faults) }
        ensures counts { IfErr result
            (λ x. CountsStart (E.Counted.seen disk).faults (E.Counted.seen x.1).faults x.0) }
        ensures drawn { (h : CardHead) → self.now.card.head ≡ Card h
            → stream_from draws.new ≡ left_for h self.now (stream_from draws.old) }
        ensures any_moment { OnDisk result
            (λ d. RetriesOnly self.now (stream_from draws.old) (E.disk disk) (E.disk d)) }
    {
        let last = *self.client.opening();
        let head = head_of(&self.card);
        let seed = draws.seed();
        let next = next_lane_and_serial(
            &head,
            last.lane,
            last.first_serial,
            self.place.named,
            draws,
        );
        let Some((lane, first_serial)) = next else {
            return Err((StartFault::Spent, disk));
        };
        let begun = TryParts {
            card: &self.card,
            place: self.place.next(),
            opening: opening_of(lane, last.width, first_serial, seed),
            message: self.message(),
        };
        match begin(alloc, &begun, disk) {
            Ok(outbox) => Ok(outbox),
            Err((fault, disk)) => Err((StartFault::Keep(fault), disk)),
        }
    }
}
