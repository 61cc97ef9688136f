//! How a try is taken up again.
ghost use Rattle.std.specs.Prelude.{◌≡◌, ◌≢◌, ◌≤◌, ◌↔◌, ℕ, List, None, IfOk, IfErr, IfSome, IsTrue, length, map};
ghost use Rattle.node_journal.specs.Disk.{IsUntouched};
ghost use Rattle.node_journal.specs.Records.{IsUndamaged};
ghost use Rattle.kept_machine.specs.Faults.{CountsFault, IsNoMemoryOrForeign, IsOfReopen, OnDamaged, OnForeign, OnNoMemory};
ghost use Rattle.client_restart.specs.Kept.{HoldsWholeNotes, StandsByNotes};
ghost use Rattle.client_restart.specs.Openings.{IsClientOpening};
ghost use Rattle.kept_machine.specs.declared.fault.KeepFault.TheVariants.{NoMemory};
ghost use Rattle.desk_texts.specs.Spelling.{IsSheet, SpellsSheet};
ghost use Rattle.desk_outbox.specs.Begun.{IsBegun};
ghost use Rattle.desk_outbox.specs.Outboxes.{IsWrite};
ghost use Rattle.desk_outbox.specs.Reopening.{HasEnds, HoldsOnly, IfNothing, IfWhole, IsNoTry, IsNoTryOf, IsNoWhole, IsUnbegun, SpellsNoSheet, TellNothing, Tells};

use crate::outbox::{OUTBOX_LIMIT, Outbox};
use crate::place::Place;
use client_core::Request;
use client_restart::{ClientOpening, KeepFault, KeptClient};
use desk_texts::{Head, Sheet, read_sheet, sheet_is_read_exactly};
use express_texts::TextFault;
use node_journal::Disk;
use std::alloc::Global;

/// The record of the card's text, behind that of the opening.
const CARD_AT: u64 = 1;

/// What stands on a disk.
#[derive(Drop)]
pub enum Reopened<D: Disk> {
    /// A try.
    Whole(Outbox<D>),
    /// No whole one, and nothing was sent for it: its disk.
    Nothing(D),
}

// The first and the last of at least two remarks.
fn ends_of(remarks: &[Vec<u8>]) -> Option<(&[u8], &[u8])>
    ensures some { IfSome result (λ r. HasEnds r.0.now r.1.now (map (λ words. words.items) remarks.now)) }
    ensures none { result ≡ None → length remarks.now ≤ 1 }
{
    let [text, behind @ ..] = remarks else {
        return None;
    };
    let [.., last] = behind else {
        return None;
    };
    Some((text, last))
}

// The card that a text spells.
fn card_in(alloc: Global, text: &[u8]) -> Result<Sheet, KeepFault>
    ensures card { IfOk result (λ card. SpellsSheet card text.now) }
    ensures none { IfErr result (λ why. why ≢ NoMemory → SpellsNoSheet text.now) }
    ensures cause { IfErr result IsNoMemoryOrForeign }
{
    sheet_is_read_exactly();
    match read_sheet(alloc, text) {
        Ok(card) => Ok(card),
        Err(TextFault::NoMemory) => Err(KeepFault::NoMemory),
        Err(TextFault::Wrong(_)) => Err(KeepFault::Foreign(CARD_AT)),
        Err(TextFault::WrongKey(_)) => Err(KeepFault::Foreign(CARD_AT)),
    }
}

// The card and the place that the remarks tell.
fn remembered(alloc: Global, remarks: &[Vec<u8>]) -> Result<(Sheet, Place), KeepFault>
    ensures told { IfOk result (λ r. Tells (map (λ words. words.items) remarks.now) r.0 r.1) }
    ensures foreign { IfErr result (λ why. why ≢ NoMemory
        → TellNothing (map (λ words. words.items) remarks.now)) }
    ensures cause { IfErr result IsNoMemoryOrForeign }
{
    let Some((text, last)) = ends_of(remarks) else {
        return Err(KeepFault::Foreign(CARD_AT));
    };
    let Some(place) = Place::of(last) else {
        return Err(KeepFault::Foreign(CARD_AT));
    };
    match card_in(alloc, text) {
        Ok(card) => Ok((card, place)),
        Err(fault) => Err(fault),
    }
}

// Whether a try can stand so: at an address of the card, on one of its lanes, with a message for its boxes.
fn is_try(card: &Sheet, place: &Place, opening: &ClientOpening, len: usize) -> bool
    requires sheet { IsSheet card.now }
    requires opening { IsClientOpening opening.now }
    ensures { (message : List ℕ) → length message ≡ len
        → IsTrue result ↔ IsBegun card.now place.now opening.now message }
{
    let count = card.addresses.as_slice().len();
    match card.head {
        Head::Pair(_) => false,
        Head::Card(head) => {
            usize::from(place.first) < count
                && usize::from(place.address) < count
                && head.width == opening.width
                && len == opening.width as usize
                && head.from <= opening.lane
                && opening.lane <= head.to
        }
    }
}

// How many bytes the current write has. None where no write is current.
fn written_len<D: Disk>(client: &KeptClient<D>) -> Option<usize>
    ensures some { IfSome result (λ len. IsWrite len client.now.core.client.current) }
    ensures none { result ≡ None → IsNoTry client.now.core }
{
    match client.request() {
        Some(Request::Write { target: _, message }) => Some(message.len()),
        Some(Request::Register { .. }) => None,
        Some(Request::Read { .. }) => None,
        Some(Request::Retire { .. }) => None,
        None => None,
    }
}

// The try that a client holds, if it is a whole one.
fn held<D: Disk>(alloc: Global, client: KeptClient<D>) -> Result<Reopened<D>, (KeepFault, D)>
    ensures whole { IfOk result (IfWhole (λ o.
        (o.kept ≡ client) × Tells client.core.remarks o.card o.place)) }
    ensures nothing { IfOk result (IfNothing (λ disk. (disk ≡ client.disk) × IsNoTry client.core)) }
    ensures foreign { IfErr result (λ x. x.0 ≢ NoMemory → IsNoWhole client.opening client.core) }
    ensures disk { IfErr result (λ x. x.1 ≡ client.disk) }
    ensures cause { IfErr result (λ x. IsNoMemoryOrForeign x.0) }
{
    sheet_is_read_exactly();
    let Some(len) = written_len(&client) else {
        return Ok(Reopened::Nothing(client.into_disk()));
    };
    match remembered(alloc, client.remarks()) {
        Err(fault) => Err((fault, client.into_disk())),
        Ok((card, place)) => {
            if !is_try(&card, &place, client.opening(), len) {
                return Err((KeepFault::Foreign(CARD_AT), client.into_disk()));
            }
            Ok(Reopened::Whole(Outbox {
                client,
                card,
                place,
            }))
        }
    }
}

impl<D: Disk> Outbox<D> {
    /// The try that stands on a disk, as it stood.
    #[tactic(auto, using(crate::proofs::ReopenLaws::still_counts))]
    pub fn reopen(alloc: Global, disk: D) -> Result<Reopened<D>, (KeepFault, D)>
        ensures stands { IfOk result (IfWhole (λ o. StandsByNotes o.kept.opening o.kept.core (D.disk disk).reads)) }
        ensures told { IfOk result (IfWhole (λ o. Tells o.kept.core.remarks o.card o.place)) }
        ensures nothing { IfOk result (IfNothing (λ d. HoldsOnly IsNoTryOf (D.disk disk).reads)) }
        ensures unbegun { IfOk result (IfNothing (λ d. IsUnbegun (D.disk disk).reads)) }
        ensures foreign { IfErr result (λ x. OnForeign x.0 (λ n. HoldsOnly IsNoWhole (D.disk disk).reads)) }
        ensures damaged { IfErr result (λ x. OnDamaged x.0 (λ n. (c : List ℕ) → (D.disk disk).reads c
            → IsUndamaged 65536 0 c → ⊥)) }
        // A want of memory hides nothing that is wrong with the records.
        ensures no_memory { IfErr result
            (λ x. OnNoMemory x.0 (HoldsWholeNotes 65536 (D.disk disk).reads)) }
        ensures cause { IfErr result (λ x. IsOfReopen x.0) }
        ensures untouched_whole { IfOk result
            (IfWhole (λ o. IsUntouched (D.disk disk) (D.disk o.kept.disk))) }
        ensures untouched_nothing { IfOk result (IfNothing (λ d. IsUntouched (D.disk disk) (D.disk d))) }
        ensures untouched { IfErr result (λ x. IsUntouched (D.disk disk) (D.disk x.1)) }
        // A fault of the disk is told only where there was one.
        ensures counts { IfErr result
            (λ x. CountsFault (D.Counted.seen disk).faults (D.Counted.seen x.1).faults x.0) }
    {
        match KeptClient::reopen(alloc, disk, OUTBOX_LIMIT) {
            Ok(client) => held(alloc, client),
            Err((KeepFault::Foreign(0), disk)) => Ok(Reopened::Nothing(disk)),
            Err((fault, disk)) => Err((fault, disk)),
        }
    }
}
