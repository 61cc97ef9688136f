//! A client that writes each request and each reply to a journal before it acts on it.
ghost use Rattle.std.specs.Prelude.{◌≡◌, ◌≢◌, ◌↔◌, ◌≤◌, ◌<◌, ◌^◌, ℕ, List, [], true, false, length, take, drop, map, nat_le, is_none, Some, None, Ok, Err, IfOk, IfErr, OnOk, OnErr, IsOk, option_map};
ghost use Rattle.frame_rules.specs.Room.{HasRoom};
ghost use Rattle.step_rules.specs.ClientAsks.{asked, sends};
ghost use Rattle.step_rules.specs.ClientReplies.{on_reply};
ghost use Rattle.client_core.specs.Requests.{plain_request, fault_in};
ghost use Rattle.client_core.specs.Answers.{addressed, bytes_of, progress_in};
ghost use Rattle.client_core.specs.LastProof.{at_last_proof};
ghost use Rattle.node_journal.specs.Disk.{IsUntouched, Within};
ghost use Rattle.node_journal.specs.Records.{content, GivesNoByte, IsUndamaged};
ghost use Rattle.client_restart.specs.Cores.{ended_in};
ghost use Rattle.kept_machine.specs.Faults.{OnForeign, OnDamaged, OnNotEmpty, OnFull, OnNoMemory, OnStill, IsOfCreate, IsOfReopen, CountsFault};
ghost use Rattle.client_restart.specs.Hears.{IsTaken, makes_step_at};
ghost use Rattle.client_restart.specs.Notes.{FitsRecord, GivenUp, Heard, IsNote, Owned, Remark, Told, plain_note};
ghost use Rattle.client_restart.specs.Openings.{IsClientOpening};
ghost use Rattle.client_restart.specs.Records.{IsForeign};
ghost use Rattle.client_restart.specs.Steps.{fold};

use crate::ended::Ended;
use crate::hearing::{asked_note, is_one_frame, makes_step};
use crate::machine::OpenedClient;
use crate::note::Note;
use crate::opening::ClientOpening;
use crate::owned_box::OwnedBox;
use client_core::{AskFault, Progress, Request};
use kept_machine::{KeepFault, Kept};
use node_journal::Disk;
use std::alloc::Global;
use std::marker::Model;

/// A client with its journal and the journal's disk.
#[derive(Drop)]
pub struct KeptClient<D: Disk> {
    kept: Kept<OpenedClient, D>,
}

impl<D: Disk> Model for KeptClient<D> {
    ghost use Rattle.client_restart.specs.Kept.{ClientState, state_of};

    ghost Value = { ClientState D };

    ghost view = { λ k. state_of k.kept };
}

impl<D: Disk> KeptClient<D> {
    ghost use Rattle.client_restart.specs.Kept.{HoldsNoNotes, HoldsNotes, HoldsWholeNotes, IsDamagedBehindNotes, IsSoundFirst, IsToldBy, MakesOnly, OnDisk, StandsByNotes};
    ghost use Rattle.client_restart.specs.Keeps.{CallKeeps, KeepsIfTaken};

    /// A client before its first request, on a disk with no byte. No more than `limit` bytes of the disk will
    /// be used.
    pub fn create(
        alloc: Global,
        opening: &ClientOpening,
        disk: D,
        limit: u64,
    ) -> Result<KeptClient<D>, (KeepFault, D)>
        requires opening { IsClientOpening opening.now }
        requires limit { limit ≤ 2 ^ 62 }
        ensures opening { IfOk result (λ k. k.opening ≡ opening.now) }
        ensures core { IfOk result (λ k. k.core ≡ fold opening.now []) }
        ensures journal { IfOk result (λ k.
            k.journal ≡ record { end = 52; limit = limit; ready = true; closed = false }) }
        ensures held { IfOk result (λ k. HoldsNotes opening.now [] (D.disk k.disk).reads) }
        ensures undamaged { IfOk result (λ k. (c : List ℕ) → (D.disk k.disk).reads c
            → IsUndamaged limit 0 c) }
        ensures durable { IfOk result (λ k. Within (D.disk k.disk).may_leave (D.disk k.disk).reads) }
        ensures empty { OnOk result (GivesNoByte (D.disk disk).reads) }
        ensures fits { OnOk result (53 ≤ limit) }

        ensures cause { IfErr result (λ x. IsOfCreate x.0) }
        ensures not_empty { IfErr result (λ x. OnNotEmpty x.0 ((c : List ℕ) → (D.disk disk).reads c
            → c ≢ [])) }
        ensures full { IfErr result (λ x. OnFull x.0 (λ n. (n ≡ 0) × (limit < 53)
            × GivesNoByte (D.disk disk).reads)) }
        ensures not_empty_stays { IfErr result
            (λ x. OnNotEmpty x.0 (IsUntouched (D.disk disk) (D.disk x.1))) }
        ensures full_stays { IfErr result (λ x. OnFull x.0 (λ n. IsUntouched (D.disk disk) (D.disk x.1))) }
        ensures no_memory_stays { IfErr result (λ x. OnNoMemory x.0 (x.1 ≡ disk)) }
        ensures counts_ok { IfOk result (λ k. (D.Counted.seen k.disk).faults ≡ (D.Counted.seen disk).faults) }
        ensures counts { IfErr result
            (λ x. CountsFault (D.Counted.seen disk).faults (D.Counted.seen x.1).faults x.0) }

        // Where a crash before the call leaves no byte, a crash at any moment of it leaves no record, or
        // exactly the opening's.
        ensures any_moment { OnDisk result (λ d. MakesOnly limit opening.now (D.disk disk) (D.disk d)) }
    {
        let first = opening.record();
        match Kept::create(alloc, &first, disk, limit) {
            Ok(kept) => Ok(KeptClient { kept }),
            Err((fault, disk)) => Err((fault, disk)),
        }
    }

    /// The client that the records on a disk give: it stands at the step at which it stood.
    pub fn reopen(alloc: Global, disk: D, limit: u64) -> Result<KeptClient<D>, (KeepFault, D)>
        requires limit { limit ≤ 2 ^ 62 }
        // What stands on the disk is an opening and notes, and the client is their fold.
        ensures is_opening { IfOk result (λ k. IsClientOpening k.opening) }
        ensures stands { IfOk result (λ k. StandsByNotes k.opening k.core (D.disk disk).reads) }
        ensures told { IfOk result (λ k. IsToldBy (D.disk disk).reads k.opening k.core) }
        ensures undamaged { IfOk result (λ k. (c : List ℕ) → (D.disk k.disk).reads c
            → IsUndamaged limit 0 c) }
        ensures durable { IfOk result (λ k. Within (D.disk k.disk).may_leave (D.disk k.disk).reads) }
        ensures limit { IfOk result (λ k. k.journal.limit ≡ limit) }
        ensures still_open { IfOk result (λ k. k.journal.closed ≡ false) }
        ensures untouched_ok { IfOk result (λ k. IsUntouched (D.disk disk) (D.disk k.disk)) }

        ensures cause { IfErr result (λ x. IsOfReopen x.0) }
        ensures foreign { IfErr result (λ x. OnForeign x.0 (λ n. (c : List ℕ) → (D.disk disk).reads c
            → IsForeign n (content c))) }
        ensures never_foreign { IfErr result (λ x. OnForeign x.0 (λ n. HoldsNoNotes (D.disk disk).reads)) }
        ensures foreign_first { IfErr result
            (λ x. OnForeign x.0 (λ n. n ≡ 0 → IsSoundFirst limit (D.disk disk).reads)) }
        ensures damaged { IfErr result (λ x. OnDamaged x.0 (λ n. (c : List ℕ) → (D.disk disk).reads c
            → IsDamagedBehindNotes limit n c)) }
        ensures never_damaged { IfErr result (λ x. OnDamaged x.0 (λ n. (c : List ℕ) → (D.disk disk).reads c
            → IsUndamaged limit 0 c → ⊥)) }
        // A want of memory hides nothing that is wrong with the records.
        ensures no_memory { IfErr result
            (λ x. OnNoMemory x.0 (HoldsWholeNotes limit (D.disk disk).reads)) }
        ensures untouched { IfErr result (λ x. IsUntouched (D.disk disk) (D.disk x.1)) }
        ensures counts_ok { IfOk result (λ k. (D.Counted.seen k.disk).faults ≡ (D.Counted.seen disk).faults) }
        ensures counts { IfErr result
            (λ x. CountsFault (D.Counted.seen disk).faults (D.Counted.seen x.1).faults x.0) }
    {
        match Kept::reopen(alloc, disk, limit) {
            Ok(kept) => Ok(KeptClient { kept }),
            Err((fault, disk)) => Err((fault, disk)),
        }
    }

    // A note is on the disk before its step. What the journal won't write is told before memory is asked for.
    fn take(&mut self, note: &Note<'_>) -> Result<(), KeepFault>
        requires is_note { IsNote (plain_note note.now) }
        requires fits { FitsRecord (plain_note note.now) }
        ensures keeps { CallKeeps D.disk D.Counted.seen (plain_note note.now) self.old self.new result }
        ensures stays { OnStill result (self.new ≡ self.old) }
    {
        kept_machine::take(&mut self.kept, note, &mut [])
    }

    /// Takes a request, which is on the disk before its first frame can be had. `Ok(Err(_))` is the refusal
    /// of `Client::ask`, and then nothing is kept.
    pub fn ask(&mut self, request: &Request<'_>) -> Result<Result<(), AskFault>, KeepFault>
        ensures refused { IfOk result (λ taken. IfErr taken (λ fault.
            asked self.old.core.client (plain_request request.now) ≡ Err (fault_in fault))) }
        ensures refused_stays { IfOk result (λ taken. OnErr taken (self.new ≡ self.old)) }
        ensures taken { IfOk result
            (λ taken. OnOk taken (IsTaken self.old.core (plain_request request.now))) }
        ensures not_kept { OnErr result (IsTaken self.old.core (plain_request request.now)) }
        ensures keeps { KeepsIfTaken D.disk D.Counted.seen request.now self.old self.new result }
        ensures stays { OnStill result (self.new ≡ self.old) }
    {
        match self.kept.machine().core.client.fault_at(request) {
            Some(fault) => Ok(Err(fault)),
            None => match self.take(&asked_note(request)) {
                Ok(()) => Ok(Ok(())),
                Err(fault) => Err(fault),
            },
        }
    }

    /// Writes the frame of the present step to the front of `out`, and gives the server that it goes to, the
    /// leader 0 or the helper 1, and its length in bytes. None exactly where no request is current. The frame
    /// is the same each time, also after a reopening.
    pub fn send(&self, out: &mut [u8]) -> Option<(u8, usize)>
        requires room { HasRoom out.old }
        ensures none { (result ≡ None) ↔ (self.now.core.client.current ≡ None) }
        ensures sent { result ≡ option_map addressed (sends self.now.core.client) }
        ensures written { let frame = bytes_of (sends self.now.core.client) in
            take (length frame) out.new ≡ frame }
        ensures rest { let count = length (bytes_of (sends self.now.core.client)) in
            drop count out.new ≡ drop count out.old }
        // The client that sends is the one that the disk gives, so its request is on the disk.
        ensures stands { self.now.journal.closed ≡ false
            → StandsByNotes self.now.opening self.now.core (D.disk self.now.disk).reads }
        ensures durable { self.now.journal.closed ≡ false
            → Within (D.disk self.now.disk).may_leave (D.disk self.now.disk).reads }
    {
        self.kept.machine().core.client.send(out)
    }

    /// Takes a server's bytes, which may be any, as a reply to the present step. A reply that makes a step is
    /// on the disk before it; one that is ignored or comes too early isn't kept, since it changes nothing. An
    /// outcome stands among those that weren't told from then on.
    pub fn hear(&mut self, frame: &[u8]) -> Result<Progress, KeepFault>
        ensures progress { IfOk result (λ p.
            p ≡ progress_in (on_reply self.old.core.client frame.now).progress) }
        ensures no_step { makes_step_at self.old.core frame.now ≡ false
            → IsOk result × (self.new ≡ self.old) }
        ensures keeps { makes_step_at self.old.core frame.now ≡ true
            → CallKeeps D.disk D.Counted.seen (Heard frame.now) self.old self.new result }
        ensures stays { OnStill result (self.new ≡ self.old) }
    {
        let progress = self.kept.machine().core.client.progress_at(frame);
        if !makes_step(&progress) {
            return Ok(progress);
        }
        if !is_one_frame(frame) {
            return Ok(progress);
        }
        match self.take(&Note::Heard(frame)) {
            Ok(()) => Ok(progress),
            Err(fault) => Err(fault),
        }
    }

    /// What `hear` would answer to these bytes, where the disk takes them. Nothing changes.
    pub fn progress_at(&self, frame: &[u8]) -> Progress
        ensures { result ≡ progress_in (on_reply self.now.core.client frame.now).progress }
    {
        self.kept.machine().core.client.progress_at(frame)
    }

    /// Whether the present step is a write's last proof, the one to the leader.
    pub fn is_at_last_proof(&self) -> bool
        ensures { result ≡ at_last_proof self.now.core.client.current }
    {
        self.kept.machine().core.client.is_at_last_proof()
    }

    /// The requests that have ended and weren't told yet, the oldest first.
    pub fn untold(&self) -> &[Ended]
        ensures { map ended_in result.now ≡ self.now.core.untold }
    {
        &self.kept.machine().core.untold
    }

    /// The oldest of those that weren't told was told: it is with the user. Until then it is told again after
    /// each reopening.
    pub fn told(&mut self) -> Result<(), KeepFault>
        requires some { self.old.core.untold ≢ [] }
        ensures keeps { CallKeeps D.disk D.Counted.seen Told self.old self.new result }
        ensures stays { OnStill result (self.new ≡ self.old) }
    {
        self.take(&Note::Told)
    }

    /// Gives up the current request, as one whose answer can't come any more. Its serial never comes again.
    pub fn give_up(&mut self) -> Result<(), KeepFault>
        requires busy { self.old.core.client.current ≢ None }
        ensures keeps { CallKeeps D.disk D.Counted.seen GivenUp self.old self.new result }
        ensures stays { OnStill result (self.new ≡ self.old) }
    {
        self.take(&Note::GivenUp)
    }

    /// Owns the box of this number, which this serial registered in an earlier journal of the same seed and
    /// lane.
    pub fn own(&mut self, number: u32, serial: u32) -> Result<(), KeepFault>
        requires idle { self.old.core.client.current ≡ None }
        requires room { nat_le self.old.core.client.capacity (length self.old.core.client.owned) ≡ false }
        ensures keeps { CallKeeps D.disk D.Counted.seen (Owned number serial) self.old self.new result }
        ensures stays { OnStill result (self.new ≡ self.old) }
    {
        self.take(&Note::Owned(OwnedBox { number, serial }))
    }

    /// Keeps words of the program above, which mean nothing to the client.
    pub fn remark(&mut self, words: &[u8]) -> Result<(), KeepFault>
        requires few { length words.now ≤ 8213 }
        ensures keeps { CallKeeps D.disk D.Counted.seen (Remark words.now) self.old self.new result }
        ensures stays { OnStill result (self.new ≡ self.old) }
    {
        self.take(&Note::Remark(words))
    }

    /// The words that were kept, in order.
    pub fn remarks(&self) -> &[Vec<u8>]
        ensures { map (λ words. words.items) result.now ≡ self.now.core.remarks }
    {
        &self.kept.machine().core.remarks
    }

    /// The client's boxes, in the order in which it got them: a read of the own box k reads that at place k.
    pub fn boxes(&self) -> &[OwnedBox]
        ensures { result.now ≡ self.now.core.boxes }
    {
        &self.kept.machine().core.boxes
    }

    /// The current request.
    pub fn request(&self) -> Option<Request<'_>>
        ensures { option_map plain_request result
            ≡ option_map (λ now. now.request) self.now.core.client.current }
    {
        self.kept.machine().core.client.request()
    }

    /// Whether no request is current.
    pub fn is_idle(&self) -> bool
        ensures { result ≡ is_none self.now.core.client.current }
    {
        self.kept.machine().core.client.is_idle()
    }

    /// Whether there is no room for another own box.
    pub fn is_full(&self) -> bool
        ensures { result ≡ nat_le self.now.core.client.capacity (length self.now.core.client.owned) }
    {
        self.kept.machine().core.client.is_full()
    }

    /// The serial of the current request, or else of the next one; 2^32 where all are spent. A journal that
    /// follows this one begins with it.
    pub fn serial(&self) -> u64
        ensures { result ≡ self.now.core.client.serial }
    {
        self.kept.machine().core.client.serial()
    }

    /// How many bytes of the disk the records take. With the limit it tells how full the journal is.
    pub fn used(&self) -> u64
        ensures { result ≡ self.now.journal.end }
    {
        self.kept.used()
    }

    /// How the client was opened.
    pub fn opening(&self) -> &ClientOpening
        ensures value { result.now ≡ self.now.opening }
        ensures is { IsClientOpening result.now }
    {
        &self.kept.machine().opening
    }

    /// The disk, as the last call left it.
    pub fn into_disk(self) -> D
        ensures { result ≡ self.disk }
    {
        let KeptClient { kept } = self;
        kept.into_disk()
    }
}
