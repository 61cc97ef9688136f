//! A server that writes each frame to a journal before it acts on it.
ghost use Rattle.std.specs.Prelude.{◌≡◌, ◌≢◌, ◌↔◌, ◌≤◌, ◌<◌, ◌^◌, ℕ, List, [], true, false, length, take, drop, Some, None, IfOk, IfErr, OnOk, IfSome, IsNone, option_map};
ghost use Rattle.frame_rules.specs.Spelling.{spelling};
ghost use Rattle.leader_core.specs.Told.{sent_length};
ghost use Rattle.node_journal.specs.Disk.{IsUntouched, Within};
ghost use Rattle.node_journal.specs.Records.{content, GivesNoByte, IsUndamaged};
ghost use Rattle.frame_rules.specs.Room.{HasRoom};
ghost use Rattle.node_restart.specs.Openings.{IsOpening};
ghost use Rattle.node_restart.specs.Frames.{IsForeign, handed};
ghost use Rattle.node_restart.specs.Steps.{fold, share_in, resent_by, IsOldest, settings_of, role_of};
ghost use Rattle.kept_machine.specs.Faults.{OnForeign, OnDamaged, OnNotEmpty, OnFull, OnNoMemory, IsOfCreate, IsOfReopen, CountsFault};

use crate::did::Did;
use crate::frames::Sender;
use crate::machine::{Handing, Server};
use crate::opening::Opening;
use kept_machine::KeepFault;
use node_journal::Disk;
use std::alloc::Global;
use std::marker::Model;
use wire_frames::Received;

/// A server with its journal and the journal's disk. All of the server's memory is taken when it is made.
#[derive(Drop)]
pub struct Kept<D: Disk> {
    kept: kept_machine::Kept<Server, D>,
}

impl<D: Disk> Model for Kept<D> {
    ghost use Rattle.node_restart.specs.Kept.{KeptState, state_of};

    ghost Value = { KeptState D };

    ghost view = { λ k. state_of k.kept };
}

impl<D: Disk> Kept<D> {
    ghost use Rattle.node_restart.specs.Calls.{KeepsFrame};
    ghost use Rattle.node_restart.specs.Kept.{HoldsFrames, HoldsNoFrames, IsDamagedAt, IsToldBy, MakesOnly, OnDisk, Stands};

    /// A server before its first frame, on a disk with no byte. No more than `limit` bytes of the disk will
    /// be used.
    pub fn create(
        alloc: Global,
        opening: &Opening,
        disk: D,
        limit: u64,
    ) -> Result<Kept<D>, (KeepFault, D)>
        requires limit { limit ≤ 2 ^ 62 }
        ensures opening { IfOk result (λ k. k.opening ≡ opening.now) }
        ensures core { IfOk result (λ k. k.core ≡ fold opening.now []) }
        ensures journal { IfOk result (λ k.
            k.journal ≡ record { end = 50; limit = limit; ready = true; closed = false }) }
        ensures held { IfOk result (λ k. HoldsFrames opening.now [] (D.disk k.disk).reads) }
        ensures undamaged { IfOk result (λ k. (c : List ℕ) → (D.disk k.disk).reads c
            → IsUndamaged limit 0 c) }
        ensures durable { IfOk result (λ k. Within (D.disk k.disk).may_leave (D.disk k.disk).reads) }
        ensures empty { OnOk result (GivesNoByte (D.disk disk).reads) }
        ensures fits { OnOk result (51 ≤ limit) }

        ensures cause { IfErr result (λ x. IsOfCreate x.0) }
        ensures not_empty { IfErr result (λ x. OnNotEmpty x.0 ((c : List ℕ) → (D.disk disk).reads c
            → c ≢ [])) }
        ensures full { IfErr result (λ x. OnFull x.0 (λ n. (n ≡ 0) × (limit < 51)
            × GivesNoByte (D.disk disk).reads)) }
        ensures not_empty_stays { IfErr result
            (λ x. OnNotEmpty x.0 (IsUntouched (D.disk disk) (D.disk x.1))) }
        ensures full_stays { IfErr result (λ x. OnFull x.0 (λ n. IsUntouched (D.disk disk) (D.disk x.1))) }
        ensures no_memory_stays { IfErr result (λ x. OnNoMemory x.0 (x.1 ≡ disk)) }
        ensures counts_ok { IfOk result (λ k. (D.Counted.seen k.disk).faults ≡ (D.Counted.seen disk).faults) }
        ensures counts { IfErr result
            (λ x. CountsFault (D.Counted.seen disk).faults (D.Counted.seen x.1).faults x.0) }

        // Where a crash before the call leaves no byte, a crash at any moment of it leaves no record, or
        // exactly the opening's.
        ensures any_moment { OnDisk result (λ d. MakesOnly limit opening.now (D.disk disk) (D.disk d)) }
    {
        let first = opening.record();
        match kept_machine::Kept::create(alloc, &first, disk, limit) {
            Ok(kept) => Ok(Kept { kept }),
            Err((fault, disk)) => Err((fault, disk)),
        }
    }

    /// The server that the records on a disk give.
    pub fn reopen(alloc: Global, disk: D, limit: u64) -> Result<Kept<D>, (KeepFault, D)>
        requires limit { limit ≤ 2 ^ 62 }
        // What stands on the disk is an opening and frames, and the server is their fold.
        ensures is_opening { IfOk result (λ k. IsOpening k.opening) }
        ensures stands { IfOk result (λ k. Stands k.opening k.core (D.disk disk).reads) }
        ensures told { IfOk result (λ k. IsToldBy (D.disk disk).reads k.opening k.core) }
        ensures undamaged { IfOk result (λ k. (c : List ℕ) → (D.disk k.disk).reads c
            → IsUndamaged limit 0 c) }
        ensures durable { IfOk result (λ k. Within (D.disk k.disk).may_leave (D.disk k.disk).reads) }
        ensures limit { IfOk result (λ k. k.journal.limit ≡ limit) }
        ensures still_open { IfOk result (λ k. k.journal.closed ≡ false) }
        ensures untouched_ok { IfOk result (λ k. IsUntouched (D.disk disk) (D.disk k.disk)) }

        ensures cause { IfErr result (λ x. IsOfReopen x.0) }
        ensures foreign { IfErr result (λ x. OnForeign x.0 (λ n. (c : List ℕ) → (D.disk disk).reads c
            → IsForeign n (content c))) }
        ensures never_foreign { IfErr result (λ x. OnForeign x.0 (λ n. HoldsNoFrames (D.disk disk).reads)) }
        ensures damaged { IfErr result (λ x. OnDamaged x.0 (λ n. (c : List ℕ) → (D.disk disk).reads c
            → IsDamagedAt limit n c)) }
        ensures never_damaged { IfErr result (λ x. OnDamaged x.0 (λ n. (c : List ℕ) → (D.disk disk).reads c
            → IsUndamaged limit 0 c → ⊥)) }
        ensures untouched { IfErr result (λ x. IsUntouched (D.disk disk) (D.disk x.1)) }
        ensures counts_ok { IfOk result (λ k. (D.Counted.seen k.disk).faults ≡ (D.Counted.seen disk).faults) }
        ensures counts { IfErr result
            (λ x. CountsFault (D.Counted.seen disk).faults (D.Counted.seen x.1).faults x.0) }
    {
        match kept_machine::Kept::reopen(alloc, disk, limit) {
            Ok(kept) => Ok(Kept { kept }),
            Err((fault, disk)) => Err((fault, disk)),
        }
    }

    /// A client's frame. Where the bytes are exactly one frame they are on the disk before the server's step.
    pub fn on_client(&mut self, frame: &[u8], out: &mut [u8]) -> Result<Did, KeepFault>
        requires room { HasRoom out.old }
        ensures keeps { KeepsFrame D.disk D.Counted.seen (handed Sender.Client frame.now)
            self.old self.new out.old out.new result }
    {
        self.take(Sender::Client, &Received::of(frame), out)
    }

    /// Bytes of the other server. Where they are exactly one frame they are on the disk before the step.
    pub fn on_peer(&mut self, frame: &[u8], out: &mut [u8]) -> Result<Did, KeepFault>
        requires room { HasRoom out.old }
        ensures keeps { KeepsFrame D.disk D.Counted.seen (handed Sender.Peer frame.now)
            self.old self.new out.old out.new result }
    {
        self.take(Sender::Peer, &Received::of(frame), out)
    }

    /// A frame, of whichever sender. Where the bytes are exactly one frame they are on the disk before the
    /// step.
    pub fn take(
        &mut self,
        sender: Sender,
        received: &Received<'_>,
        out: &mut [u8],
    ) -> Result<Did, KeepFault>
        requires room { HasRoom out.old }
        ensures keeps { KeepsFrame D.disk D.Counted.seen (handed sender received.now)
            self.old self.new out.old out.new result }
    {
        let input = Handing { sender, received };
        kept_machine::take(&mut self.kept, &input, out)
    }

    /// The disk, as the last call left it.
    pub fn into_disk(self) -> D
        ensures { result ≡ self.disk }
    {
        let Kept { kept } = self;
        kept.into_disk()
    }

    /// How the server was opened.
    pub fn opening(&self) -> &Opening
        ensures value { result.now ≡ self.now.opening }
        ensures role { role_of self.now.core ≡ self.now.opening.role }
        ensures settings { settings_of self.now.core ≡ self.now.opening.settings }
    {
        &self.kept.machine().opening
    }

    /// The share of a box; zeros where there is no box of this number yet.
    pub fn share(&self, box_number: u32) -> &[u8]
        requires { box_number < self.now.opening.settings.boxes }
        ensures { result.now ≡ share_in self.now.core box_number }
    {
        self.kept.machine().core.share(box_number)
    }

    /// Writes the leader's oldest outstanding command to the front of `out` again, and gives its number and
    /// its length; None exactly where none is outstanding, as at a helper, and then nothing is written.
    pub fn resend(&self, out: &mut [u8]) -> Option<(u64, usize)>
        requires room { HasRoom out.old }
        ensures none { IsNone result ↔ (resent_by self.now.core ≡ None) }
        ensures number { IfSome result (λ x. IsOldest self.now.core x.0) }
        ensures length { IfSome result (λ x. option_map (λ c. length (spelling c)) (resent_by self.now.core)
            ≡ Some x.1) }
        ensures written { IfSome result (λ x. option_map spelling (resent_by self.now.core)
            ≡ Some (take x.1 out.new)) }
        ensures rest { drop (sent_length result) out.new ≡ drop (sent_length result) out.old }
    {
        self.kept.machine().core.resend(out)
    }
}
