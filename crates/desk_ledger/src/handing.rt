//! What a new client takes over of an older one.
ghost use Rattle.std.specs.Prelude.{◌≡◌, ◌≤◌, ◌^◌, ◌++◌, ◌∷◌, [], List as Listed, ℕ, false, map, None, IfOk, IfErr, OnOk};
ghost use Rattle.std.specs.List.{filter, sum_by};
ghost use Rattle.client_restart.specs.Openings.{IsClientOpening};
ghost use Rattle.desk_entries.specs.Records.{AreEntries, IsEntry, entry_record};
ghost use Rattle.desk_ledger.specs.Forgetting.{GoesOn, live_boxes};
ghost use Rattle.desk_ledger.specs.Handing.{IsOfHandOver, LacksRoom, LacksRoomForAll, LacksRoomForLive, OnMaking, TakesLive, TakesOver, box_bytes, entry_bytes};
ghost use Rattle.desk_ledger.specs.Ledgers.{IsOfPair};
ghost use Rattle.desk_ledger.specs.Tasks.{is_live};

use crate::asking::is_live;
use crate::fault::ForgetFault;
use crate::ledger::{Ledger, copy_of};
use crate::pair::Pair;
use client_restart::{ClientOpening, KeepFault, KeptClient, OwnedBox};
use desk_entries::Entry;
use express_words::NoMemory;
use node_journal::Disk;
use std::alloc::Global;

// A box of the old ledger's is one of the new client's.
fn own_one<D: Disk>(client: &mut KeptClient<D>, owned: &OwnedBox) -> Result<(), ForgetFault>
    requires idle { client.old.core.client.current ≡ None }
    requires still_open { client.old.journal.closed ≡ false }
    ensures goes_on { OnOk result (GoesOn D.disk client.old client.new) }
    ensures takes { OnOk result (TakesOver 1 (box_bytes owned.now) client.old client.new) }
    ensures boxes { OnOk result (client.new.core.boxes ≡ client.old.core.boxes ++ owned.now ∷ []) }
    ensures remarks { OnOk result (client.new.core.remarks ≡ client.old.core.remarks) }
    ensures fault { IfErr result (LacksRoom 1 (box_bytes owned.now) client.old) }
{
    if client.is_full() {
        return Err(ForgetFault::NoRoom);
    }
    match client.own(owned.number, owned.serial) {
        Ok(()) => Ok(()),
        Err(fault) => Err(ForgetFault::Keep(fault)),
    }
}

fn own_if_live<D: Disk>(
    client: &mut KeptClient<D>,
    entries: &[Entry],
    owned: &OwnedBox,
) -> Result<(), ForgetFault>
    requires idle { client.old.core.client.current ≡ None }
    requires still_open { client.old.journal.closed ≡ false }
    ensures goes_on { OnOk result (GoesOn D.disk client.old client.new) }
    ensures takes { OnOk result (TakesLive entries.now (owned.now ∷ []) client.old client.new) }
    ensures boxes { OnOk result (client.new.core.boxes
        ≡ client.old.core.boxes ++ filter (is_live entries.now) (owned.now ∷ [])) }
    ensures remarks { OnOk result (client.new.core.remarks ≡ client.old.core.remarks) }
    ensures fault { IfErr result (LacksRoomForLive entries.now (owned.now ∷ []) client.old) }
{
    if is_live(entries, owned) {
        own_one(client, owned)
    } else {
        Ok(())
    }
}

// The live boxes are the new client's, in order.
#[tactic(auto, using(crate::proofs::ForgetLaws::more_live))]
fn own_live<D: Disk>(
    client: &mut KeptClient<D>,
    entries: &[Entry],
    boxes: &[OwnedBox],
) -> Result<(), ForgetFault>
    requires idle { client.old.core.client.current ≡ None }
    requires still_open { client.old.journal.closed ≡ false }
    ensures goes_on { OnOk result (GoesOn D.disk client.old client.new) }
    ensures takes { OnOk result (TakesLive entries.now boxes.now client.old client.new) }
    ensures boxes { OnOk result (client.new.core.boxes
        ≡ client.old.core.boxes ++ filter (is_live entries.now) boxes.now) }
    ensures remarks { OnOk result (client.new.core.remarks ≡ client.old.core.remarks) }
    ensures fault { IfErr result (LacksRoomForLive entries.now boxes.now client.old) }
{
    let mut rest = boxes;
    while let [owned, behind @ ..] = rest {
        own_if_live(client, entries, owned)?;
        rest = behind;
    }
    Ok(())
}

fn note_one<D: Disk>(
    alloc: Global,
    client: &mut KeptClient<D>,
    entry: &Entry,
) -> Result<(), ForgetFault>
    requires idle { client.old.core.client.current ≡ None }
    requires still_open { client.old.journal.closed ≡ false }
    requires is { IsEntry entry.now }
    ensures goes_on { OnOk result (GoesOn D.disk client.old client.new) }
    ensures takes { OnOk result (TakesOver 0 (entry_bytes entry.now) client.old client.new) }
    ensures boxes { OnOk result (client.new.core.boxes ≡ client.old.core.boxes) }
    ensures remarks { OnOk result (client.new.core.remarks
        ≡ client.old.core.remarks ++ entry_record entry.now ∷ []) }
    ensures fault { IfErr result (LacksRoom 0 (entry_bytes entry.now) client.old) }
{
    let Ok(record) = entry.record(alloc) else {
        return Err(ForgetFault::Keep(KeepFault::NoMemory));
    };
    match client.remark(&record) {
        Ok(()) => Ok(()),
        Err(fault) => Err(ForgetFault::Keep(fault)),
    }
}

fn note_all<D: Disk>(
    alloc: Global,
    client: &mut KeptClient<D>,
    entries: &[Entry],
) -> Result<(), ForgetFault>
    requires idle { client.old.core.client.current ≡ None }
    requires still_open { client.old.journal.closed ≡ false }
    requires are { AreEntries entries.now }
    ensures goes_on { OnOk result (GoesOn D.disk client.old client.new) }
    ensures boxes { OnOk result (client.new.core.boxes ≡ client.old.core.boxes) }
    ensures remarks { OnOk result (client.new.core.remarks
        ≡ client.old.core.remarks ++ map entry_record entries.now) }
    ensures fault { IfErr result (LacksRoom 0 (sum_by entry_bytes entries.now) client.old) }
{
    let mut rest = entries;
    while let [entry, behind @ ..] = rest {
        note_one(alloc, client, entry)?;
        rest = behind;
    }
    Ok(())
}

fn copy_of_pair(alloc: Global, pair: &Pair) -> Result<Pair, NoMemory>
    ensures { IfOk result (λ copy. copy ≡ pair.now) }
{
    let leader = copy_of(alloc, &pair.leader)?;
    let helper = copy_of(alloc, &pair.helper)?;
    Ok(Pair {
        head: pair.head,
        leader,
        helper,
    })
}

impl<D: Disk> Ledger<D> {
    // The new client has the live boxes and these entries.
    fn hand_over<E: Disk>(
        &self,
        client: &mut KeptClient<E>,
        entries: &[Entry],
    ) -> Result<(), ForgetFault>
        requires idle { client.old.core.client.current ≡ None }
        requires still_open { client.old.journal.closed ≡ false }
        requires are { AreEntries entries.now }
        ensures goes_on { OnOk result (GoesOn E.disk client.old client.new) }
        ensures boxes { OnOk result (client.new.core.boxes ≡ client.old.core.boxes ++ live_boxes self.now) }
        ensures remarks { OnOk result (client.new.core.remarks
            ≡ client.old.core.remarks ++ map entry_record entries.now) }
        ensures fault { IfErr result (LacksRoomForAll (live_boxes self.now) entries.now client.old) }
    {
        own_live(client, &self.entries, self.client.boxes())?;
        note_all(self.alloc, client, entries)
    }

    /// A ledger on a disk with no byte, with these entries and the live boxes of this one, whose client is
    /// opened so.
    pub(crate) fn make_next<E: Disk>(
        &self,
        opening: &ClientOpening,
        entries: Vec<Entry>,
        disk: E,
        limit: u64,
    ) -> Result<Ledger<E>, (ForgetFault, E)>
        requires limit { limit ≤ 2 ^ 62 }
        requires opening { IsClientOpening opening.now }
        requires are { AreEntries entries.items }
        requires pair { IsOfPair self.now.pair entries.items }
        ensures opening { IfOk result (λ l. l.client.opening ≡ opening.now) }
        ensures serial { IfOk result (λ l. l.client.core.client.serial ≡ opening.now.first_serial) }
        ensures boxes { IfOk result (λ l. l.client.core.boxes ≡ live_boxes self.now) }
        ensures entries { IfOk result (λ l. l.entries ≡ entries.items) }
        ensures pair { IfOk result (λ l. l.pair ≡ self.now.pair) }
        ensures idle { IfOk result (λ l. (l.client.core.client.current ≡ None)
            × (l.client.core.untold ≡ [])) }
        ensures empty { OnOk result ((c : Listed ℕ) → (E.disk disk).reads c → c ≡ []) }
        ensures fault { IfErr result (λ x. IsOfHandOver x.0) }
        ensures making { IfErr result (λ x. OnMaking opening.now.capacity limit (E.disk disk).reads
            (live_boxes self.now) entries.items x.0) }
    {
        let Ok(pair) = copy_of_pair(self.alloc, &self.pair) else {
            return Err((ForgetFault::Keep(KeepFault::NoMemory), disk));
        };
        let mut client = match KeptClient::create(self.alloc, opening, disk, limit) {
            Ok(client) => client,
            Err((fault, disk)) => return Err((ForgetFault::Keep(fault), disk)),
        };
        match self.hand_over(&mut client, &entries) {
            Ok(()) => Ok(Ledger {
                alloc: self.alloc,
                pair,
                entries,
                client,
            }),
            Err(fault) => Err((fault, client.into_disk())),
        }
    }
}
