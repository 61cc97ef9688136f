//! A new ledger that follows another one: without letters and old requests, or from a higher serial on.
ghost use Rattle.std.specs.Prelude.{◌≡◌, ◌≢◌, ◌+◌, ◌≤◌, ◌^◌, [], List as Listed, ℕ, None, IfOk, IfErr, OnOk, if◌then◌else◌};
ghost use Rattle.client_restart.specs.Openings.{IsClientOpening};
ghost use Rattle.desk_entries.specs.Forgetting.{kept};
ghost use Rattle.desk_entries.specs.Letters.{unseen_of};
ghost use Rattle.desk_entries.specs.Records.{AreEntries};
ghost use Rattle.desk_ledger.specs.Forgetting.{IsOfFollowing, IsOfJudging, IsOfSeeing, IsSpent, OnBusy, OnSpent, OnUnseen, OnUntold, live_boxes, next_opening, opening_at, opening_from, serial_from};
ghost use Rattle.desk_ledger.specs.Handing.{OnFollowing};
ghost use Rattle.desk_ledger.specs.Ledgers.{IsOfPair};

use crate::fault::ForgetFault;
use crate::ledger::Ledger;
use client_restart::{ClientOpening, KeepFault};
use desk_entries::{Entry, copied, kept};
use node_journal::Disk;

// How the client of a ledger that follows is opened, and the entries that the ledger begins with.
#[derive(Drop)]
struct Start {
    opening: ClientOpening,
    entries: Vec<Entry>,
}

// The next serial of a client: a request that is under way has used its own.
fn next_of(serial: u32, is_idle: bool) -> u64
    ensures { result ≡ (if is_idle then serial else serial + 1) }
{
    if is_idle {
        u64::from(serial)
    } else {
        u64::from(serial) + 1
    }
}

impl<D: Disk> Ledger<D> {
    // How a client is opened that goes on with lane, seed, width and room of this one, from a serial on.
    fn opening_at(&self, serial: u64) -> Result<ClientOpening, ForgetFault>
        ensures value { IfOk result (λ o. o ≡ opening_at serial self.now.client) }
        ensures is { IfOk result IsClientOpening }
        ensures spent { IfErr result (IsSpent serial) }
    {
        let old = self.client.opening();
        match u32::try_from(serial) {
            Ok(first_serial) if first_serial >= 1 => Ok(ClientOpening {
                lane: old.lane,
                width: old.width,
                capacity: old.capacity,
                first_serial,
                seed: old.seed,
            }),
            Ok(_) | Err(_) => Err(ForgetFault::Spent),
        }
    }

    // The serial from which a ledger goes on: this one, or its next one where that is higher.
    fn serial_from(&self, first: u32) -> Result<u64, ForgetFault>
        ensures value { IfOk result (λ serial. serial ≡ serial_from first self.now.client.core) }
        ensures spent { IfErr result (IsSpent (serial_from first self.now.client.core)) }
    {
        match u32::try_from(self.client.serial()) {
            Ok(serial) => Ok(next_of(serial, self.client.is_idle()).max(u64::from(first))),
            Err(_) => Err(ForgetFault::Spent),
        }
    }

    // Refuses while a letter wasn't seen.
    fn check_seen(&self) -> Result<(), ForgetFault>
        ensures seen { OnOk result (unseen_of self.now.entries ≡ 0) }
        ensures unseen { IfErr result (OnUnseen self.now.entries) }
        ensures cause { IfErr result IsOfSeeing }
    {
        match self.unseen() {
            Ok(0) => Ok(()),
            Ok(_) => Err(ForgetFault::Unseen),
            Err(_) => Err(ForgetFault::Keep(KeepFault::NoMemory)),
        }
    }

    // What is left of this ledger once its letters and old requests are gone.
    fn without_letters(&self) -> Result<Start, ForgetFault>
        ensures opening { IfOk result (λ s. s.opening ≡ next_opening self.now.client) }
        ensures is { IfOk result (λ s. IsClientOpening s.opening) }
        ensures entries { IfOk result (λ s. s.entries.items ≡ kept self.now.entries) }
        ensures are { IfOk result (λ s. AreEntries s.entries.items × IsOfPair self.now.pair s.entries.items) }
        ensures idle { OnOk result ((self.now.client.core.client.current ≡ None)
            × (self.now.client.core.untold ≡ [])) }
        ensures seen { OnOk result (unseen_of self.now.entries ≡ 0) }
        ensures busy { IfErr result (OnBusy self.now.client.core) }
        ensures unseen { IfErr result (OnUnseen self.now.entries) }
        ensures spent { IfErr result (OnSpent self.now.client.core.client.serial) }
        ensures cause { IfErr result IsOfJudging }
    {
        if !self.client.is_idle() {
            return Err(ForgetFault::Busy);
        }
        if !self.client.untold().is_empty() {
            return Err(ForgetFault::Busy);
        }
        self.check_seen()?;
        let opening = self.opening_at(self.client.serial())?;
        match kept(self.alloc, &self.entries) {
            Ok(entries) => Ok(Start { opening, entries }),
            Err(_) => Err(ForgetFault::Keep(KeepFault::NoMemory)),
        }
    }

    // All of this ledger but its requests, from this serial on.
    fn from_serial(&self, first: u32) -> Result<Start, ForgetFault>
        ensures opening { IfOk result (λ s. s.opening ≡ opening_from first self.now.client) }
        ensures is { IfOk result (λ s. IsClientOpening s.opening) }
        ensures entries { IfOk result (λ s. s.entries.items ≡ self.now.entries) }
        ensures are { IfOk result (λ s. AreEntries s.entries.items × IsOfPair self.now.pair s.entries.items) }
        ensures told { OnOk result (self.now.client.core.untold ≡ []) }
        ensures busy { IfErr result (OnUntold self.now.client.core) }
        ensures spent { IfErr result (OnSpent (serial_from first self.now.client.core)) }
        ensures cause { IfErr result IsOfFollowing }
    {
        if !self.client.untold().is_empty() {
            return Err(ForgetFault::Busy);
        }
        let opening = self.opening_at(self.serial_from(first)?)?;
        match copied(self.alloc, &self.entries) {
            Ok(entries) => Ok(Start { opening, entries }),
            Err(_) => Err(ForgetFault::Keep(KeepFault::NoMemory)),
        }
    }

    /// A new ledger on another disk with no byte, without letters and old requests: lane, seed, next serial,
    /// live boxes and names are those of this one. Not while a request is under way or its outcome isn't
    /// stored, nor while there is a letter that nobody has seen. No more than `limit` bytes of the disk will
    /// be used.
    #[tactic(auto, using(crate::proofs::HandLaws::judged_making))]
    pub fn forget<E: Disk>(&self, disk: E, limit: u64) -> Result<Ledger<E>, (ForgetFault, E)>
        requires limit { limit ≤ 2 ^ 62 }
        ensures opening { IfOk result (λ l. l.client.opening ≡ next_opening self.now.client) }
        ensures serial { IfOk result (λ l. l.client.core.client.serial ≡ self.now.client.core.client.serial) }
        ensures boxes { IfOk result (λ l. l.client.core.boxes ≡ live_boxes self.now) }
        ensures entries { IfOk result (λ l. l.entries ≡ kept self.now.entries) }
        ensures pair { IfOk result (λ l. l.pair ≡ self.now.pair) }
        ensures idle { IfOk result (λ l. (l.client.core.client.current ≡ None)
            × (l.client.core.untold ≡ [])) }
        ensures settled { OnOk result ((self.now.client.core.client.current ≡ None)
            × (self.now.client.core.untold ≡ [])) }
        ensures seen { OnOk result (unseen_of self.now.entries ≡ 0) }
        ensures empty { OnOk result ((c : Listed ℕ) → (E.disk disk).reads c → c ≡ []) }
        ensures busy { IfErr result (λ x. OnBusy self.now.client.core x.0) }
        ensures unseen { IfErr result (λ x. OnUnseen self.now.entries x.0) }
        ensures spent { IfErr result (λ x. OnSpent self.now.client.core.client.serial x.0) }
        ensures making { IfErr result
            (λ x. OnFollowing limit (E.disk disk).reads self.now (kept self.now.entries) x.0) }
    {
        match self.without_letters() {
            Ok(Start { opening, entries }) => self.make_next(&opening, entries, disk, limit),
            Err(fault) => Err((fault, disk)),
        }
    }

    /// A new ledger on another disk with no byte, with all entries of this one, letters too, for a lane whose
    /// serials have gone on without this ledger: from serial `first` on, or from its own next one where that
    /// is higher. Lane, seed and live boxes are those of this one, since boxes are read by keys that are
    /// drawn of the seed. A request that is under way is given up, and its serial isn't used again; an
    /// outcome must have been stored. No more than `limit` bytes of the disk will be used.
    #[tactic(auto, using(crate::proofs::HandLaws::following_making))]
    pub fn follow<E: Disk>(
        &self,
        disk: E,
        limit: u64,
        first: u32,
    ) -> Result<Ledger<E>, (ForgetFault, E)>
        requires limit { limit ≤ 2 ^ 62 }
        ensures opening { IfOk result (λ l. l.client.opening ≡ opening_from first self.now.client) }
        ensures serial { IfOk result (λ l.
            l.client.core.client.serial ≡ serial_from first self.now.client.core) }
        ensures boxes { IfOk result (λ l. l.client.core.boxes ≡ live_boxes self.now) }
        ensures entries { IfOk result (λ l. l.entries ≡ self.now.entries) }
        ensures pair { IfOk result (λ l. l.pair ≡ self.now.pair) }
        ensures idle { IfOk result (λ l. (l.client.core.client.current ≡ None)
            × (l.client.core.untold ≡ [])) }
        ensures stored { OnOk result (self.now.client.core.untold ≡ []) }
        ensures empty { OnOk result ((c : Listed ℕ) → (E.disk disk).reads c → c ≡ []) }
        ensures busy { IfErr result (λ x. OnUntold self.now.client.core x.0) }
        ensures spent { IfErr result (λ x. OnSpent (serial_from first self.now.client.core) x.0) }
        ensures seen { IfErr result (λ x. x.0 ≢ ForgetFault.Unseen) }
        ensures making { IfErr result
            (λ x. OnFollowing limit (E.disk disk).reads self.now self.now.entries x.0) }
    {
        match self.from_serial(first) {
            Ok(Start { opening, entries }) => self.make_next(&opening, entries, disk, limit),
            Err(fault) => Err((fault, disk)),
        }
    }
}
