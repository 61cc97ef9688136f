//! How an address stands, and what boxes held.
ghost use Rattle.std.specs.Prelude.{◌≡◌, ◌+◌, ◌≤◌, ◌<◌, ◌++◌, ◌∷◌, [], IfOk, OnOk, length, map, slice_get};
ghost use Rattle.std.specs.List.{filter, find, flat_map};
ghost use Rattle.std.specs.Option.{option_copied};
ghost use Rattle.kept_ledger.specs.Ledgers.{is_among};
ghost use Rattle.kept_ledger.specs.Standings.{addresses_in, addresses_that, is_denied_at, is_read_at};
ghost use Rattle.kept_ledger.specs.Standings.{is_same};
ghost use Rattle.kept_ledger.specs.Standings.{named_boxes, of_denial, of_denied, readings_of, standing_of};
ghost use Rattle.kept_ledger.specs.Standings.{stands, stands_at, waiting, waiting_at};
ghost use Rattle.kept_ledger.specs.declared.standing.Standing.TheVariants as standing;

use crate::entry::{Denial, Denied, LedgerBox, NamedBoxes, Reading};
use crate::ledger::Ledger;
use crate::naming::is_among;
use express_words::NoMemory;
use std::alloc::Global;

/// How an address of a name stands.
#[derive(Clone, Copy, Debug, PartialEq, Eq)]
pub enum Standing {
    /// Nothing was heard of a box at it yet.
    Waiting,
    /// Its box is live.
    Live,
    /// Its box is retired.
    Retired,
    /// The servers refused a box at it.
    Refused,
}

fn box_at(boxes: &[LedgerBox], address: u128) -> Option<LedgerBox>
    ensures { result ≡ find (stands_at address) boxes.now }
{
    let mut rest = boxes;
    while let [one, behind @ ..] = rest {
        if one.address == address {
            return Some(*one);
        }
        rest = behind;
    }
    None
}

fn denial_at(denied: &[Denied], address: u128) -> Standing
    ensures { result ≡ of_denied (find (is_denied_at address) denied.now) }
{
    let mut rest = denied;
    while let [one, behind @ ..] = rest {
        if one.address == address {
            return of_denial(one.denial);
        }
        rest = behind;
    }
    Standing::Waiting
}

fn of_denial(denial: Denial) -> Standing
    ensures { result ≡ of_denial denial }
{
    match denial {
        Denial::Taken | Denial::Full => Standing::Refused,
        Denial::Retired => Standing::Retired,
    }
}

fn is_same(one: Standing, other: Standing) -> bool
    ensures { result ≡ is_same one other }
{
    one == other
}

impl Ledger {
    /// How an address stands.
    pub fn standing_of(&self, address: u128) -> Standing
        ensures { result ≡ standing_of self.now.state address }
    {
        match box_at(self.boxes.as_slice(), address) {
            Some(found) if found.is_retired => Standing::Retired,
            Some(_) => Standing::Live,
            None => denial_at(self.denied.as_slice(), address),
        }
    }

    pub(crate) fn stands(&self, standing: Standing, address: u128) -> bool
        ensures { result ≡ stands self.now.state standing address }
    {
        is_same(self.standing_of(address), standing)
    }

    // The addresses of a name, none where it isn't there.
    fn addresses_in(&self, name: &str) -> &[u128]
        ensures { result.now ≡ addresses_in (named_boxes self.now.state.named name.now) }
    {
        match self.named_boxes(name) {
            Some(named) => named.addresses.as_slice(),
            None => &[],
        }
    }

    /// The addresses of a name that stand so, in order.
    pub fn addresses_that(
        &self,
        alloc: Global,
        name: &str,
        standing: Standing,
    ) -> Result<Vec<u128>, NoMemory>
        ensures { IfOk result (λ found. found.items ≡ addresses_that self.now.state name.now standing) }
    {
        let mut found = Vec::new(alloc);
        let mut rest = self.addresses_in(name);
        while let [address, behind @ ..] = rest {
            if self.stands(standing, *address) {
                found.push(*address)?;
            }
            rest = behind;
        }
        Ok(found)
    }

    /// What the boxes with a name held, oldest first.
    pub fn readings_of(&self, alloc: Global, name: &str) -> Result<Vec<&Reading>, NoMemory>
        ensures { IfOk result (λ found. map (λ r. r.now) found.items ≡ readings_of self.now.state name.now) }
    {
        let addresses = self.addresses_in(name);
        let mut found = Vec::new(alloc);
        let mut rest = self.readings.as_slice();
        while let [reading, behind @ ..] = rest {
            if is_among(reading.address, addresses) {
                found.push(reading)?;
            }
            rest = behind;
        }
        Ok(found)
    }
}
