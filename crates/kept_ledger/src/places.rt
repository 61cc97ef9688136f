//! What is left to be done at a ledger's boxes.
ghost use Rattle.std.specs.Prelude.{◌≡◌, ◌+◌, ◌-◌, ◌≤◌, ◌<◌, ◌^◌, ◌++◌, IfOk, OnOk, length, slice_get};
ghost use Rattle.std.specs.List.{filter, list_any};
ghost use Rattle.kept_ledger.specs.Standings.{stands, waiting, waiting_at};
ghost use Rattle.kept_ledger.specs.Tasks.{is_leaving, is_live, is_retiring_at, live_places, next_task};
ghost use Rattle.kept_ledger.specs.Tasks.{place_if, place_of};
ghost use Rattle.kept_ledger.specs.Tasks.{places_of, retires_address, retiring_task, room};
ghost use Rattle.kept_ledger.specs.declared.standing.Standing.TheVariants as standing;

use crate::entry::{LedgerBox, NamedBoxes};
use crate::ledger::Ledger;
use crate::naming::names_address;
use crate::standing::Standing;
use crate::task::Task;
use express_words::NoMemory;
use std::alloc::Global;

fn is_live(one: &LedgerBox) -> bool
    ensures { result ≡ is_live one.now }
{
    !one.is_retired
}

fn retires_address(named: &NamedBoxes, address: u128) -> bool
    ensures { result ≡ retires_address address named.now }
{
    named.is_retiring && names_address(named, address)
}

// The place of a live box stands behind the others.
fn add_place(live: &mut Vec<u32>, is_live: bool, own: usize) -> Result<(), NoMemory>
    ensures { own < 2 ^ 32 → OnOk result (live.new.items ≡ live.old.items ++ place_if is_live own) }
{
    if is_live && let Ok(own) = u32::try_from(own) {
        live.push(own)?;
    }
    Ok(())
}

impl Ledger {
    // The first of these addresses that waits.
    fn first_that_waits(&self, addresses: &[u128]) -> Option<u128>
        ensures { result ≡ slice_get (filter (stands self.now.state standing.Waiting) addresses.now) 0 }
    {
        let mut rest = addresses;
        while let [address, behind @ ..] = rest {
            if self.stands(Standing::Waiting, *address) {
                return Some(*address);
            }
            rest = behind;
        }
        None
    }

    // How many of these addresses wait.
    fn how_many_wait(&self, addresses: &[u128]) -> usize
        ensures { result ≡ length (filter (stands self.now.state standing.Waiting) addresses.now) }
    {
        let mut count = 0;
        let mut rest = addresses;
        while let [address, behind @ ..] = rest {
            if self.stands(Standing::Waiting, *address) {
                count += 1;
            }
            rest = behind;
        }
        count
    }

    fn first_waiting_at(&self, named: &NamedBoxes) -> Option<u128>
        ensures { result ≡ slice_get (waiting_at self.now.state named.now) 0 }
    {
        if named.is_retiring {
            return None;
        }
        self.first_that_waits(named.addresses.as_slice())
    }

    fn count_waiting_at(&self, named: &NamedBoxes) -> usize
        ensures { result ≡ length (waiting_at self.now.state named.now) }
    {
        if named.is_retiring {
            return 0;
        }
        self.how_many_wait(named.addresses.as_slice())
    }

    // The first address at which a box is to be registered yet.
    #[tactic(auto, unfolding(crate::specs::Standings::waiting))]
    fn first_waiting(&self) -> Option<u128>
        ensures { result ≡ slice_get (waiting self.now.state) 0 }
    {
        let mut rest = self.named.as_slice();
        while let [named, behind @ ..] = rest {
            if let Some(address) = self.first_waiting_at(named) {
                return Some(address);
            }
            rest = behind;
        }
        None
    }

    // The boxes for which there is room where these stand, if no more wait than that.
    #[tactic(auto, unfolding(crate::specs::Standings::waiting))]
    fn less_waiting(&self, boxes: usize) -> usize
        ensures { result ≡ boxes - length (waiting self.now.state) }
    {
        let mut left = boxes;
        let mut rest = self.named.as_slice();
        while let [named, behind @ ..] = rest {
            left = left.saturating_sub(self.count_waiting_at(named));
            rest = behind;
        }
        left
    }

    // For how many boxes more there is room.
    pub(crate) fn room(&self) -> u32
        ensures { result ≡ room self.now.state }
    {
        let left = (self.pair.boxes as usize).saturating_sub(self.boxes.len());
        self.less_waiting(left) as u32
    }

    fn is_retiring_at(&self, address: u128) -> bool
        ensures { result ≡ is_retiring_at self.now.state address }
    {
        self.named
            .iter()
            .any(|named| retires_address(named, address))
    }

    // Whether it is live, and its name is to be retired.
    fn is_leaving(&self, one: &LedgerBox) -> bool
        ensures { result ≡ is_leaving self.now.state one.now }
    {
        is_live(one) && self.is_retiring_at(one.address)
    }

    // The first live box whose name is to be retired.
    fn leaving(&self) -> Option<u32>
        ensures { length self.now.state.boxes ≤ 2 ^ 32
            → result ≡ place_of (is_leaving self.now.state) 0 self.now.state.boxes }
    {
        let mut rest = self.boxes.as_slice();
        let mut own: usize = 0;
        while let [one, behind @ ..] = rest {
            if self.is_leaving(one) {
                return match u32::try_from(own) {
                    Ok(own) => Some(own),
                    Err(_) => None,
                };
            }
            own += 1;
            rest = behind;
        }
        None
    }

    /// What is left to be done, whatever came between: the next box to be registered, or else to be retired.
    pub fn next_task(&self) -> Option<Task>
        ensures { length self.now.state.boxes ≤ 2 ^ 32 → result ≡ next_task self.now.state }
    {
        if let Some(address) = self.first_waiting() {
            return Some(Task::Register(address));
        }
        match self.leaving() {
            Some(own) => Some(Task::Retire(own)),
            None => None,
        }
    }

    /// The live boxes, in order, each by its place among the ledger's own.
    pub fn live(&self, alloc: Global) -> Result<Vec<u32>, NoMemory>
        ensures { length self.now.state.boxes ≤ 2 ^ 32
            → IfOk result (λ live. live.items ≡ live_places self.now.state) }
    {
        let mut live = Vec::new(alloc);
        let mut rest = self.boxes.as_slice();
        let mut own: usize = 0;
        while let [one, behind @ ..] = rest {
            add_place(&mut live, is_live(one), own)?;
            own += 1;
            rest = behind;
        }
        Ok(live)
    }
}
