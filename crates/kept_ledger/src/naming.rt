//! The names of boxes.
ghost use Rattle.std.specs.Prelude.{◌≡◌};
ghost use Rattle.std.specs.List.{find, list_any, position};
ghost use Rattle.std.specs.Option.{option_copied};
ghost use Rattle.kept_ledger.specs.Ledgers.{are_new, changed, closed_on, fits_names, has_name, is_among};
ghost use Rattle.kept_ledger.specs.Ledgers.{is_drawn};
ghost use Rattle.kept_ledger.specs.Ledgers.{is_used, names_address, to_retire};
ghost use Rattle.kept_ledger.specs.Notes.{plain_wanted};
ghost use Rattle.kept_ledger.specs.Standings.{named_boxes};
ghost use Rattle.kept_ledger.specs.Tasks.{name_fault};

use crate::entry::NamedBoxes;
use crate::fault::NameFault;
use crate::ledger::Ledger;
use crate::name::is_name;
use crate::note::{MOST_AT_ONCE, WantedBoxes};
use desk_texts::Day;

pub(crate) fn has_name(named: &NamedBoxes, name: &[u8]) -> bool
    ensures { result ≡ has_name name.now named.now }
{
    named.name.as_str().as_bytes() == name
}

fn is_used(named: &[NamedBoxes], name: &[u8]) -> bool
    ensures { result ≡ is_used named.now name.now }
{
    named.iter().any(|one| has_name(one, name))
}

pub(crate) fn is_among(address: u128, addresses: &[u128]) -> bool
    ensures { result ≡ is_among address addresses.now }
{
    addresses.contains(&address)
}

pub(crate) fn names_address(named: &NamedBoxes, address: u128) -> bool
    ensures { result ≡ names_address address named.now }
{
    is_among(address, named.addresses.as_slice())
}

fn is_drawn(named: &[NamedBoxes], address: u128) -> bool
    ensures { result ≡ is_drawn named.now address }
{
    named.iter().any(|one| names_address(one, address))
}

// Whether these addresses are all different, and stand at no name already.
fn are_new(named: &[NamedBoxes], addresses: &[u128]) -> bool
    ensures { result ≡ are_new named.now addresses.now }
{
    let mut rest = addresses;
    while let [address, behind @ ..] = rest {
        if behind.contains(address) || is_drawn(named, *address) {
            return false;
        }
        rest = behind;
    }
    true
}

impl Ledger {
    /// The boxes with this name.
    pub fn named_boxes(&self, name: &str) -> Option<&NamedBoxes>
        ensures { option_copied result ≡ named_boxes self.now.state.named name.now }
    {
        let mut rest = self.named.as_slice();
        while let [one, behind @ ..] = rest {
            if has_name(one, name.as_bytes()) {
                return Some(one);
            }
            rest = behind;
        }
        None
    }

    fn place_of(&self, name: &str) -> Option<usize>
        ensures { result ≡ position (has_name name.now) self.now.state.named }
    {
        self.named
            .iter()
            .position(|one| has_name(one, name.as_bytes()))
    }

    // Boxes with this name are closed on this day.
    pub(crate) fn close(&mut self, name: &str, day: Day)
        ensures { self.new.state ≡ record self.old.state {
          named = changed (closed_on day) name.now self.old.state.named;
        } }
    {
        if let Some(place) = self.place_of(name)
            && let Some(found) = self.named.get_mut(place)
        {
            found.closed = Some(found.closed.unwrap_or(day));
        }
    }

    // Boxes with this name are to be retired.
    pub(crate) fn retire_all(&mut self, name: &str)
        ensures { self.new.state ≡ record self.old.state {
          named = changed to_retire name.now self.old.state.named;
        } }
    {
        if let Some(place) = self.place_of(name)
            && let Some(found) = self.named.get_mut(place)
        {
            found.is_retiring = true;
        }
    }

    // Whether a name is taken: neither it nor an address of it stands already.
    pub(crate) fn fits_names(&self, wanted: &WantedBoxes<'_>) -> bool
        ensures { result ≡ fits_names self.now.state.named (plain_wanted wanted.now) }
    {
        let named = self.named.as_slice();
        !is_used(named, wanted.name.as_bytes()) && are_new(named, wanted.addresses)
    }

    /// Why boxes with this name and these addresses, which were drawn, aren't to be noted; none where they
    /// are: then the ledger takes their note.
    pub fn check_name(&self, name: &str, addresses: &[u128]) -> Option<NameFault>
        ensures { result ≡ name_fault self.now.state name.now addresses.now }
    {
        if !is_name(name.as_bytes()) {
            return Some(NameFault::Form);
        }
        if is_used(self.named.as_slice(), name.as_bytes()) {
            return Some(NameFault::Used);
        }
        if addresses.is_empty() || addresses.len() > MOST_AT_ONCE {
            return Some(NameFault::Count);
        }
        if !are_new(self.named.as_slice(), addresses) {
            return Some(NameFault::SameAddress);
        }
        let room = self.room();
        if addresses.len() <= room as usize {
            return None;
        }
        Some(NameFault::NoRoom(room))
    }
}
