//! The cards of a desk.
ghost use Rattle.std.specs.Prelude.{◌≡◌, [], Some, None, Ok, Err, IfOk, IfSome};
ghost use Rattle.desk_entries.specs.Desks.{named};
ghost use Rattle.desk_ledger.specs.Cards.{IsCardAt, card_addresses};

use crate::ledger::{Ledger, copy_of};
use desk_entries::{Standing, addresses, named};
use desk_texts::{CardHead, Head, Sheet};
use express_words::{List, NoMemory};
use node_journal::Disk;

impl<D: Disk> Ledger<D> {
    /// The card of a name: its live boxes' addresses. None where it has no live box.
    pub fn card(&self, name: &str) -> Result<Option<Sheet>, NoMemory>
        ensures none { result ≡ Ok None → card_addresses self.now.entries name.now ≡ [] }
        ensures card { IfOk result (λ card. IfSome card (IsCardAt self.now name.now)) }
    {
        let Some(named) = named(&self.entries, name.as_bytes()) else {
            return Ok(None);
        };
        let addresses = addresses(self.alloc, &self.entries, named, Standing::Live)?;
        if addresses.is_empty() {
            return Ok(None);
        }
        let Ok(count) = u32::try_from(addresses.len()) else {
            return Err(NoMemory);
        };
        let pair = &self.pair.head;
        let head = CardHead {
            width: pair.width,
            from: pair.from,
            to: pair.to,
            addresses: count,
            until: named.until,
        };
        Ok(Some(Sheet {
            head: Head::Card(head),
            leader: copy_of(self.alloc, &self.pair.leader)?,
            helper: copy_of(self.alloc, &self.pair.helper)?,
            addresses: List::from_vec(addresses),
        }))
    }
}
