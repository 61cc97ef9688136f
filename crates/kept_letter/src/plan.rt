//! Where a letter goes.
ghost use Rattle.std.specs.Prelude.{◌≡◌, ◌≤◌, ◌*◌, ◌<◌, IfOk, length};
ghost use Rattle.file_carry.specs.Parts.{IsPartWidth};
ghost use Rattle.letter_pieces.specs.Sizes.{IsCard};
ghost use Rattle.desk_sheets.specs.Spelling as spelling;
ghost use Rattle.kept_letter.specs.Plans.{each_of, no_card, no_plan, parts_for, plan_of, plan_on, takes_letter};

use desk_sheets::{Card, SheetFault, read_card};
use express_words::{List, NoMemory, Text};
use letter_pieces::{COPIES, most_text, parts_for};
use std::alloc::Global;

/// Where a letter goes: its card, and how many bytes its text has. Where the text was no card's, or the card
/// takes no letter of that length, there is no address, and no byte.
#[derive(Drop)]
pub struct Plan {
    /// The card by which it is left.
    pub card: Card,
    /// How many bytes the letter's text has.
    pub count: u32,
}

fn no_plan(alloc: Global) -> Plan
    ensures { result ≡ no_plan }
{
    Plan {
        card: Card {
            width: 32,
            until: None,
            leader: Text::from_string(String::new(alloc)),
            helper: Text::from_string(String::new(alloc)),
            addresses: List::from_vec(Vec::new(alloc)),
        },
        count: 0,
    }
}

// Whether a card of so many addresses with boxes of that width takes a letter of so many bytes.
fn takes_letter(addresses: usize, width: usize, count: usize) -> bool
    requires { IsCard addresses width }
    ensures { result ≡ takes_letter addresses width count }
{
    addresses >= 1 && count >= 1 && count <= most_text(addresses, width)
}

// The plan of a letter of so many bytes with this card.
fn plan_on(alloc: Global, count: u32, card: Card) -> Plan
    requires { spelling.IsCard card }
    ensures plan { result ≡ plan_on count card }
    ensures width { IsPartWidth result.card.width }
    ensures few { length result.card.addresses ≤ 64 }
{
    let known = card.addresses.as_slice().len();
    if takes_letter(known, card.width as usize, count as usize) {
        Plan { card, count }
    } else {
        no_plan(alloc)
    }
}

/// The plan of a letter of so many bytes by the text of its card.
#[tactic(auto, unfolding(crate::specs::Plans::plan_of))]
pub(crate) fn plan_of(alloc: Global, card: &[u8], count: u32) -> Result<Plan, NoMemory>
    ensures plan { IfOk result (λ plan. plan ≡ plan_of card.now count) }
    ensures width { IfOk result (λ plan. IsPartWidth plan.card.width) }
    ensures few { IfOk result (λ plan. length plan.card.addresses ≤ 64) }
{
    match read_card(alloc, card) {
        Ok(card) => Ok(plan_on(alloc, count, card)),
        Err(SheetFault::NoMemory) => Err(NoMemory),
        Err(SheetFault::Earlier | SheetFault::Wrong(_) | SheetFault::OtherKind) => Ok(no_plan(
            alloc,
        )),
    }
}

impl Plan {
    /// How many parts a text of so many bytes has, none where that is no letter's length.
    pub(crate) fn parts_for(&self, count: usize) -> u8
        requires width { IsPartWidth self.now.card.width }
        requires few { length self.now.card.addresses ≤ 64 }
        ensures parts { result ≡ parts_for self.now count }
        ensures few { result ≤ 64 }
    {
        let known = self.card.addresses.as_slice().len();
        if known == 0 {
            return 0;
        }
        match parts_for(known, self.card.width as usize, count) {
            Ok(parts) => parts,
            Err(_) => 0,
        }
    }

    /// To how many addresses each part goes.
    pub(crate) fn each(&self) -> u8
        ensures each { result ≡ each_of self.now }
        ensures some { 1 ≤ result }
        ensures few { result ≤ 3 }
    {
        COPIES.min(self.card.addresses.as_slice().len()).max(1) as u8
    }
}
