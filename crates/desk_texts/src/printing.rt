//! Prints a sheet.
ghost use Rattle.std.specs.Prelude.{◌≡◌, ◌≤◌, ◌-◌, ◌++◌, true, length, take, drop, Ok, IfOk, OnOk};
ghost use Rattle.std.specs.Prelude.{string_bytes, codes, map};
ghost use Rattle.std.specs.Str.{all_ascii_digits};
ghost use Rattle.desk_texts.specs.Lines.{lines_in};
ghost use Rattle.desk_texts.specs.Printing.{printed_from, printed, check_digits};
ghost use Rattle.desk_texts.specs.Sheets.{sheet_of};
ghost use Rattle.desk_texts.specs.Spelling.{lasting_text, dated_text, card_text, head_text};
ghost use Rattle.desk_texts.specs.Spelling.{address_text, IsSheet};

use crate::checks::add_line;
use crate::day::{Day, day_text};
use crate::fields::address_digits;
use crate::sheet::{CardHead, Head, Sheet};
use express_words::{NoMemory, Text};
use std::alloc::{AllocError, Global};

fn lasting_text(alloc: Global, card: &CardHead) -> Result<String, AllocError>
    ensures { IfOk result (λ text. string_bytes text ≡ lasting_text card.now) }
{
    let CardHead {
        width,
        from,
        to,
        addresses,
        ..
    } = *card;
    format!(in alloc; "express card 1 {width} {from} {to} {addresses}")
}

fn dated_text(alloc: Global, card: &CardHead, until: &Day) -> Result<String, AllocError>
    ensures { IfOk result (λ text. string_bytes text ≡ dated_text card.now until.now) }
{
    let CardHead {
        width,
        from,
        to,
        addresses,
        ..
    } = *card;
    let until = day_text(alloc, until)?;
    format!(in alloc; "express card 2 {width} {from} {to} {addresses} {until}")
}

fn card_text(alloc: Global, card: &CardHead) -> Result<String, AllocError>
    ensures { IfOk result (λ text. string_bytes text ≡ card_text card.now) }
{
    match &card.until {
        None => lasting_text(alloc, card),
        Some(until) => dated_text(alloc, card, until),
    }
}

fn head_text(alloc: Global, head: &Head) -> Result<String, AllocError>
    ensures { IfOk result (λ text. string_bytes text ≡ head_text head.now) }
{
    match head {
        Head::Card(card) => card_text(alloc, card),
        Head::Pair(pair) => {
            let width = pair.width;
            let boxes = pair.boxes;
            let lane = pair.lane;
            let from = pair.from;
            let to = pair.to;
            format!(in alloc; "express pair 1 {width} {boxes} {lane} {from} {to}")
        }
    }
}

/// What the line of a leader says that is reached at this place.
pub fn leader_text(alloc: Global, place: &Text) -> Result<String, AllocError>
    ensures { IfOk result (λ text. string_bytes text ≡ codes "leader " ++ place.now) }
{
    let place = place.as_str();
    format!(in alloc; "leader {place}")
}

/// What the line of a helper says that is reached at this place.
pub fn helper_text(alloc: Global, place: &Text) -> Result<String, AllocError>
    ensures { IfOk result (λ text. string_bytes text ≡ codes "helper " ++ place.now) }
{
    let place = place.as_str();
    format!(in alloc; "helper {place}")
}

fn address_text(alloc: Global, address: u128) -> Result<Vec<u8>, AllocError>
    ensures { IfOk result (λ text. text.items ≡ address_text address) }
{
    let digits = address_digits(address);
    let mut text = Vec::from_slice(alloc, b"address ".as_slice())?;
    text.extend_from_slice(digits.as_slice())?;
    Ok(text)
}

/// Adds a line for each address to a text, and what it says to what was said so far.
pub fn add_addresses(
    alloc: Global,
    text: &mut Vec<u8>,
    said: &mut Vec<u8>,
    addresses: &[u128],
) -> Result<(), NoMemory>
    ensures { OnOk result (text.new.items
        ≡ text.old.items ++ printed_from said.old.items (map address_text addresses.now)) }
{
    for address in addresses {
        let content = address_text(alloc, *address)?;
        add_line(text, said, &content)?;
    }
    Ok(())
}

#[tactic(auto, unfolding(crate::specs::Printing::printed_from))]
fn text_of(alloc: Global, sheet: &Sheet) -> Result<Vec<u8>, NoMemory>
    ensures { IfOk result (λ text. text.items ≡ printed sheet.now) }
{
    let mut text = Vec::new(alloc);
    let mut said = Vec::new(alloc);
    let head = head_text(alloc, &sheet.head)?;
    add_line(&mut text, &mut said, head.as_bytes())?;
    let leader = leader_text(alloc, &sheet.leader)?;
    add_line(&mut text, &mut said, leader.as_bytes())?;
    let helper = helper_text(alloc, &sheet.helper)?;
    add_line(&mut text, &mut said, helper.as_bytes())?;
    add_addresses(alloc, &mut text, &mut said, sheet.addresses.as_slice())?;
    Ok(text)
}

/// The text of a sheet. Where the sheet keeps its rules, reading the text gives it again, and it has 4,096 bytes at most.
pub fn print(alloc: Global, sheet: &Sheet) -> Result<Vec<u8>, NoMemory>
    ensures text { IfOk result (λ text. text.items ≡ printed sheet.now) }
    ensures few { IsSheet sheet.now → IfOk result (λ text. length text.items ≤ 4096) }
    ensures again { IsSheet sheet.now → IfOk result (λ text. sheet_of (lines_in text.items) ≡ Ok sheet.now) }
{
    let text = text_of(alloc, sheet)?;
    Ok(text)
}

/// The five bytes before the last.
pub fn before_last(text: &[u8]) -> &[u8]
    requires { 6 ≤ length text.now }
    ensures { result.now ≡ take 5 (drop (length text.now - 6) text.now) }
{
    let last = text.len() - 1;
    &text[last - 5..last]
}

/// Digits as a text: they are ASCII.
pub fn digits_text(alloc: Global, digits: &[u8]) -> Result<String, AllocError>
    requires { all_ascii_digits digits.now ≡ true }
    ensures { IfOk result (λ text. string_bytes text ≡ digits.now) }
{
    match std::str::from_utf8(digits) {
        Ok(digits) => String::from_str(alloc, digits),
        Err(_) => unreachable!(),
    }
}

/// The five digits at the end of a sheet's last line, by which people tell one card from another.
pub fn check_digits(alloc: Global, sheet: &Sheet) -> Result<String, NoMemory>
    ensures value { IfOk result (λ digits. string_bytes digits ≡ check_digits sheet.now) }
    ensures five { IfOk result (λ digits. length (string_bytes digits) ≡ 5) }
    ensures digits { IfOk result (λ digits. all_ascii_digits (string_bytes digits) ≡ true) }
{
    let text = text_of(alloc, sheet)?;
    let digits = digits_text(alloc, before_last(&text))?;
    Ok(digits)
}
