//! Prints a sheet.
ghost use Rattle.std.specs.Prelude.{◌≡◌, ◌≤◌, ◌++◌, length, true, codes, Ok, IfOk, string_bytes};
ghost use Rattle.std.specs.Str.{all_ascii_digits};
ghost use Rattle.desk_texts.specs.Lines.{lines_in};
ghost use Rattle.desk_sheets.specs.Printing.{check_digits, printed_card, printed_pair};
ghost use Rattle.desk_sheets.specs.Sheets.{card_in, pair_in};
ghost use Rattle.desk_sheets.specs.Spelling.{IsCard, IsPair, card_head, card_text, pair_head, pair_text};
ghost use Rattle.desk_sheets.specs.Spelling.{server_text, until_text};

use crate::keyed::key_digits;
use crate::sheet::{Card, OwnersServer, Pair};
use desk_texts::{
    Day, add_addresses, add_line, before_last, day_text, digits_text, helper_text, leader_text,
};
use express_words::NoMemory;
use std::alloc::{AllocError, Global};

fn until_text(alloc: Global, until: &Option<Day>) -> Result<String, AllocError>
    ensures { IfOk result (λ text. string_bytes text ≡ until_text until.now) }
{
    match until {
        None => Ok(String::new(alloc)),
        Some(day) => {
            let day = day_text(alloc, day)?;
            format!(in alloc; " {day}")
        }
    }
}

fn card_text(alloc: Global, card: &Card) -> Result<String, AllocError>
    ensures { IfOk result (λ text. string_bytes text ≡ card_text (card_head card.now)) }
{
    let width = card.width;
    let addresses = card.addresses.as_slice().len();
    let until = until_text(alloc, &card.until)?;
    format!(in alloc; "express card 2 {width} {addresses}{until}")
}

fn pair_text(alloc: Global, pair: &Pair) -> Result<String, AllocError>
    ensures { IfOk result (λ text. string_bytes text ≡ pair_text (pair_head pair.now)) }
{
    let width = pair.width;
    let boxes = pair.boxes;
    let lane = pair.lane;
    format!(in alloc; "express pair 2 {width} {boxes} {lane}")
}

fn server_text(alloc: Global, word: &[u8], server: &OwnersServer) -> Result<Vec<u8>, AllocError>
    ensures { IfOk result (λ text. text.items ≡ server_text word.now server.now) }
{
    let digits = key_digits(&server.key);
    let mut text = Vec::from_slice(alloc, word)?;
    text.extend_from_slice(server.place.as_str().as_bytes())?;
    text.push(b' ')?;
    text.extend_from_slice(digits.as_slice())?;
    Ok(text)
}

#[tactic(auto, unfolding(desk_texts::specs::Printing::printed_from))]
fn text_of_card(alloc: Global, card: &Card) -> Result<Vec<u8>, NoMemory>
    ensures { IfOk result (λ text. text.items ≡ printed_card card.now) }
{
    let mut text = Vec::new(alloc);
    let mut said = Vec::new(alloc);
    let head = card_text(alloc, card)?;
    add_line(&mut text, &mut said, head.as_bytes())?;
    let leader = leader_text(alloc, &card.leader)?;
    add_line(&mut text, &mut said, leader.as_bytes())?;
    let helper = helper_text(alloc, &card.helper)?;
    add_line(&mut text, &mut said, helper.as_bytes())?;
    add_addresses(alloc, &mut text, &mut said, card.addresses.as_slice())?;
    Ok(text)
}

#[tactic(auto, unfolding(desk_texts::specs::Printing::printed_from))]
fn text_of_pair(alloc: Global, pair: &Pair) -> Result<Vec<u8>, NoMemory>
    ensures { IfOk result (λ text. text.items ≡ printed_pair pair.now) }
{
    let mut text = Vec::new(alloc);
    let mut said = Vec::new(alloc);
    let head = pair_text(alloc, pair)?;
    add_line(&mut text, &mut said, head.as_bytes())?;
    let leader = server_text(alloc, b"leader ", &pair.leader)?;
    add_line(&mut text, &mut said, &leader)?;
    let helper = server_text(alloc, b"helper ", &pair.helper)?;
    add_line(&mut text, &mut said, &helper)?;
    Ok(text)
}

/// The text of a card. Where the card keeps its rules, reading the text gives it again, and it has 4,096
/// bytes at most.
pub fn print_card(alloc: Global, card: &Card) -> Result<Vec<u8>, NoMemory>
    ensures text { IfOk result (λ text. text.items ≡ printed_card card.now) }
    ensures few { IsCard card.now → IfOk result (λ text. length text.items ≤ 4096) }
    ensures again { IsCard card.now → IfOk result (λ text. card_in (lines_in text.items) ≡ Ok card.now) }
{
    let text = text_of_card(alloc, card)?;
    Ok(text)
}

/// The text of a pair file. Where the pair keeps its rules, reading the text gives it again, and it has
/// 4,096 bytes at most.
pub fn print_pair(alloc: Global, pair: &Pair) -> Result<Vec<u8>, NoMemory>
    ensures text { IfOk result (λ text. text.items ≡ printed_pair pair.now) }
    ensures few { IsPair pair.now → IfOk result (λ text. length text.items ≤ 4096) }
    ensures again { IsPair pair.now → IfOk result (λ text. pair_in (lines_in text.items) ≡ Ok pair.now) }
{
    let text = text_of_pair(alloc, pair)?;
    Ok(text)
}

/// The five digits at the end of a card's last line, by which people tell one card from another.
pub fn check_digits(alloc: Global, card: &Card) -> Result<String, NoMemory>
    ensures value { IfOk result (λ digits. string_bytes digits ≡ check_digits card.now) }
    ensures five { IfOk result (λ digits. length (string_bytes digits) ≡ 5) }
    ensures digits { IfOk result (λ digits. all_ascii_digits (string_bytes digits) ≡ true) }
{
    let text = text_of_card(alloc, card)?;
    let digits = digits_text(alloc, before_last(&text))?;
    Ok(digits)
}
