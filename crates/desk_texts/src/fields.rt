//! The fields of a sheet's lines.
ghost use Rattle.std.specs.Prelude.{◌≡◌, ◌≤◌, true, IfSome};
ghost use Rattle.std.specs.Prelude.{option_map};
ghost use Rattle.std.specs.Option.{option_copied};
ghost use Rattle.desk_texts.specs.Fields.{card_numbers, lasting_card, dated_card, card_of};
ghost use Rattle.desk_texts.specs.Fields.{pair_numbers, is_strangers, pair_of, head_of};
ghost use Rattle.desk_texts.specs.Fields.{place_of, address_digits, address_of};
ghost use Rattle.desk_texts.specs.Places.{is_place};
ghost use Rattle.desk_texts.specs.Sheets.{count_of};

use crate::day::day_in;
use crate::places::is_place;
use crate::sheet::{CardHead, Head, MOST_ADDRESSES, PairHead};
use express_texts::{after, last_number, number_at, spelled_word};
use express_words::limits::{MOST_BOXES, MOST_WIDTH};

const LEAST_WIDTH: u64 = 32;

const LAST_LANE: u64 = 255;

// The numbers of a card that lasts, and what follows them.
#[tactic(auto, unfolding(crate::specs::Fields::card_numbers))]
fn card_numbers(content: &[u8]) -> Option<(CardHead, &[u8])>
    ensures value { option_map (λ r. (r.0, r.1.now)) result ≡ card_numbers content.now }
    ensures few { IfSome result (λ r. r.0.addresses ≤ 64) }
{
    let (width, rest) = number_at(LEAST_WIDTH, u64::from(MOST_WIDTH), content)?;
    if width % 16 != 0 {
        return None;
    }
    let rest = after(b" ", rest)?;
    let (from, rest) = number_at(0, LAST_LANE, rest)?;
    let rest = after(b" ", rest)?;
    let (to, rest) = number_at(from, LAST_LANE, rest)?;
    let rest = after(b" ", rest)?;
    let (addresses, rest) = number_at(1, u64::from(MOST_ADDRESSES), rest)?;
    let card = CardHead {
        width: width as u32,
        from: from as u16,
        to: to as u16,
        addresses: addresses as u32,
        until: None,
    };
    Some((card, rest))
}

#[tactic(auto, unfolding(crate::specs::Fields::lasting_card))]
fn lasting_card(content: &[u8]) -> Option<CardHead>
    ensures value { result ≡ lasting_card content.now }
    ensures few { IfSome result (λ card. card.addresses ≤ 64) }
{
    let rest = after(b"express card 1 ", content)?;
    let (card, rest) = card_numbers(rest)?;
    if rest.is_empty() { Some(card) } else { None }
}

#[tactic(auto, unfolding(crate::specs::Fields::dated_card))]
fn dated_card(content: &[u8]) -> Option<CardHead>
    ensures value { result ≡ dated_card content.now }
    ensures few { IfSome result (λ card. card.addresses ≤ 64) }
{
    let rest = after(b"express card 2 ", content)?;
    let (card, rest) = card_numbers(rest)?;
    let rest = after(b" ", rest)?;
    let day = day_in(rest)?;
    Some(CardHead {
        until: Some(day),
        ..card
    })
}

#[tactic(auto, unfolding(crate::specs::Fields::card_of))]
fn card_of(content: &[u8]) -> Option<CardHead>
    ensures value { result ≡ card_of content.now }
    ensures few { IfSome result (λ card. card.addresses ≤ 64) }
{
    match lasting_card(content) {
        Some(card) => Some(card),
        None => dated_card(content),
    }
}

#[tactic(auto, unfolding(crate::specs::Fields::pair_numbers))]
fn pair_numbers(content: &[u8]) -> Option<PairHead>
    ensures { result ≡ pair_numbers content.now }
{
    let rest = after(b"express pair 1 ", content)?;
    let (width, rest) = number_at(LEAST_WIDTH, u64::from(MOST_WIDTH), rest)?;
    if width % 16 != 0 {
        return None;
    }
    let rest = after(b" ", rest)?;
    let (boxes, rest) = number_at(1, u64::from(MOST_BOXES), rest)?;
    let rest = after(b" ", rest)?;
    let (lane, rest) = number_at(0, LAST_LANE, rest)?;
    let rest = after(b" ", rest)?;
    let (from, rest) = number_at(0, LAST_LANE, rest)?;
    let rest = after(b" ", rest)?;
    let to = last_number(from, LAST_LANE, rest)?;
    Some(PairHead {
        width: width as u32,
        boxes: boxes as u32,
        lane: lane as u16,
        from: from as u16,
        to: to as u16,
    })
}

#[tactic(auto, unfolding(crate::specs::Fields::pair_of))]
fn pair_of(content: &[u8]) -> Option<PairHead>
    ensures { result ≡ pair_of content.now }
{
    let pair = pair_numbers(content)?;
    if is_strangers(&pair) {
        None
    } else {
        Some(pair)
    }
}

// Whether the owner's lane is one of the strangers'.
fn is_strangers(pair: &PairHead) -> bool
    ensures { result ≡ is_strangers pair.now }
{
    pair.from <= pair.lane && pair.lane <= pair.to
}

/// What the first line of a sheet says.
#[tactic(auto, unfolding(crate::specs::Fields::head_of))]
pub fn head_of(content: &[u8]) -> Option<Head>
    ensures value { result ≡ head_of content.now }
    ensures few { IfSome result (λ head. count_of head ≤ 64) }
{
    match card_of(content) {
        Some(card) => Some(Head::Card(card)),
        None => {
            let pair = pair_of(content)?;
            Some(Head::Pair(pair))
        }
    }
}

/// The place on a line of this word.
#[tactic(auto, unfolding(crate::specs::Fields::place_of))]
pub fn place_of<'a>(word: &[u8], content: &'a [u8]) -> Option<&'a [u8]>
    ensures value { option_copied result ≡ place_of word.now content.now }
    ensures place { IfSome result (λ place. is_place place.now ≡ true) }
{
    let place = after(word, content)?;
    if is_place(place) { Some(place) } else { None }
}

/// The 32 digits of an address, in lower case.
pub fn address_digits(address: u128) -> [u8; 32]
    ensures { result ≡ address_digits address }
{
    let mut digits = [0; 32];
    match hex::encode_to_slice(address.to_be_bytes().as_slice(), &mut digits) {
        Ok(()) => digits,
        Err(_) => unreachable!(),
    }
}

/// The address on a line, whose digits are in lower case.
#[tactic(auto, unfolding(crate::specs::Fields::address_of))]
pub fn address_of(content: &[u8]) -> Option<u128>
    ensures { result ≡ address_of content.now }
{
    let digits = after(b"address ", content)?;
    let address = spelled_word(digits)?;
    if digits == address_digits(address).as_slice() {
        Some(address)
    } else {
        None
    }
}
