//! The first line of a sheet.
ghost use Rattle.std.specs.Prelude.{◌≡◌, ◌≤◌, IfSome};
ghost use Rattle.desk_sheets.specs.Heads.{card_of, count_of, head_of, pair_of, until_of};

use crate::sheet::MOST_ADDRESSES;
use desk_texts::{Day, day_in};
use express_texts::{after, last_number, number_at};
use express_words::limits::{MOST_BOXES, MOST_WIDTH};

const LEAST_WIDTH: u64 = 32;

const LAST_LANE: u64 = 255;

/// The numbers of a card's first line, and its last day.
#[derive(Clone, Copy)]
pub struct CardHead {
    pub width: u32,
    pub addresses: u32,
    pub until: Option<Day>,
}

/// The numbers of a pair file's first line.
#[derive(Clone, Copy)]
pub struct PairHead {
    pub width: u32,
    pub boxes: u32,
    pub lane: u16,
}

/// The first line of a card or of a pair file.
#[derive(Clone, Copy)]
pub enum Head {
    Card(CardHead),
    Pair(PairHead),
}

// The last day behind a card's numbers, where there is one. Anything else is none.
fn until_of(text: &[u8]) -> Option<Option<Day>>
    ensures { result ≡ until_of text.now }
{
    if text.is_empty() {
        return Some(None);
    }
    let text = after(b" ", text)?;
    let day = day_in(text)?;
    Some(Some(day))
}

#[tactic(auto, unfolding(crate::specs::Heads::card_of))]
fn card_of(content: &[u8]) -> Option<CardHead>
    ensures value { result ≡ card_of content.now }
    ensures few { IfSome result (λ card. card.addresses ≤ 64) }
{
    let rest = after(b"express card 2 ", content)?;
    let (width, rest) = number_at(LEAST_WIDTH, u64::from(MOST_WIDTH), rest)?;
    if width % 16 != 0 {
        return None;
    }
    let rest = after(b" ", rest)?;
    let (addresses, rest) = number_at(1, u64::from(MOST_ADDRESSES), rest)?;
    let until = until_of(rest)?;
    Some(CardHead {
        width: width as u32,
        addresses: addresses as u32,
        until,
    })
}

#[tactic(auto, unfolding(crate::specs::Heads::pair_of))]
fn pair_of(content: &[u8]) -> Option<PairHead>
    ensures { result ≡ pair_of content.now }
{
    let rest = after(b"express pair 2 ", content)?;
    let (width, rest) = number_at(LEAST_WIDTH, u64::from(MOST_WIDTH), rest)?;
    if width % 16 != 0 {
        return None;
    }
    let rest = after(b" ", rest)?;
    let (boxes, rest) = number_at(1, u64::from(MOST_BOXES), rest)?;
    let rest = after(b" ", rest)?;
    let lane = last_number(0, LAST_LANE, rest)?;
    Some(PairHead {
        width: width as u32,
        boxes: boxes as u32,
        lane: lane as u16,
    })
}

/// What the first line of a sheet says.
#[tactic(auto, unfolding(crate::specs::Heads::head_of))]
pub fn head_of(content: &[u8]) -> Option<Head>
    ensures value { result ≡ head_of content.now }
    ensures few { IfSome result (λ head. count_of head ≤ 64) }
{
    match card_of(content) {
        Some(card) => Some(Head::Card(card)),
        None => {
            let pair = pair_of(content)?;
            Some(Head::Pair(pair))
        }
    }
}
