//! The card of a name.
ghost use Rattle.std.specs.Prelude.{◌≡◌, Err, IfErr, IfOk, OnOk};
ghost use Rattle.express_words.specs.Streams.{Took};
ghost use Rattle.desk_around.specs.Ends.{IsUndone, Unfailed};
ghost use Rattle.desk_lines.specs.Boxes.{retired_line};
ghost use Rattle.desk_lines.specs.Closing.{closed_line};
ghost use Rattle.desk_sheets.specs.Printing.{printed_card};
ghost use Rattle.owner_mail.specs.Cards.{IsUnsaid, SaysCard, card_of, has_any, open_card, the_card};

use crate::mail::text_of;
use crate::placing::card_addresses;
use desk_around::{Trouble, say, say_bytes};
use desk_lines::{closed_text, retired_text};
use desk_sheets::{Card, print_card};
use desk_texts::Day;
use express_words::outside::Sink;
use express_words::{List, NoMemory};
use kept_ledger::{Ledger, Standing};
use std::alloc::Global;

/// What there is of a name's card.
#[derive(Drop)]
pub enum NamedCard {
    /// The card.
    Card(Card),
    /// Its boxes are closed since this day: it isn't handed out any more.
    Closed(Day),
    /// Its boxes are to be retired, or are.
    Retired,
    /// Some of its boxes are to be made yet, and then stand on it too.
    Waiting,
    /// The name has no live box.
    NoBox,
}

// Whether an address of a name stands so.
fn has_any(alloc: Global, ledger: &Ledger, name: &str, standing: Standing) -> Result<bool, NoMemory>
    ensures { IfOk result (λ some. some ≡ has_any ledger.now.state name.now standing) }
{
    let found = ledger.addresses_that(alloc, name, standing)?;
    Ok(!found.is_empty())
}

fn the_card(
    alloc: Global,
    ledger: &Ledger,
    name: &str,
    until: Option<Day>,
) -> Result<Card, NoMemory>
    ensures { IfOk result (λ card. card ≡ the_card ledger.now.state name.now until) }
{
    let pair = ledger.pair();
    let leader = text_of(alloc, pair.leader.place.as_str())?;
    let helper = text_of(alloc, pair.helper.place.as_str())?;
    let addresses = card_addresses(alloc, ledger, name)?;
    Ok(Card {
        width: pair.width,
        until,
        leader,
        helper,
        addresses: List::from_vec(addresses),
    })
}

// What there is of the card of boxes that are open.
fn open_card(
    alloc: Global,
    ledger: &Ledger,
    name: &str,
    until: Option<Day>,
) -> Result<NamedCard, NoMemory>
    ensures { IfOk result (λ card. card ≡ open_card ledger.now.state name.now until) }
{
    if has_any(alloc, ledger, name, Standing::Waiting)? {
        return Ok(NamedCard::Waiting);
    }
    if !has_any(alloc, ledger, name, Standing::Live)? {
        return Ok(NamedCard::NoBox);
    }
    let card = the_card(alloc, ledger, name, until)?;
    Ok(NamedCard::Card(card))
}

/// What there is of the card of a name. There is no card while some of its addresses wait for their box, for
/// its places are those of all its boxes.
pub fn card_of(alloc: Global, ledger: &Ledger, name: &str) -> Result<NamedCard, NoMemory>
    ensures { IfOk result (λ card. card ≡ card_of ledger.now.state name.now) }
{
    let Some(named) = ledger.named_boxes(name) else {
        return Ok(NamedCard::NoBox);
    };
    if named.is_retiring {
        return Ok(NamedCard::Retired);
    }
    match named.closed {
        Some(day) => Ok(NamedCard::Closed(day)),
        None => open_card(alloc, ledger, name, named.until),
    }
}

fn print<'a, K: Sink>(alloc: Global, card: &Card, out: &mut K) -> Result<(), Trouble<'a>>
    ensures said { OnOk result (Took (K.seen out.old).written (K.seen out.new).written (printed_card card.now)) }
    ensures failed { IfErr result IsUnsaid }
    ensures sink { Unfailed (K.seen out.old).faults (K.seen out.new).faults result }
{
    match print_card(alloc, card) {
        Ok(text) => say_bytes(out, text.as_slice()),
        Err(_) => Err(Trouble::NoMemory),
    }
}

fn say_closed<'a, K: Sink>(
    alloc: Global,
    name: &str,
    day: &Day,
    out: &mut K,
) -> Result<(), Trouble<'a>>
    ensures said { OnOk result (Took (K.seen out.old).written (K.seen out.new).written
        (closed_line name.now day.now)) }
    ensures failed { IfErr result IsUnsaid }
    ensures sink { Unfailed (K.seen out.old).faults (K.seen out.new).faults result }
{
    match closed_text(alloc, name, day) {
        Ok(text) => say_bytes(out, text.as_bytes()),
        Err(_) => Err(Trouble::NoMemory),
    }
}

fn say_retired<'a, K: Sink>(alloc: Global, name: &str, out: &mut K) -> Result<(), Trouble<'a>>
    ensures said { OnOk result (Took (K.seen out.old).written (K.seen out.new).written (retired_line name.now)) }
    ensures failed { IfErr result IsUnsaid }
    ensures sink { Unfailed (K.seen out.old).faults (K.seen out.new).faults result }
{
    match retired_text(alloc, name) {
        Ok(text) => say_bytes(out, text.as_bytes()),
        Err(_) => Err(Trouble::NoMemory),
    }
}

// Prints what there is of a card, and says whether it is the card.
fn say_found<'a, K: Sink>(
    alloc: Global,
    found: &NamedCard,
    name: &'a str,
    out: &mut K,
) -> Result<bool, Trouble<'a>>
    ensures said { IfOk result (λ is_card. SaysCard found.now name.entry.now is_card
        (K.seen out.old).written (K.seen out.new).written) }
    ensures later { result ≡ Err Trouble.Later → found.now ≡ NamedCard.Waiting }
    ensures none { result ≡ Err (Trouble.NoName name.entry) → found.now ≡ NamedCard.NoBox }
    ensures undone { IfErr result IsUndone }
    ensures sink { Unfailed (K.seen out.old).faults (K.seen out.new).faults result }
{
    match found {
        NamedCard::Card(card) => {
            print(alloc, card, out)?;
            Ok(true)
        }
        NamedCard::Closed(day) => {
            say_closed(alloc, name, day, out)?;
            Ok(false)
        }
        NamedCard::Retired => {
            say_retired(alloc, name, out)?;
            Ok(false)
        }
        NamedCard::Waiting => Err(Trouble::Later),
        NamedCard::NoBox => Err(Trouble::NoName(name)),
    }
}

/// Prints the card of a name, or where its boxes are closed or retired the line that says so. Whether it is
/// the card is given. Where some of its boxes are to be made yet, that is to be done before: `Later`. Where it
/// has no live box: `NoName`.
pub fn say_card<'a, K: Sink>(
    alloc: Global,
    ledger: &Ledger,
    name: &'a str,
    out: &mut K,
) -> Result<bool, Trouble<'a>>
    ensures said { IfOk result (λ is_card. SaysCard (card_of ledger.now.state name.entry.now) name.entry.now is_card
        (K.seen out.old).written (K.seen out.new).written) }
    ensures later { result ≡ Err Trouble.Later → card_of ledger.now.state name.entry.now ≡ NamedCard.Waiting }
    ensures none { result ≡ Err (Trouble.NoName name.entry)
        → card_of ledger.now.state name.entry.now ≡ NamedCard.NoBox }
    ensures undone { IfErr result IsUndone }
    ensures sink { Unfailed (K.seen out.old).faults (K.seen out.new).faults result }
{
    match card_of(alloc, ledger, name) {
        Ok(found) => say_found(alloc, &found, name, out),
        Err(_) => Err(Trouble::NoMemory),
    }
}
