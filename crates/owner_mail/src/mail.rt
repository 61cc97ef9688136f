//! What the boxes of an owner tell, name by name.
ghost use Rattle.std.specs.Prelude.{◌≡◌, IfOk, map};
ghost use Rattle.kept_ledger.specs.Standings.{readings_of};
ghost use Rattle.std.specs.List.{list_any};
ghost use Rattle.owner_mail.specs.Mail.{AreMails, IsMailOf, is_met};
ghost use Rattle.owner_mail.specs.Places.{newest_seconds};

use crate::placing::{box_readings, card_addresses};
use express_words::{NoMemory, Text};
use kept_ledger::{Ledger, Reading};
use letter_reader::Card;
use std::alloc::Global;
use std::marker::Model;
use told_letters::{Letter, Mail, letters};

/// What the boxes with a name tell.
#[derive(Drop)]
pub struct NamedMail {
    /// The name.
    pub name: Text,
    /// The letters that are whole, in the order in which they became so.
    pub letters: Vec<Letter>,
    /// How many readings nothing opens: letters met in these.
    pub unopened: usize,
    /// When the newest reading of the name was made, in seconds since 1970 UTC; 0 where there is none. It is
    /// the moment of each of its letters.
    pub seconds: u64,
}

impl Model for NamedMail {
    ghost use Rattle.owner_mail.specs.Mail.{NamedMail as PlainMail};

    ghost Value = { PlainMail };

    ghost view = { λ m. record {
      name = m.name;
      letters = m.letters.items;
      unopened = m.unopened;
      seconds = m.seconds;
    } };
}

/// The same text.
pub(crate) fn text_of(alloc: Global, text: &str) -> Result<Text, NoMemory>
    ensures { IfOk result (λ copy. copy ≡ text.now) }
{
    let copy = String::from_str(alloc, text)?;
    Ok(Text::from_string(copy))
}

// When the last of these was made.
fn seconds_of(readings: &[&Reading]) -> u64
    ensures { result ≡ newest_seconds (map (λ r. r.now) readings.now) }
{
    match readings.last() {
        Some(newest) => newest.seconds,
        None => 0,
    }
}

fn newest_seconds(alloc: Global, ledger: &Ledger, name: &str) -> Result<u64, NoMemory>
    ensures { IfOk result (λ seconds. seconds ≡ newest_seconds (readings_of ledger.now.state name.now)) }
{
    let readings = ledger.readings_of(alloc, name)?;
    Ok(seconds_of(readings.as_slice()))
}

/// What the boxes with a name tell, by all that was read of them.
pub fn mail_of(alloc: Global, ledger: &Ledger, name: &str) -> Result<NamedMail, NoMemory>
    ensures { IfOk result (λ mail. IsMailOf ledger.now.state name.now mail) }
{
    let addresses = card_addresses(alloc, ledger, name)?;
    let readings = box_readings(alloc, ledger, name, addresses.as_slice())?;
    let card = Card {
        addresses: addresses.len() as u8,
        width: ledger.pair().width as usize,
    };
    let Mail {
        letters,
        partial: _,
        unopened,
    } = letters(alloc, card, readings.as_slice())?;
    let seconds = newest_seconds(alloc, ledger, name)?;
    let name = text_of(alloc, name)?;
    Ok(NamedMail {
        name,
        letters,
        unopened: unopened.len(),
        seconds,
    })
}

/// What the boxes of each name tell, in the order of the names.
pub fn mails_of(alloc: Global, ledger: &Ledger) -> Result<Vec<NamedMail>, NoMemory>
    ensures { IfOk result (λ mails. AreMails ledger.now.state mails.items) }
{
    let names = ledger.named();
    let mut mails = Vec::new(alloc);
    for named in names.iter() {
        let mail = mail_of(alloc, ledger, named.name.as_str())?;
        mails.push(mail)?;
    }
    Ok(mails)
}

fn is_met(mail: &NamedMail) -> bool
    ensures { result ≡ is_met mail.now }
{
    mail.unopened > 0
}

/// Whether nothing opens some of their readings.
pub(crate) fn has_met(mails: &[NamedMail]) -> bool
    ensures { result ≡ list_any is_met mails.now }
{
    mails.iter().any(|mail| is_met(mail))
}
