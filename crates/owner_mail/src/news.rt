//! What is to be told of a ledger's names, in order.
ghost use Rattle.std.specs.Prelude.{◌≡◌, ◌++◌, ◌∷◌, [], IfOk, OnOk, map};
ghost use Rattle.std.specs.List.{flat_map};
ghost use Rattle.owner_mail.specs.News.{Item, letter_news, news_of, plain_news, unopened_news};

use crate::mail::NamedMail;
use crate::marks::is_due;
use express_words::NoMemory;
use kept_ledger::{Handling, Ledger};
use std::alloc::Global;
use told_letters::Letter;

/// What is told at once.
#[derive(Clone, Copy)]
pub(crate) enum News<'a> {
    /// A letter of a name.
    Letter(&'a NamedMail, &'a Letter),
    /// How many readings of a name nothing opens.
    Unopened(&'a NamedMail),
}

fn add<'a>(news: &mut Vec<News<'a>>, one: News<'a>) -> Result<(), NoMemory>
    ensures { OnOk result (map plain_news news.new.items
        ≡ map plain_news news.old.items ++ plain_news one.entry ∷ []) }
{
    match news.push(one) {
        Ok(()) => Ok(()),
        Err(_) => Err(NoMemory),
    }
}

// The letters of a name that are due.
fn add_letters<'a>(
    ledger: &Ledger,
    mail: &'a NamedMail,
    handling: Handling,
    news: &mut Vec<News<'a>>,
) -> Result<(), NoMemory>
    ensures { OnOk result (map plain_news news.new.items
        ≡ map plain_news news.old.items ++ letter_news handling ledger.now.state.marks mail.now) }
{
    let mut rest = mail.letters.as_slice();
    while let [letter, behind @ ..] = rest {
        if is_due(ledger, letter, handling) {
            add(news, News::Letter(mail, letter))?;
        }
        rest = behind;
    }
    Ok(())
}

fn add_unopened<'a>(mail: &'a NamedMail, news: &mut Vec<News<'a>>) -> Result<(), NoMemory>
    ensures { OnOk result (map plain_news news.new.items
        ≡ map plain_news news.old.items ++ unopened_news mail.now) }
{
    if mail.unopened == 0 {
        return Ok(());
    }
    add(news, News::Unopened(mail))
}

fn add_mail<'a>(
    ledger: &Ledger,
    mail: &'a NamedMail,
    handling: Handling,
    news: &mut Vec<News<'a>>,
) -> Result<(), NoMemory>
    ensures { OnOk result (map plain_news news.new.items
        ≡ map plain_news news.old.items ++ news_of handling ledger.now.state.marks mail.now) }
{
    add_letters(ledger, mail, handling, news)?;
    add_unopened(mail, news)
}

/// What is to be told: of each name the letters that are due, in order, and behind them how many of its
/// readings nothing opens.
pub(crate) fn news_in<'a>(
    alloc: Global,
    ledger: &Ledger,
    mails: &'a [NamedMail],
    handling: Handling,
) -> Result<Vec<News<'a>>, NoMemory>
    ensures { IfOk result (λ news. map plain_news news.items
        ≡ flat_map (news_of handling ledger.now.state.marks) mails.now) }
{
    let mut news = Vec::new(alloc);
    let mut rest = mails;
    while let [mail, behind @ ..] = rest {
        add_mail(ledger, mail, handling, &mut news)?;
        rest = behind;
    }
    Ok(news)
}
