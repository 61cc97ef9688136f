//! How many letters there are.
ghost use Rattle.std.specs.Prelude.{◌≡◌, ◌++◌, IfOk, OnOk, length, map};
ghost use Rattle.std.specs.List.{filter};
ghost use Rattle.kept_ledger.specs.declared.entry.Handling.TheVariants.{Shown};
ghost use Rattle.owner_mail.specs.Mail.{all_letters};
ghost use Rattle.owner_mail.specs.News.{is_due};

use crate::mail::NamedMail;
use crate::marks::is_due;
use express_words::NoMemory;
use kept_ledger::{Handling, Ledger};
use std::alloc::Global;
use told_letters::Letter;

fn add_letters<'a>(mail: &'a NamedMail, letters: &mut Vec<&'a Letter>) -> Result<(), NoMemory>
    ensures { OnOk result (map (λ l. l.now) letters.new.items
        ≡ map (λ l. l.now) letters.old.items ++ mail.now.letters) }
{
    let mut rest = mail.letters.as_slice();
    while let [letter, behind @ ..] = rest {
        letters.push(letter)?;
        rest = behind;
    }
    Ok(())
}

/// The letters of all names, in order.
pub(crate) fn letters_in<'a>(
    alloc: Global,
    mails: &'a [NamedMail],
) -> Result<Vec<&'a Letter>, NoMemory>
    ensures { IfOk result (λ letters. map (λ l. l.now) letters.items ≡ all_letters mails.now) }
{
    let mut letters = Vec::new(alloc);
    let mut rest = mails;
    while let [mail, behind @ ..] = rest {
        add_letters(mail, &mut letters)?;
        rest = behind;
    }
    Ok(letters)
}

/// How many of these are to be shown yet.
pub(crate) fn count_new(ledger: &Ledger, letters: &[&Letter]) -> usize
    ensures { result
        ≡ length (filter (is_due Shown ledger.now.state.marks) (map (λ l. l.now) letters.now)) }
{
    let mut count = 0;
    let mut rest = letters;
    while let [letter, behind @ ..] = rest {
        if is_due(ledger, letter, Handling::Shown) {
            count += 1;
        }
        rest = behind;
    }
    count
}
