//! Letters that nobody has seen.
ghost use Rattle.std.specs.Prelude.{◌≡◌, IfOk};
ghost use Rattle.std.specs.List.{list_any};
ghost use Rattle.std.specs.Str.{is_utf8};
ghost use Rattle.owner_mail.specs.Unseen.{IsUnseen, has_unseen_letter, is_unseen_letter};

use crate::mail::{NamedMail, mails_of};
use crate::marks::mark_of;
use express_words::NoMemory;
use kept_ledger::{Handling, Ledger};
use std::alloc::Global;
use told_letters::Letter;

#[tactic(auto, using(kept_ledger::proofs::TextLaws::some_text, kept_ledger::proofs::TextLaws::no_text))]
fn is_text(bytes: &[u8]) -> bool
    ensures { result ≡ is_utf8 bytes.now }
{
    std::str::from_utf8(bytes).is_ok()
}

// Whether no screen shows a letter, and it isn't in a file.
fn is_unseen_letter(ledger: &Ledger, letter: &Letter) -> bool
    ensures { result ≡ is_unseen_letter ledger.now.state.marks letter.now }
{
    !is_text(letter.text.as_slice()) && !ledger.is_marked(mark_of(letter), Handling::Written)
}

fn has_unseen_letter(ledger: &Ledger, mail: &NamedMail) -> bool
    ensures { result ≡ has_unseen_letter ledger.now.state.marks mail.now }
{
    mail.letters
        .iter()
        .any(|letter| is_unseen_letter(ledger, letter))
}

fn is_any_unseen(ledger: &Ledger, mails: &[NamedMail]) -> bool
    ensures { result ≡ list_any (has_unseen_letter ledger.now.state.marks) mails.now }
{
    mails.iter().any(|mail| has_unseen_letter(ledger, mail))
}

/// Whether some letter is no text and isn't in a file, so that nobody has seen it.
pub fn is_unseen(alloc: Global, ledger: &Ledger) -> Result<bool, NoMemory>
    ensures { IfOk result (λ unseen. IsUnseen ledger.now.state unseen) }
{
    let mails = mails_of(alloc, ledger)?;
    Ok(is_any_unseen(ledger, mails.as_slice()))
}
