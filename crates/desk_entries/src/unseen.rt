//! Letters that nobody has seen.
ghost use Rattle.std.specs.Prelude.{◌≡◌, IfOk, count_by, map};
ghost use Rattle.std.specs.Str.{is_utf8};
ghost use Rattle.desk_entries.specs.Letters.{has_no_text, unseen_among, unseen_of};

use crate::entry::{Entry, Held, Reading};
use crate::letters::{letters_of, shown_of, written_of};
use express_words::NoMemory;
use std::alloc::Global;

#[tactic(auto, using(crate::proofs::TextLaws::some_text, crate::proofs::TextLaws::no_text))]
fn is_text(bytes: &[u8]) -> bool
    ensures { result ≡ is_utf8 bytes.now }
{
    std::str::from_utf8(bytes).is_ok()
}

// Whether it is a letter that is no text.
fn has_no_text(reading: &Reading) -> bool
    ensures { result ≡ has_no_text reading.now }
{
    match &reading.held {
        Held::Letter { id: _, text } => !is_text(text.as_slice()),
        Held::Nothing | Held::Met => false,
    }
}

fn count_without_text(letters: &[&Reading]) -> usize
    ensures { result ≡ count_by has_no_text (map (λ r. r.now) letters.now) }
{
    let mut count = 0;
    let mut rest = letters;
    while let [reading, behind @ ..] = rest {
        if has_no_text(reading) {
            count += 1;
        }
        rest = behind;
    }
    count
}

// How many of these letters nobody has seen, where so many were shown.
fn unseen_among(shown: usize, letters: &[&Reading]) -> usize
    ensures { result ≡ unseen_among shown (map (λ r. r.now) letters.now) }
{
    let (shown, behind) = letters.split_at(shown.min(letters.len()));
    count_without_text(shown) + behind.len()
}

/// How many letters, and boxes in which letters met, nobody has seen: they aren't in files, and they weren't
/// shown, or can't be, since they are no text.
pub fn unseen_of(alloc: Global, entries: &[Entry]) -> Result<usize, NoMemory>
    ensures { IfOk result (λ count. count ≡ unseen_of entries.now) }
{
    let letters = letters_of(alloc, entries)?;
    let written = written_of(entries);
    let shown = shown_of(entries).saturating_sub(written);
    let (_, behind) = letters.split_at((written as usize).min(letters.len()));
    Ok(unseen_among(shown as usize, behind))
}
