//! A letter of which parts are missing.
ghost use Rattle.std.specs.Prelude.{◌≡◌, ◌-◌, IfOk, All, map, length};
ghost use Rattle.told_letters.specs.Parts.{contents, parts_in};

use crate::heading::Heading;
use crate::pieces::first_piece;
use express_words::NoMemory;
use letter_pieces::Piece;
use std::alloc::Global;

/// A letter of which parts are missing.
#[derive(Clone, Copy, Debug, PartialEq, Eq)]
pub struct Partial {
    /// Its id, and how many parts it has.
    pub heading: Heading,
    /// How many of its parts are known.
    pub known: u8,
}

impl Partial {
    /// How many of its parts aren't known.
    pub fn missing(&self) -> u8
        ensures { result ≡ self.now.heading.parts - self.now.known }
    {
        self.heading.parts.saturating_sub(self.known)
    }
}

// These letters, each with how many of its parts are known.
pub(crate) fn with_counts(
    alloc: Global,
    known: &[Piece],
    headings: &[Heading],
) -> Result<Vec<Partial>, NoMemory>
    ensures headings { IfOk result (λ partial. map (λ q. q.heading) partial.items ≡ headings.now) }
    ensures counts { IfOk result (λ partial.
        All (λ q. q.known ≡ length (parts_in (contents known.now) q.heading)) partial.items) }
{
    let mut partial = Vec::new(alloc);
    for heading in headings {
        partial.push(Partial {
            heading: *heading,
            known: count_of(known, *heading),
        })?;
    }
    Ok(partial)
}

// How many of a letter's parts are known.
fn count_of(known: &[Piece], heading: Heading) -> u8
    ensures { result ≡ length (parts_in (contents known.now) heading) }
{
    let mut count = 0;
    for part in 0..heading.parts {
        if first_piece(known, heading, part).is_some() {
            count += 1;
        }
    }
    count
}
