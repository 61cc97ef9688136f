//! The first line of a schedule.
ghost use Rattle.std.specs.Prelude.{◌≡◌};
ghost use Rattle.schedule_text.specs.Grammar.{header_of};

use crate::schedule::Header;
use express_texts::{after, number_at, seed_of};
use express_words::Settings;
use express_words::limits::{LEAST_WIDTH, MOST_BOXES, MOST_LANES, MOST_WIDTH, MOST_WINDOW};

/// The header that a line spells.
#[tactic(auto, unfolding(crate::specs::Grammar::header_of))]
pub fn header_of(line: &[u8]) -> Option<Header>
    ensures { result ≡ header_of line.now }
{
    let rest = after(b"express 1 ", line)?;
    let (width, rest) = number_at(u64::from(LEAST_WIDTH), u64::from(MOST_WIDTH), rest)?;
    let rest = after(b" ", rest)?;
    let (boxes, rest) = number_at(1, u64::from(MOST_BOXES), rest)?;
    let rest = after(b" ", rest)?;
    let (lanes, rest) = number_at(1, u64::from(MOST_LANES), rest)?;
    let rest = after(b" ", rest)?;
    let (window, rest) = number_at(1, u64::from(MOST_WINDOW), rest)?;
    let rest = after(b" ", rest)?;
    let seed = seed_of(rest)?;
    let settings = Settings::new(width as u32, boxes as u32, lanes as u16, window as u8)?;
    Some(Header { settings, seed })
}
