//! The lines of a sheet, without the blanks at their ends.
ghost use Rattle.std.specs.Prelude.{◌≡◌, ◌<◌, ◌≤◌, ◌∷◌, length};
ghost use Rattle.desk_texts.specs.Lines.{is_blank, trimmed, lines_in, begins_sheet, lines_before};
ghost use Rattle.desk_texts.specs.Lines.{from_first, content_at};
ghost use Rattle.express_texts.specs.Judging.{Gives};

use crate::checks::{content_of, say};
use express_texts::{TextFault, after, first_line};

// A sheet begins on one of so many lines of a text.
const MOST_LINES: u32 = 65_536;

fn is_blank(byte: u8) -> bool
    ensures { result ≡ is_blank byte }
{
    byte == b' ' || byte == b'\t' || byte == b'\r'
}

// The line without blanks at its end.
fn trimmed(line: &[u8]) -> &[u8]
    ensures { result.now ≡ trimmed line.now }
{
    let mut rest = line;
    while let [front @ .., last] = rest {
        if !is_blank(*last) {
            return rest;
        }
        rest = front;
    }
    rest
}

/// The first line without blanks at its end, and what follows it.
pub fn first_trimmed(text: &[u8]) -> (&[u8], &[u8])
    requires { 0 < length text.now }
    ensures { lines_in text.now ≡ result.0.now ∷ lines_in result.1.now }
{
    let (line, rest) = first_line(text);
    (trimmed(line), rest)
}

// Whether a card or a pair file begins with the line.
fn begins_sheet(line: &[u8]) -> bool
    ensures { result ≡ begins_sheet line.now }
{
    after(b"express card ", line).is_some() || after(b"express pair ", line).is_some()
}

/// How many lines stand before the first that begins a sheet, and the text from that one on: the whole text
/// where none of the first 65,536 lines does.
pub fn from_first(text: &[u8]) -> (u32, &[u8])
    ensures before { result.0 ≡ lines_before (lines_in text.now) }
    ensures lines { lines_in result.1.now ≡ from_first (lines_in text.now) }
    ensures few { result.0 < 65_536 }
{
    let mut rest = text;
    for number in 0..MOST_LINES {
        if rest.is_empty() {
            return (0, text);
        }
        let (line, behind) = first_trimmed(rest);
        if begins_sheet(line) {
            return (number, rest);
        }
        rest = behind;
    }
    (0, text)
}

/// What the line at this place says, and the text behind it. Its content is added to those so far.
#[tactic(auto, unfolding(crate::specs::Lines::content_at, express_texts::specs::Lines::lines_of))]
pub fn content_at<'a>(
    place: u32,
    said: &mut Vec<u8>,
    text: &'a [u8],
) -> Result<(&'a [u8], &'a [u8]), TextFault>
    ensures { Gives (λ r. (r.0.now, said.new.items, lines_in r.1.now)) result
        (content_at place said.old.items (lines_in text.now)) }
{
    if text.is_empty() {
        return Err(TextFault::Wrong(place));
    }
    let (line, rest) = first_trimmed(text);
    let Some(content) = content_of(said, line) else {
        return Err(TextFault::Wrong(place));
    };
    say(said, content)?;
    Ok((content, rest))
}
