//! What is printed of letters.
ghost use Rattle.std.specs.Prelude.{◌≡◌, ◌++◌, IfOk, codes, string_bytes};
ghost use Rattle.desk_lines.specs.Letters.{ShowsLetter, ShowsText, from_text, met_line, no_text};

use crate::moments::moment_text;
use desk_letters::screen_text;
use express_words::NoMemory;
use std::alloc::Global;

// Whose box a letter came from, and when it was read.
#[tactic(auto, unfolding(crate::specs::Letters::from_text))]
pub(crate) fn from_text(alloc: Global, name: &str, moment: &str) -> Result<String, NoMemory>
    ensures { IfOk result (λ text. string_bytes text ≡ from_text name.now moment.now) }
{
    let text = format!(in alloc; "letter from box {name}, read {moment}")?;
    Ok(text)
}

#[tactic(auto, unfolding(crate::specs::Letters::no_text))]
fn no_text(alloc: Global, count: usize) -> Result<String, NoMemory>
    ensures { IfOk result (λ line. string_bytes line ≡ no_text count) }
{
    let line = format!(in alloc;
        "(these {count} bytes are no text: letters --out FOLDER writes them to a file)\n\n"
    )?;
    Ok(line)
}

fn set_text(alloc: Global, shown: &str) -> Result<String, NoMemory>
    ensures { IfOk result (λ line. string_bytes line ≡ shown.now ++ codes "\n\n") }
{
    let line = format!(in alloc; "{shown}\n\n")?;
    Ok(line)
}

// What is printed of a letter's bytes.
fn body_text(alloc: Global, text: &[u8]) -> Result<String, NoMemory>
    ensures { IfOk result (λ body. ShowsText text.now (string_bytes body)) }
{
    match screen_text(alloc, text)? {
        Some(shown) => set_text(alloc, shown.as_str()),
        None => no_text(alloc, text.len()),
    }
}

/// What is printed of a letter that was read in a box of this name at this moment, in seconds since 1970 UTC.
pub fn letter_text(alloc: Global, name: &str, seconds: u64, text: &[u8]) -> Result<String, NoMemory>
    ensures { IfOk result (λ whole. ShowsLetter name.now seconds text.now (string_bytes whole)) }
{
    let moment = moment_text(alloc, seconds)?;
    let mut whole = from_text(alloc, name, moment.as_str())?;
    whole.push_str("\n")?;
    let body = body_text(alloc, text)?;
    whole.push_str(body.as_str())?;
    Ok(whole)
}

/// The line that tells how many readings of the boxes of a name can't be told apart.
#[tactic(auto, unfolding(crate::specs::Letters::met_line))]
pub fn met_text(alloc: Global, name: &str, count: usize) -> Result<String, NoMemory>
    ensures { IfOk result (λ text. string_bytes text ≡ met_line name.now count) }
{
    let text = format!(in alloc;
        "letters met in box {name}: {count} readings can't be told apart yet, and are tried again at each later fetch\n"
    )?;
    Ok(text)
}
