//! What is told of boxes that are closed.
ghost use Rattle.std.specs.Prelude.{◌≡◌, IfOk, string_bytes};
ghost use Rattle.desk_lines.specs.Closing.{closed_line, good_line, nobody_reads, since_text, still_read, until_text};

use desk_texts::{Day, day_text};
use express_words::NoMemory;
use std::alloc::Global;

// Since when the boxes of a name are closed.
#[tactic(auto, unfolding(crate::specs::Closing::since_text))]
fn since_text(alloc: Global, name: &str, day: &Day) -> Result<String, NoMemory>
    ensures { IfOk result (λ text. string_bytes text ≡ since_text name.now day.now) }
{
    let day = day_text(alloc, day)?;
    let text = format!(in alloc; "the boxes of {name} are closed since {day}")?;
    Ok(text)
}

// How long they are read.
#[tactic(auto, unfolding(crate::specs::Closing::still_read))]
fn still_read(alloc: Global, name: &str) -> Result<String, NoMemory>
    ensures { IfOk result (λ text. string_bytes text ≡ still_read name.now) }
{
    let text = format!(in alloc;
        "; letters still reads them, and retire --now {name} gives them up\n"
    )?;
    Ok(text)
}

/// The line that tells since when the boxes of a name are closed, and how long they are read.
pub fn closed_text(alloc: Global, name: &str, day: &Day) -> Result<String, NoMemory>
    ensures { IfOk result (λ text. string_bytes text ≡ closed_line name.now day.now) }
{
    let mut text = since_text(alloc, name, day)?;
    let rest = still_read(alloc, name)?;
    text.push_str(rest.as_str())?;
    Ok(text)
}

// How long the card is good.
fn until_text(alloc: Global, last: Option<Day>) -> Result<String, NoMemory>
    ensures { IfOk result (λ text. string_bytes text ≡ until_text last) }
{
    match last {
        Some(day) => {
            let day = day_text(alloc, &day)?;
            let text = format!(in alloc; "its card is good until {day}")?;
            Ok(text)
        }
        None => {
            let text = String::from_str(alloc, "its card has no last day")?;
            Ok(text)
        }
    }
}

// What becomes of letters once the boxes are gone.
#[tactic(auto, unfolding(crate::specs::Closing::nobody_reads))]
fn nobody_reads(alloc: Global, name: &str) -> Result<String, NoMemory>
    ensures { IfOk result (λ text. string_bytes text ≡ nobody_reads name.now) }
{
    let text = format!(in alloc;
        "; once retire --now {name} has given the boxes up, whoever sends with it is told written, and nobody reads it\n"
    )?;
    Ok(text)
}

/// The line that tells how long the card of a name is good, and what becomes of letters once the boxes are gone.
pub fn good_text(alloc: Global, name: &str, last: Option<Day>) -> Result<String, NoMemory>
    ensures { IfOk result (λ text. string_bytes text ≡ good_line name.now last) }
{
    let mut text = until_text(alloc, last)?;
    let rest = nobody_reads(alloc, name)?;
    text.push_str(rest.as_str())?;
    Ok(text)
}
