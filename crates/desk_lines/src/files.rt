//! What is told of a letter that is in its file.
ghost use Rattle.std.specs.Prelude.{◌≡◌, IfOk, string_bytes};
ghost use Rattle.desk_lines.specs.Letters.{TellsFile, file_name, place_text};

use crate::letters::from_text;
use crate::moments::moment_text;
use express_words::NoMemory;
use std::alloc::Global;

/// By what a letter's file is told from others: the letter's id and number of parts, and the desk's tag.
#[derive(Clone, Copy, Debug, PartialEq, Eq)]
pub struct FileMark {
    pub id: u64,
    pub parts: u8,
    pub tag: u32,
}

/// The name of a letter's file.
#[tactic(auto, unfolding(crate::specs::Letters::file_name))]
pub fn file_name(alloc: Global, name: &str, mark: &FileMark) -> Result<String, NoMemory>
    ensures { IfOk result (λ file. string_bytes file ≡ file_name name.now mark.now.id mark.now.parts mark.now.tag) }
{
    let FileMark { id, parts, tag } = *mark;
    let text = format!(in alloc; "{name}-{id}-{parts}-{tag}.txt")?;
    Ok(text)
}

#[tactic(auto, unfolding(crate::specs::Letters::place_text))]
fn place_text(alloc: Global, folder: &str, file: &str) -> Result<String, NoMemory>
    ensures { IfOk result (λ text. string_bytes text ≡ place_text folder.now file.now) }
{
    let text = format!(in alloc; ": {folder}/{file}\n")?;
    Ok(text)
}

/// The line that tells where a letter from a box of this name lies, read at this moment, in seconds since 1970 UTC.
pub fn file_text(
    alloc: Global,
    folder: &str,
    name: &str,
    seconds: u64,
    mark: &FileMark,
) -> Result<String, NoMemory>
    ensures { IfOk result (λ text.
        TellsFile folder.now name.now seconds mark.now.id mark.now.parts mark.now.tag (string_bytes text)) }
{
    let moment = moment_text(alloc, seconds)?;
    let mut text = from_text(alloc, name, moment.as_str())?;
    let file = file_name(alloc, name, mark)?;
    let place = place_text(alloc, folder, file.as_str())?;
    text.push_str(place.as_str())?;
    Ok(text)
}
