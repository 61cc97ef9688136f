//! The check word at the end of a line.
ghost use Rattle.std.specs.Prelude.{◌≡◌, ◌+◌, ◌%◌, ◌++◌, ◌∷◌, [], OnOk};
ghost use Rattle.std.specs.Option.{option_copied};
ghost use Rattle.desk_texts.specs.Checks.{check_word, with_content, content_of};

use express_words::NoMemory;
use sha2::{Digest, Sha256};

const CHECK_LEN: usize = 6;

// A space, and a digit for each of the first five bytes of a digest: of the contents so far and this one,
// each with an LF behind it.
fn check_word(said: &[u8], content: &[u8]) -> [u8; CHECK_LEN]
    ensures { result ≡ check_word (with_content said.now content.now) }
{
    let mut hasher = Sha256::new();
    hasher.update(said);
    hasher.update(content);
    hasher.update(b"\n");
    let digest = hasher.finalize();
    [
        b' ',
        digit(digest[0]),
        digit(digest[1]),
        digit(digest[2]),
        digit(digest[3]),
        digit(digest[4]),
    ]
}

fn digit(byte: u8) -> u8
    ensures { result ≡ 48 + byte % 10 }
{
    b'0' + byte % 10
}

/// What a line says, where its check word is right behind these contents.
#[tactic(auto, unfolding(crate::specs::Checks::content_of))]
pub fn content_of<'a>(said: &[u8], line: &'a [u8]) -> Option<&'a [u8]>
    ensures { option_copied result ≡ content_of said.now line.now }
{
    let (content, word) = line.split_at(line.len().saturating_sub(CHECK_LEN));
    if word == check_word(said, content).as_slice() {
        Some(content)
    } else {
        None
    }
}

/// Adds a content to those so far.
pub fn say(said: &mut Vec<u8>, content: &[u8]) -> Result<(), NoMemory>
    ensures { OnOk result (said.new.items ≡ with_content said.old.items content.now) }
{
    said.extend_from_slice(content)?;
    said.push(b'\n')?;
    Ok(())
}

/// Adds a line with its check word to a text.
pub fn add_line(text: &mut Vec<u8>, said: &mut Vec<u8>, content: &[u8]) -> Result<(), NoMemory>
    ensures text { OnOk result (text.new.items
        ≡ text.old.items
        ++ ((content.now ++ check_word (with_content said.old.items content.now)) ++ 10 ∷ [])) }
    ensures said { OnOk result (said.new.items ≡ with_content said.old.items content.now) }
{
    let word = check_word(said, content);
    text.extend_from_slice(content)?;
    text.extend_from_slice(word.as_slice())?;
    text.push(b'\n')?;
    say(said, content)
}
