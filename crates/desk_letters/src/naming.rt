//! By what a letter is named in a line.
ghost use Rattle.std.specs.Prelude.{◌≡◌, IfOk, encode_utf8_all, map, string_bytes};
ghost use Rattle.std.specs.Str.{chars};
ghost use Rattle.desk_letters.specs.Naming.{in_line, cut, no_words, first_words, IsName};

use crate::hidden::is_hidden;
use express_words::{NoMemory, Text};
use std::alloc::Global;

/// A name has so many characters of its letter at most.
const MOST: usize = 40;

/// The first words of a letter, by which it is named in a line: at most 40 characters, and two dots where there
/// are more. Tabs, newlines and hidden characters are spaces in it, and `"` is `'`, so that it can stand between
/// quotation marks. Of a text that isn't UTF-8, or is blank, it is how many bytes it has.
pub fn first_words(alloc: Global, text: &[u8]) -> Result<Text, NoMemory>
    ensures words { IfOk result (λ words. words ≡ first_words text.now) }
    ensures name { IfOk result (λ words. IsName words) }
{
    let words = match std::str::from_utf8(text) {
        Ok(text) => words_of(alloc, text)?,
        Err(_) => no_words(alloc, text.len())?,
    };
    Ok(Text::from_string(words))
}

fn words_of(alloc: Global, text: &str) -> Result<String, NoMemory>
    ensures { IfOk result (λ words. string_bytes words ≡ first_words text.now) }
{
    let line = in_one_line(alloc, text)?;
    match line.trim() {
        "" => no_words(alloc, text.len()),
        words => cut(alloc, words),
    }
}

// A text in one line.
fn in_one_line(alloc: Global, text: &str) -> Result<String, NoMemory>
    ensures { IfOk result (λ line. string_bytes line ≡ encode_utf8_all (map in_line (chars text.now))) }
{
    let line = text.chars().map(in_line).collect(alloc)?;
    Ok(line)
}

// The first characters of a line, with two dots behind them where there are more.
fn cut(alloc: Global, line: &str) -> Result<String, NoMemory>
    ensures { IfOk result (λ words. string_bytes words ≡ cut line.now) }
{
    let mut words: String = line.chars().take(MOST).collect(alloc)?;
    if words.len() < line.len() {
        words.push_str("..")?;
    }
    Ok(words)
}

#[tactic(auto, unfolding(crate::specs::Naming::no_words))]
fn no_words(alloc: Global, count: usize) -> Result<String, NoMemory>
    ensures { IfOk result (λ words. string_bytes words ≡ no_words count) }
{
    let words = format!(in alloc; "{count} bytes that are no text")?;
    Ok(words)
}

// A character as it stands in a line.
fn in_line(c: char) -> char
    ensures { result ≡ in_line c }
{
    if c == '\t' || c == '\n' || is_hidden(c) {
        ' '
    } else if c == '"' {
        '\''
    } else {
        c
    }
}
