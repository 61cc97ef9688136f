//! Letters as a screen shows them, and their first words.
use crate::told::is_told;
use desk_letters::{first_words, screen_text};
use express_words::NoMemory;
use std::alloc::Global;
use std::test::Fail;

fn screen_told(alloc: Global, text: &[u8]) -> Result<String, Fail> {
    match screen_text(alloc, text)? {
        Some(shown) => Ok(String::from_str(alloc, shown.as_str())?),
        None => Ok(String::from_str(alloc, "no text")?),
    }
}

fn is_shown(alloc: Global, text: &str, wanted: &str) -> Result<(), Fail> {
    is_told(screen_told(alloc, text.as_bytes()), wanted)
}

#[test]
fn lines(rt: HostRuntime) -> Result<(), Fail> {
    let alloc = rt.alloc();
    is_shown(alloc, "", "  ")?;
    is_shown(alloc, "é\tat nine\n", "  é\tat nine\n  ")?;
    is_shown(
        alloc,
        "hello\n\nletter from box legal, read 2026-11-30 09:00 UTC\ncome",
        "  hello\n  \n  letter from box legal, read 2026-11-30 09:00 UTC\n  come",
    )?;
    is_told(screen_told(alloc, b"\xff"), "no text")
}

#[test]
fn controls(rt: HostRuntime) -> Result<(), Fail> {
    is_shown(
        rt.alloc(),
        "\0\x07\x08\x0b\x0c\r\x1b[2J\x1f\x7f\u{80}\u{85}\u{9b}\u{9f}",
        "  \\x00\\x07\\x08\\x0b\\x0c\\x0d\\x1b[2J\\x1f\\x7f\\x80\\x85\\x9b\\x9f",
    )
}

// The ends of the ranges of characters that steer what is beside them, or show nothing, by Unicode's data.
const FORMATS: &str =
    "\u{ad}\u{34f}\u{600}\u{605}\u{61c}\u{6dd}\u{70f}\u{890}\u{891}\u{8e2}\u{115f}\
    \u{1160}\u{17b4}\u{17b5}\u{180b}\u{180f}\u{200b}\u{200f}\u{2028}\u{2029}\u{202a}\u{202e}\u{2060}\
    \u{2066}\u{206f}\u{3164}\u{fe00}\u{fe0f}\u{feff}\u{ffa0}\u{fff0}\u{fffb}\u{110bd}\u{110cd}\u{13430}\
    \u{1343f}\u{1bca0}\u{1bca3}\u{1d173}\u{1d17a}\u{e0000}\u{e0001}\u{e007f}\u{e0fff}";

const SPELLED: &str =
    "  \\u{ad}\\u{34f}\\u{600}\\u{605}\\u{61c}\\u{6dd}\\u{70f}\\u{890}\\u{891}\\u{8e2}\
    \\u{115f}\\u{1160}\\u{17b4}\\u{17b5}\\u{180b}\\u{180f}\\u{200b}\\u{200f}\\u{2028}\\u{2029}\\u{202a}\
    \\u{202e}\\u{2060}\\u{2066}\\u{206f}\\u{3164}\\u{fe00}\\u{fe0f}\\u{feff}\\u{ffa0}\\u{fff0}\\u{fffb}\
    \\u{110bd}\\u{110cd}\\u{13430}\\u{1343f}\\u{1bca0}\\u{1bca3}\\u{1d173}\\u{1d17a}\\u{e0000}\\u{e0001}\
    \\u{e007f}\\u{e0fff}";

// Some of those beside them, and other scripts, signs and spaces.
const BESIDE: &str =
    "  \u{ac}\u{a0}\u{ae}\u{34e}\u{350}\u{606}\u{61b}\u{6de}\u{710}\u{1161}\u{200a}\u{2010}\u{2027}\u{202f}\
    \u{2070}\u{3000}\u{3163}\u{fe10}\u{ff9f}\u{fffc}\u{fffd}\u{1d17b} \\\"{}~ é€ß щ ש م 漢 \u{1f600}";

#[test]
fn formats(rt: HostRuntime) -> Result<(), Fail> {
    is_shown(rt.alloc(), FORMATS, SPELLED)?;
    is_shown(rt.alloc(), BESIDE.trim_start(), BESIDE)
}

fn named(alloc: Global, text: &[u8]) -> Result<String, Fail> {
    let words = first_words(alloc, text)?;
    Ok(String::from_str(alloc, words.as_str())?)
}

fn is_named(alloc: Global, text: &str, wanted: &str) -> Result<(), Fail> {
    is_told(named(alloc, text.as_bytes()), wanted)
}

#[test]
fn names(rt: HostRuntime) -> Result<(), Fail> {
    let alloc = rt.alloc();
    is_named(
        alloc,
        "At nine, by the side door.\n",
        "At nine, by the side door.",
    )?;
    is_named(
        alloc,
        "Äsop's brother owns the quarry at the end",
        "Äsop's brother owns the quarry at the en..",
    )?;
    is_named(
        alloc,
        "Äsop's brother owns the quarry at the en",
        "Äsop's brother owns the quarry at the en",
    )?;
    is_named(
        alloc,
        "\n\tAt nine\r\nby \u{202e}the\x1b side",
        "At nine  by  the  side",
    )
}

#[test]
fn names_that_mislead(rt: HostRuntime) -> Result<(), Fail> {
    let alloc = rt.alloc();
    is_named(alloc, "At nine\": written. \"No", "At nine': written. 'No")?;
    is_named(alloc, " \n", "2 bytes that are no text")?;
    is_told(
        named(alloc, b"\xff\xfe\x00 At n"),
        "8 bytes that are no text",
    )
}
