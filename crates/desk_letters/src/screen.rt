//! The text of a letter for a screen.
ghost use Rattle.std.specs.Prelude.{◌≡◌, ◌<◌, ◌++◌, IfOk, IfSome, MatchOption, string_bytes, encode_utf8_all};
ghost use Rattle.std.specs.List.{flat_map};
ghost use Rattle.std.specs.Char.{digit_char};
ghost use Rattle.std.specs.Str.{IsUtf8};
ghost use Rattle.desk_letters.specs.Screen.{with_margin, shown, spelled_out, set_off, shown_text};
ghost use Rattle.desk_letters.specs.Screen.{ForgesNone, IsSetOff, ShowsAll};

use crate::hidden::is_hidden;
use express_words::{NoMemory, Text};
use std::alloc::Global;

/// The text for a screen, or None where it isn't UTF-8. Two spaces stand before each line, so that none looks
/// like a line of the program's own. A control character other than tab and newline is spelled as `\x1b`, with
/// two hexadecimal digits, any other hidden character as `\u{202e}`; all others stay.
pub fn screen_text(alloc: Global, text: &[u8]) -> Result<Option<Text>, NoMemory>
    ensures utf8 { IfOk result (λ shown. MatchOption shown (¬ (IsUtf8 text.now)) (λ _. IsUtf8 text.now)) }
    ensures shown { IfOk result (λ shown. IfSome shown (λ t. t ≡ shown_text text.now)) }
    ensures clean { IfOk result (λ shown. IfSome shown (λ t. ShowsAll t)) }
    ensures same { ShowsAll text.now → IfOk result (λ shown. IfSome shown (λ t. t ≡ set_off text.now)) }
    ensures set_off { IfOk result (λ shown. IfSome shown (λ t. IsSetOff t)) }
    ensures apart { IfOk result (λ shown. IfSome shown (λ t. ForgesNone t)) }
{
    match std::str::from_utf8(text) {
        Ok(text) => {
            let shown = shown_text(alloc, text)?;
            Ok(Some(Text::from_string(shown)))
        }
        Err(_) => Ok(None),
    }
}

fn shown_text(alloc: Global, text: &str) -> Result<String, NoMemory>
    ensures { IfOk result (λ out. string_bytes out ≡ shown_text text.now) }
{
    let mut out = String::new(alloc);
    out.push_str("  ")?;
    for c in text.chars() {
        add_shown(&mut out, c)?;
    }
    Ok(out)
}

// Adds a character as it is shown, and two spaces behind a newline.
fn add_shown(out: &mut String, c: char) -> Result<(), NoMemory>
    ensures { IfOk result (λ _. string_bytes out.new
        ≡ string_bytes out.old ++ flat_map with_margin (encode_utf8_all (shown c))) }
{
    if c == '\n' {
        out.push_str("\n  ")?;
        return Ok(());
    }
    if is_hidden(c) {
        add_spelled(out, c)
    } else {
        out.push(c)?;
        Ok(())
    }
}

fn add_spelled(out: &mut String, c: char) -> Result<(), NoMemory>
    ensures { IfOk result (λ _. string_bytes out.new
        ≡ string_bytes out.old ++ encode_utf8_all (spelled_out c)) }
{
    if !c.is_control() {
        out.extend(c.escape_unicode())?;
        return Ok(());
    }
    out.push('\\')?;
    out.push('x')?;
    out.push(digit(c as u32 / 16))?;
    out.push(digit(c as u32 % 16))?;
    Ok(())
}

fn digit(value: u32) -> char
    requires { value < 16 }
    ensures { result ≡ digit_char value }
{
    match char::from_digit(value, 16) {
        Some(digit) => digit,
        None => unreachable!(),
    }
}
