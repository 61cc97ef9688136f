//! A moment in words.
ghost use Rattle.std.specs.Prelude.{◌≡◌, IfOk, string_bytes};
ghost use Rattle.desk_lines.specs.Moments.{IsMoment, hour_text};

use desk_texts::{Day, day_text};
use express_words::NoMemory;
use std::alloc::Global;

#[tactic(auto, unfolding(crate::specs::Moments::hour_text))]
fn hour_text(alloc: Global, hour: u64, minute: u64) -> Result<String, NoMemory>
    ensures { IfOk result (λ text. string_bytes text ≡ hour_text hour minute) }
{
    let text = format!(in alloc; " {hour:02}:{minute:02} UTC")?;
    Ok(text)
}

/// A moment in seconds since 1970 UTC, as `2026-11-28 21:04 UTC`. Behind the year 9999 its day is that year's last.
pub fn moment_text(alloc: Global, seconds: u64) -> Result<String, NoMemory>
    ensures { IfOk result (λ text. IsMoment seconds (string_bytes text)) }
{
    let day = Day::of(seconds);
    let mut text = day_text(alloc, &day)?;
    let hour = hour_text(alloc, seconds % 86_400 / 3_600, seconds % 3_600 / 60)?;
    text.push_str(hour.as_str())?;
    Ok(text)
}
