//! A moment in words.
ghost use Rattle.std.specs.Prelude.{◌≡◌};

use std::alloc::{AllocError, Global};

const DAY: u64 = 86_400;

// The last second of the year 9999.
const LAST: u64 = 253_402_300_799;

// A day of the calendar.
#[derive(Clone, Copy)]
struct Date {
    year: u64,
    month: u64,
    day: u64,
}

// The date of the day of this number, counted from the first of January 1970. Years are counted from March on, so that
// a leap day is the last of its year.
fn date_of(days: u64) -> Date {
    let shifted = days % 2_932_897 + 719_468;
    let era = shifted / 146_097;
    let of_era = shifted % 146_097;
    let leap_days = of_era / 1_460 - of_era / 36_524 + of_era / 146_096;
    let year_of_era = (of_era - leap_days) / 365;
    let before = 365 * year_of_era + year_of_era / 4 - year_of_era / 100;
    let of_year = of_era.saturating_sub(before);
    let shifted_month = (5 * of_year + 2) / 153;
    let day = of_year.saturating_sub((153 * shifted_month + 2) / 5) + 1;
    let month = if shifted_month < 10 {
        shifted_month + 3
    } else {
        shifted_month.saturating_sub(9)
    };
    let year = era * 400 + year_of_era + if month <= 2 { 1 } else { 0 };
    Date { year, month, day }
}

/// A moment in seconds since 1970 UTC, as `2026-11-28 21:04 UTC`. Behind the year 9999 it is that year's last.
pub(crate) fn moment_text(alloc: Global, seconds: u64) -> Result<String, AllocError> {
    let seconds = seconds.min(LAST);
    let Date { year, month, day } = date_of(seconds / DAY);
    let minutes = seconds % DAY / 60;
    let hour = minutes / 60;
    let minute = minutes % 60;
    format!(in alloc; "{year:04}-{month:02}-{day:02} {hour:02}:{minute:02} UTC")
}
