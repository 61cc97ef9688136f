//! A day of the calendar.
ghost use Rattle.std.specs.Prelude.{◌≡◌, ◌/◌, ◌<◌, ◌≤◌, ◌<ℤ◌, ◌↔◌, pos, min, IsTrue, IfOk, IfSome};
ghost use Rattle.std.specs.Prelude.{string_bytes, option_map, Some};
ghost use Rattle.desk_texts.specs.Days.{IsDay, is_day, number_of, is_after, is_leap_day, IsAYearLater};
ghost use Rattle.desk_texts.specs.Days.{day_text, two_digits, last_day, day_of, JudgesDay};

use express_texts::after;
use jiff_core::civil::{self, Date};
use std::alloc::{AllocError, Global};

const SECONDS_OF_A_DAY: u64 = 86_400;

// How many days the last of all lies behind 1 January 1970.
const LAST_NUMBER: u64 = 2_932_896;

/// A day of the Gregorian calendar.
#[derive(Clone, Copy, Debug, PartialEq, Eq)]
pub struct Day {
    /// The year, at most 9999.
    pub year: u16,
    /// The month, from 1 for January to 12.
    pub month: u8,
    /// The day of the month, from 1 on.
    pub day: u8,
}

impl Day {
    /// The last day of all, 31 December 9999.
    pub const LAST: Day = Day {
        year: 9999,
        month: 12,
        day: 31,
    };

    /// The day in UTC of a moment in seconds since 1970; from the year 10000 on, the last day of all.
    pub fn of(seconds: u64) -> Day
        ensures day { IsDay result }
        ensures number { number_of result ≡ pos (min (seconds / 86_400) 2_932_896) }
    {
        let number = (seconds / SECONDS_OF_A_DAY).min(LAST_NUMBER);
        match Date::from_unix_epoch_day(number as i64) {
            Ok(date) => Day {
                year: date.year.unsigned_abs(),
                month: date.month,
                day: date.day,
            },
            Err(_) => unreachable!(),
        }
    }

    /// Whether the calendar has this day, and its year is at most 9999.
    pub fn is_day(&self) -> bool
        ensures value { result ≡ is_day self.now }
        ensures day { IsTrue result ↔ IsDay self.now }
    {
        self.year <= 9999
            && 1 <= self.month
            && self.month <= 12
            && 1 <= self.day
            && self.day <= civil::days_in_month(self.year as i16, self.month)
    }

    /// Whether this day is later than the other.
    pub fn is_after(&self, other: &Day) -> bool
        ensures value { result ≡ is_after self.now other.now }
        ensures number { IsDay self.now → IsDay other.now
            → (IsTrue result ↔ (number_of other.now <ℤ number_of self.now)) }
    {
        self.year > other.year
            || (self.year == other.year
                && (self.month > other.month
                    || (self.month == other.month && self.day > other.day)))
    }

    // Whether it is a 29 February.
    fn is_leap_day(&self) -> bool
        ensures { result ≡ is_leap_day self.now }
    {
        self.month == 2 && self.day == 29
    }

    /// The same day of the next year, or 28 February for 29 February; from the year 9999 on, the last day of
    /// all.
    pub fn in_a_year(&self) -> Day
        ensures day { IsDay self.now → IsDay result }
        ensures later { self.now.year < 9999 → IsAYearLater self.now result }
        ensures last { 9999 ≤ self.now.year → result ≡ Day.LAST }
    {
        if self.year >= Day::LAST.year {
            return Day::LAST;
        }
        Day {
            year: self.year + 1,
            month: self.month,
            day: if self.is_leap_day() { 28 } else { self.day },
        }
    }
}

// The number of two digits in front, and what follows them.
#[tactic(auto, unfolding(crate::specs::Days::two_digits))]
fn two_digits(text: &[u8]) -> Option<(u8, &[u8])>
    ensures value { option_map (λ r. (r.0, r.1.now)) result ≡ two_digits text.now }
    ensures small { IfSome result (λ r. r.0 < 100) }
{
    match text {
        [a, b, rest @ ..] if a.is_ascii_digit() && b.is_ascii_digit() => {
            Some((10 * (*a - b'0') + (*b - b'0'), rest))
        }
        _ => None,
    }
}

// The day, where the calendar has it and nothing follows.
fn last_day(day: Day, rest: &[u8]) -> Option<Day>
    ensures { result ≡ last_day day rest.now }
{
    match rest {
        [] => { if day.is_day() { Some(day) } else { None } }
        [_, ..] => None,
    }
}

#[tactic(auto, unfolding(crate::specs::Days::day_of))]
fn read_day(text: &[u8]) -> Option<Day>
    ensures { result ≡ day_of text.now }
{
    let (century, rest) = two_digits(text)?;
    let (year, rest) = two_digits(rest)?;
    let rest = after(b"-", rest)?;
    let (month, rest) = two_digits(rest)?;
    let rest = after(b"-", rest)?;
    let (day, rest) = two_digits(rest)?;
    let year = 100 * u16::from(century) + u16::from(year);
    last_day(Day { year, month, day }, rest)
}

/// The day that a text of ten characters names, as `2027-03-01`, if the calendar has it.
pub fn day_in(text: &[u8]) -> Option<Day>
    ensures value { result ≡ day_of text.now }
    ensures judges { JudgesDay text.now result }
{
    read_day(text)
}

/// The ten characters of a day, as `2027-03-01`: of one that the calendar has, `day_in` reads it again.
pub fn day_text(alloc: Global, day: &Day) -> Result<String, AllocError>
    ensures text { IfOk result (λ text. string_bytes text ≡ day_text day.now) }
    ensures again { IsDay day.now → IfOk result (λ text. day_of (string_bytes text) ≡ Some day.now) }
{
    let Day { year, month, day } = *day;
    format!(in alloc; "{year:04}-{month:02}-{day:02}")
}
