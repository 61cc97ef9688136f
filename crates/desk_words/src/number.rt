//! Numbers on the command line.
ghost use Rattle.std.specs.Prelude.{◌<◌, ◌^◌, IfOk, option_map};
ghost use Rattle.desk_words.specs.Tasks.{IsCountOf, IsNumberOf};

use crate::task::{MOST_COUNT, USUAL_COUNT};
use std::alloc::{AllocError, Global};

/// The number from 1 to `most` whose decimal digits these are.
pub(crate) fn number_in(alloc: Global, text: &str, most: u32) -> Result<Option<u32>, AllocError>
    ensures { IfOk result (IsNumberOf most text.now) }
{
    let number = match text.parse::<u32>() {
        Ok(number) => number,
        Err(_) => return Ok(None),
    };
    if number < 1 || number > most {
        return Ok(None);
    }
    let digits = format!(in alloc; "{number}")?;
    if digits.as_str() == text {
        Ok(Some(number))
    } else {
        Ok(None)
    }
}

/// How many addresses a card gets: the number whose digits these are, or 16 where there are none.
pub(crate) fn count_in(alloc: Global, text: Option<&str>) -> Result<Option<u32>, AllocError>
    ensures { IfOk result (IsCountOf (option_map (λ s. s.now) text.entry)) }
{
    match text {
        Some(digits) => number_in(alloc, digits, MOST_COUNT),
        None => Ok(Some(USUAL_COUNT)),
    }
}
