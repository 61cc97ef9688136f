//! What an owner and an operator hand out on paper: a card, by which a stranger leaves letters, and a pair
//! file, by which an owner opens a desk. Each line ends with a check word over the lines so far, so that the
//! line that was mistyped is named. A card may have a last day.
#![tactic(auto)]

mod checks;
mod day;
mod fields;
mod lines;
mod places;
mod printing;
mod reading;
mod sheet;

pub use checks::add_line;
pub use day::{Day, day_in, day_text};
pub use lines::{content_at, first_trimmed, from_first};
pub use places::is_place;
pub use printing::{
    add_addresses, before_last, check_digits, digits_text, helper_text, leader_text, print,
};
pub use reading::{addresses_at, place_at, place_text, read_sheet, sheet_is_read_exactly};
pub use sheet::{CardHead, Head, MOST_ADDRESSES, PairHead, Sheet};
