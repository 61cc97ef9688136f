//! What a run of a desk does to its folder and on the net: steps, one after another, and nothing else.
#![tactic(auto)]

mod files;
mod finding;
mod keeping;

pub use files::{empty_file, is_there, open_file};
pub use finding::{Found, LETTER_LIMIT, is_taken, open_at};
pub use keeping::keep_note;
