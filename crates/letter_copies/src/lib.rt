//! The copies of a stranger's letter: each is one write at one address, tried until an answer tells what became of it.
//! What each answer tells of a copy, what is done next, and what became of the letter.
#![tactic(auto)]

mod copies;
mod heard;
pub mod laws;
mod standing;

pub use copies::{Copies, LetterEnd, Next, Try};
pub use heard::{Answer, Fate, fate_by};
pub use standing::{MOST_FURTHER, Standing};
