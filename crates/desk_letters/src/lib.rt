//! A letter in a box: a text with its length, an id and a digest, so that an empty box, one letter and two that
//! met are told apart; the text of a letter for a screen, and its first words, by which it is named.
#![tactic(auto)]

mod fault;
mod hidden;
pub mod laws;
mod letter;
mod naming;
mod screen;

pub use fault::SealFault;
pub use letter::{HEADER, Opened, open, room, seal};
pub use naming::first_words;
pub use screen::screen_text;
