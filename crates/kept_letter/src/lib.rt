//! A letter on its way, as a machine that its records give: its text, its tries one after another, and what
//! it needs next.
#![tactic(auto)]

mod asking;
mod draws;
mod hearing;
pub mod laws;
mod letter;
mod machine;
mod next;
mod note;
mod opening;
mod plan;
mod sending;
mod writing;

pub use draws::{TryDraws, try_draws};
pub use letter::{LetterOnItsWay, MOST_TRIES};
pub use machine::KeptLetter;
pub use next::{LetterNext, Sending};
pub use note::{LaneSerial, LetterNote, Told};
pub use opening::{CARD_MAX, LetterOpening};
pub use plan::Plan;
pub use sending::{Unsent, send_letter};
