//! The lines of a text, the fields of a line, and readers of the texts that commands take: each answers a value exactly
//! where its text spells it, and otherwise the first bad line.
#![tactic(auto)]

mod batch;
mod cloak;
mod digits;
mod fault;
mod fields;
mod limits;
mod lines;
mod numbers;
mod text_lines;
mod words;

pub use batch::{BatchPairs, MOST_PAIRS, batch_is_read_exactly, read_batch};
pub use cloak::{AimText, CloakGame, MOST_ADDRESSES, game_is_read_exactly, read_cloak};
pub use digits::{any_bytes_of, message_of, seed_of, spelled_word, word_at};
pub use fault::TextFault;
pub use limits::MOST_OWN;
pub use numbers::{last_number, number_at};
pub use text_lines::first_line;
pub use words::after;
