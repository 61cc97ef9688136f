//! Pieces of letters, and the addresses of a card to which each is written.
#![tactic(auto)]

mod cutting;
mod fault;
pub mod laws;
mod piece;
mod places;

pub use cutting::{COPIES, MOST_ADDRESSES, cut_into, most_parts, most_text, parts_for, piece_of};
pub use fault::LetterFault;
pub use piece::{HEADER, LetterId, Piece, read_piece, write_piece};
pub use places::Places;
