//! The lines that an owner's desk prints, each as a function of what it tells.
#![tactic(auto)]

mod boxes;
mod closing;
mod files;
mod letters;
mod moments;

pub use boxes::{
    BoxCounts, counts_text, full_text, letters_text, pair_text, retired_text, work_words,
};
pub use closing::{closed_text, good_text};
pub use files::{FileMark, file_name, file_text};
pub use letters::{letter_text, met_text};
pub use moments::moment_text;
