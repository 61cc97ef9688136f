//! What passes between the clients' door and the loop behind it: asks and answers as bytes of a plain form, which is read
//! by a function.
#![tactic(auto)]

mod answer;
mod ask;
mod fault;
pub mod laws;
mod output;

pub use answer::{read_answer, write_answer};
pub use ask::{ASK_MAX, ask_end, read_ask, write_ask};
