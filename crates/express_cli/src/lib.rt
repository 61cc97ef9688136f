//! The program's top calls: what its words ask for, from the bytes of an input to bytes written and a status. `keep` is
//! `serve` over a server whose frames are kept.
#![tactic(auto)]

mod batch;
mod cloak;
mod door;
mod drawing;
mod ends;
mod input;
mod keep_faults;
mod kept_top;
mod mill;
mod promises;
mod replay;
mod talk;
mod texts;
mod top;
mod views;
mod words;

pub use ends::End;
pub use input_reading::{InputFault, LONGEST, SeedFault, read_all, seed_of};
pub use kept_top::run_kept;
pub use node_serve::{serve_kept, serve_one};
pub use promises::laws;
pub use top::run;
pub use words::{Command, NetCommand};
