//! The audit of a write, as definitions and laws over them: the sketch of a difference vector with two
//! challenge vectors, the values of a challenge that hide a bad vector, and a client's proof with one
//! multiplication triple.
#![tactic(auto)]

mod laws;
mod ranges;
mod sums;

pub use laws::{
    bad_values_are_fixed, bad_values_hide, bad_writes_are_caught, changed_boxes_are_seen,
    closings_add_up, honest_proofs_pass, servers_accept_what_passes, sums_add_up, values_accept,
    worked_proof, worked_sketches,
};
pub use ranges::{read_bytes, read_share, read_sums, read_words};
pub use sums::Sums;
