//! Two servers that hold closings of many writes compare one closing in place of many, and search for the bad
//! ones where it fails.
#![tactic(auto)]

mod laws;
mod sorting;
mod sums;

pub use laws::{
    bad_values_are_few, few_values_pass, judged_ranges_are_few, other_pairs_are_good_or_missed,
    rejected_pairs_are_bad, sorts_are_one,
};
pub use sorting::sort_out;
pub use sums::batch_of;
