//! What an owner's desk remembers beside its requests: entries, one record each, and what a desk is after
//! them.
#![tactic(auto)]

mod copying;
mod desk;
mod entry;
mod forgetting;
pub mod laws;
mod letters;
mod name;
mod parts;
mod reading;
mod standing;
mod unseen;
mod writing;

pub use copying::copied;
pub use desk::{
    MOST_AT_ONCE, addresses, are_new, closed_at, has_outcome, is_retiring, last_day, name_of,
    named, waiting,
};
pub use entry::{BoxAt, ClosedName, Denial, Denied, Entry, Held, NamedBoxes, Reading};
pub use forgetting::kept;
pub use letters::{letters_of, shown_of, written_of};
pub use name::is_name;
pub use reading::MOST_RECORD;
pub use standing::{Standing, is_retired, standing_of};
pub use unseen::unseen_of;
