//! The text of a schedule, and what it spells.
#![tactic(auto)]

mod asked;
mod events;
mod fault;
mod fields;
mod header;
mod lanes;
mod laws;
mod milling;
mod printing;
mod reader;
mod schedule;

pub use fault::ReadFault;
pub use laws::{foreign_as_spelled, lanes_are_apart, read_exactly};
pub use milling::mill;
pub use printing::print;
pub use reader::read;
pub use schedule::{Asked, Event, Header, MOST_EVENTS, Schedule};
