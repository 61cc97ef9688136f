//! A client that remembers works off a register, a write and two reads at two servers, and its disk crashes.
mod asker;
mod run;
mod tally;
mod world;

pub(crate) use tally::report;
