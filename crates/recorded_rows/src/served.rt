//! A leader and a helper that serve recorded frames over connections in memory, each of whose calls fails.
mod failure;
mod link;
mod rows;
mod server;
mod step;
mod texts;

pub(crate) use rows::Rows;
