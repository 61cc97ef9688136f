//! A server at its door: it is opened from settings, or from its journal, and serves a number of connections. Of each a
//! frame is read, the server takes its step once its log has the frame, and one reply is written. A log is a journal, or
//! nowhere.
#![tactic(auto)]

mod answering;
mod draining;
mod faces;
mod handing;
mod hosting;
mod journaled;
mod kept_opening;
mod leading;
mod logged;
mod never;
mod node;
mod open_fault;
mod serving;
mod stop;
mod tally;
mod unlogged;

pub use express_words::outside;
pub use faces::{serve_kept, serve_one};
pub use hosting::host;
pub use kept_opening::{JOURNAL_LIMIT, open_kept, open_node};
pub use logged::Logged;
pub use never::Never;
pub use node::{Node, Served};
pub use open_fault::{OpenFault, SettingsKey};
pub use serving::serve;
pub use stop::{Halt, Stop};
pub use tally::Tally;
