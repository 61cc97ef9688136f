//! The gate of tickets in front of a server's core: which frames it hands on, and by which records it stands.
#![tactic(auto)]

mod digest;
mod fault;
mod gate;
mod holder;
pub mod laws;
mod machine;
mod note;
mod opening;
mod passing;
mod row;
mod statement;
mod ticket;

pub use fault::{GateFault, NotYours};
pub use gate::LaneGate;
pub use holder::{Holder, Lease};
pub use note::{NOTE_LEN, Note};
pub use opening::{GateOpening, OPENING_LEN};
pub use passing::{Ticketed, pass_command};
pub use row::GateRow;
pub use statement::{Statement, StatementHash};
pub use ticket::{Ticket, TicketHash};
