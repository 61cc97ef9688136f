//! The connections of a server for many over the system's sockets, and its clock.
#![tactic(auto)]

mod dial;
mod doors;
mod doorway;
mod fault;
mod settings;
mod slot;
mod slots;
mod sockets;
mod wire;

pub use fault::WiresFault;
pub use settings::{OtherServer, WiresSettings};
pub use sockets::MioWires;
