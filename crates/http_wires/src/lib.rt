//! HTTP below a server of many: at the clients' door its wires read requests and write responses, so that the server takes
//! asks and gives answers there, as plain bytes. At all other doors bytes pass as they are.
#![tactic(auto)]

mod client;
pub mod laws;
mod places;
mod reply;
mod wires;

pub use reply::TEXT_MAX;
pub use wires::HttpWires;
