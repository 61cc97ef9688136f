//! The clients' door over HTTP/1.1: requests, their answers, and the same wire from a client's side, as
//! functions over bytes that allocate nothing. `docs/DOOR.md` tells the wire.
#![tactic(auto)]

mod ends;
mod fault;
mod fields;
mod head;
mod hearing;
pub mod laws;
pub mod limits;
mod output;
mod reading;
mod reply;
mod reply_fault;
mod request;
mod response;
mod sending;
mod size;
mod value;
mod writing;

pub use ends::whole;
pub use fault::DoorFault;
pub use hearing::{Asked, Heard, read};
pub use reading::read_reply;
pub use reply::Reply;
pub use reply_fault::ReplyFault;
pub use request::{Path, Request};
pub use sending::write_request;
pub use value::{HeaderValue, VALUE_MAX};
pub use writing::write;
