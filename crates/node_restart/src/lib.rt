//! A server that is opened again from a journal of the frames that it was handed.
#![tactic(auto)]

mod did;
mod frames;
mod kept;
pub mod laws;
mod machine;
mod opening;
mod server;
mod steps;

pub use did::Did;
pub use express_words::Role;
pub use frames::{Sender, frame_in, put_record};
pub use kept::Kept;
pub use kept_machine::KeepFault;
pub use machine::Server;
pub use opening::{OPENING_LEN, Opening};
pub use server::Core;
pub use steps::{help_client, help_peer, lead_client, lead_peer};
