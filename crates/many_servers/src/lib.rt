//! Each server of a pair behind its doors: what it makes of what comes through each, for the loop of many connections.
#![tactic(auto)]

mod announced;
mod answers;
mod door;
mod ended;
mod figures;
mod helper;
pub mod laws;
mod leader;
mod noting;
mod packet;
mod passing;
mod refusing;

pub use announced::{announced_in, announced_record};
pub use helper::HelperServer;
pub use leader::LeaderServer;
pub use packet::{
    LEASED_LEN, PACKET_MAX, leased_in, leased_record, packet_len, record_in, write_packet,
};
