//! Real files and sockets as what the crates above are generic over: sources, sinks, connections, a net and a
//! journal's disk.
#![tactic(auto)]

mod adapter;
mod calls;
mod file_calls;
mod file_disk;
mod history;
mod journal_file;
mod net_log;
mod patience;
mod seeding;
mod stand_ins;
mod tcp_net;
mod tcp_ports;

pub use adapter::Adapter;
pub use calls::{Direct, Passes, Reads, Trouble, WriteCall, Writes, trouble_of};
pub use file_calls::{FileCall, FileCalls};
pub use file_disk::FileDisk;
pub use history::{History, noted};
pub use journal_file::{JournalFile, Place, clear_beside};
pub use patience::{Limit, Socket, SocketCall, Timed};
pub use seeding::{NoSeed, random_seed};
pub use stand_ins::{StandIns, stand_in};
pub use tcp_net::{Connected, PortCall, Ports, TcpNet};
pub use tcp_ports::{TcpPorts, TcpSocket};
