//! Connections through a proxy that speaks SOCKS 5, as Tor does: its messages, the talk before a connection, which
//! places go through it, and a net whose dials do.
#![tactic(auto)]

mod answers;
mod circuits;
mod fault;
mod forms;
mod hearing;
mod net_log;
mod proxied_net;
mod proxy;
mod routes;
mod talking;
mod targets;
mod tunnel;

pub use circuits::{Login, names_differ};
pub use fault::ProxyFault;
pub use proxied_net::ProxiedNet;
pub use proxy::Proxy;
pub use routes::{Route, onion_is_never_direct, route_of};
pub use talking::talk;
pub use targets::{Target, target_of};
pub use tunnel::Tunnel;
