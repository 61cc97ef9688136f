//! Readers of the settings that commands take, in TOML: each answers a value exactly where its text spells
//! it, and otherwise the first key that is missing or wrong.
#![tactic(auto)]

mod account;
mod carry;
mod client;
mod digits;
mod faults;
mod files;
mod keys;
mod laws;
mod owned;
mod requests;
mod serve;
mod tables;
mod values;

pub use account::LAST_LANE;
pub use carry::{CarryJob, CarrySettings, read_carry};
pub use client::{ClientSettings, read_client};
pub use express_texts::TextFault;
pub use laws::{carry_is_read_exactly, client_is_read_exactly, serve_is_read_exactly};
pub use owned::OwnedBox;
pub use requests::{Asking, MOST_REQUESTS};
pub use serve::{MOST_CONNECTIONS, ServeSettings, read_serve};
