//! The settings file of a server for many, in TOML: read whole, or the first thing in it that is wrong, with what
//! was found and what is taken.
#![tactic(auto)]

mod address;
mod doors;
mod fault;
mod found;
mod key;
mod lookup;
mod server;
mod sizes;
mod unknown;
mod values;

pub use address::Address;
pub use doors::Doors;
pub use fault::{BadSettings, SettingsFault};
pub use found::Found;
pub use key::Key;
pub use server::{ServerSettings, read_settings};
pub use sizes::Sizes;
pub use values::{LEAST_PLACES, MOST_PLACES, USUAL_PLACES};
