//! Cards, letters and status of an owner's ledger. Its letters are a function of what was read of its boxes.
#![tactic(auto)]

mod cards;
mod counts;
mod gathering;
pub mod laws;
mod mail;
mod marks;
mod news;
mod noting;
mod placing;
mod printing;
mod showing;
mod status;
mod unseen;
mod writing;

pub use cards::{NamedCard, card_of, say_card};
pub use mail::{NamedMail, mail_of, mails_of};
pub use marks::{is_due, mark_of};
pub use placing::card_addresses;
pub use showing::{NewsTold, show_new};
pub use status::say_status;
pub use unseen::is_unseen;
pub use writing::write_new;
