//! A server of many connections on one thread: what its outside sees is one history, and a machine says which
//! histories are right.
#![tactic(auto)]

mod answering;
mod batch;
mod doors;
mod filling;
mod hall;
pub mod laws;
mod patience;
mod place;
mod rooms;
mod routing;
mod said;

pub use answering::{ANSWER_MAX, Answering};
pub use batch::{Batch, Budget, Weight};
pub use doors::{Doors, Role};
pub use hall::{Bounds, Hall, Stop};
pub use patience::Patience;
pub use place::Place;
pub use said::{Key, Said};
