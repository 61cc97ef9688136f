//! How a server for many stands, as its operator is told: counts of its own calls, and their text.
#![tactic(auto)]

mod counting;
mod due;
mod figures;
mod line;
mod status;
mod tally;
mod watching;

pub use counting::CountingWires;
pub use due::{Due, Lines};
pub use figures::{Figured, Figures, figures_of};
pub use line::line_in;
pub use status::{ClientCounts, LinkTurn, Status, WorkCounts};
pub use tally::Tally;
pub use watching::{Viewer, run_viewed, status_of};
