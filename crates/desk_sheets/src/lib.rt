//! The texts that people hand out: a card, by which a stranger leaves letters, and a pair file, by which an
//! owner opens a desk. Each line ends with a check word over the lines so far, so that the line that was
//! mistyped is named. A card may have a last day; a pair file has the keys of the owner's lane.
#![tactic(auto)]

mod earlier;
mod fault;
mod head;
mod keyed;
mod printing;
mod reading;
mod sheet;

pub use fault::SheetFault;
pub use printing::{check_digits, print_card, print_pair};
pub use reading::{read_card, read_pair, read_sheet, sheet_is_read_exactly};
pub use sheet::{Card, MOST_ADDRESSES, OwnersServer, Pair, Sheet};
