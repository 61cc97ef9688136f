//! A letter on its way, and its place.
use desk_outside::Slot;
use kept_letter::KeptLetter;
use kept_machine::Kept;
use node_journal::Disk;

/// A letter on its way, and its place.
#[derive(Drop)]
pub struct OnItsWay<D: Disk> {
    pub slot: Slot,
    pub letter: Kept<KeptLetter, D>,
}
