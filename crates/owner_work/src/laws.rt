//! What holds of an owner's work. The functions are empty: their contracts are the laws.
ghost use Rattle.owner_work.specs.Laws.{WorkKeepsTheDesk};

/// Whatever is worked off: pair, seed, names and marks of the desk are the same, and what its boxes held
/// stands there still, before what came since.
pub fn work_keeps_the_desk()
    ensures { WorkKeepsTheDesk }
{}
