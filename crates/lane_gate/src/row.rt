//! What a gate keeps of a lane.
use crate::holder::Holder;
use crate::statement::Statement;

/// Whose a lane is, and the statement of the write that was given challenges last in it.
#[derive(Clone, Copy)]
pub struct GateRow {
    pub holder: Holder,
    pub statement: Option<Statement>,
}

impl GateRow {
    // An owner's lane before it has a key.
    pub(crate) const KEYLESS: GateRow = GateRow {
        holder: Holder::Keyless,
        statement: None,
    };

    // A strangers' lane before its first lease.
    pub(crate) const FREE: GateRow = GateRow {
        holder: Holder::Free,
        statement: None,
    };
}
