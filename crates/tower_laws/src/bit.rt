//! Level 0: the field of two elements.

/// Zero where it is false, one where it is true.
#[derive(Clone, Copy, Debug, PartialEq, Eq)]
pub struct Bit(pub bool);
