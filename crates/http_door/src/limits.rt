//! How much is taken of one message.

/// The longest head, in bytes, with the empty line that ends it.
pub const HEAD_MAX: usize = 4_096;

/// The most fields of a head.
pub const FIELDS_MAX: usize = 64;

/// The longest body, in bytes: a ticket, a statement's hash, and a frame.
pub const BODY_MAX: usize = 16 + 32 + 8_214;
