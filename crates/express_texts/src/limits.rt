//! What the texts of schedules and of settings have as a limit.

/// A read or a retire names one of the boxes that its client got, up to this one, counted from 0.
pub const MOST_OWN: u32 = 4_095;
