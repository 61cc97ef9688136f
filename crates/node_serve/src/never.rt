//! A fault that never comes.

/// No fault: there is no value of it. It has no `Debug` or `Eq`, whose contracts no call could meet.
#[derive(Clone, Copy)]
pub enum Never {}
