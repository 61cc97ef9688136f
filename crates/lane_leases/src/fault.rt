//! Why no lane is leased.
ghost use Rattle.std.specs.Prelude.{Some, codes};

use std::fmt;

/// No strangers' lane has a serial left, or no number is left for a lease.
#[derive(Clone, Copy, Debug, PartialEq, Eq)]
pub struct UsedUp;

impl fmt::Display for UsedUp {
    ghost output = { λ fault. Some (codes "leases used up") };

    fn fmt<W: fmt::Write>(&self, f: &mut fmt::Formatter<W>) -> fmt::Result {
        f.write_str("leases used up")
    }
}
