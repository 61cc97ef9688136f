//! Why a frame isn't handed on, or a gate notes nothing.
ghost use Rattle.std.specs.Prelude.{◌≡◌, Some, codes};
ghost use Rattle.lane_gate.specs.Texts.{fault_text};

use std::fmt;

/// A frame isn't handed on. Why isn't told, so that an outsider learns nothing of a lane from it.
#[derive(Clone, Copy, Debug, PartialEq, Eq)]
pub struct NotYours;

impl fmt::Display for NotYours {
    ghost output = { λ fault. Some (codes "not yours") };

    fn fmt<W: fmt::Write>(&self, f: &mut fmt::Formatter<W>) -> fmt::Result {
        f.write_str("not yours")
    }
}

/// Why a gate notes nothing.
#[derive(Clone, Copy, Debug, PartialEq, Eq)]
pub enum GateFault {
    /// The lane is no owner's.
    NotOwners,
    /// The lane is no strangers' lane.
    NotStrangers,
    /// The serial isn't above that of the lane's last lease.
    HasLease,
    /// No lease of the lane has this serial, or the lane's owner has no key.
    NoRequest,
    /// The serial isn't above that of the lane's last statement.
    HasStatement,
    /// No number is left for a lease.
    NoNumber,
}

impl fmt::Display for GateFault {
    ghost output = { λ fault. Some (fault_text fault) };

    fn fmt<W: fmt::Write>(&self, f: &mut fmt::Formatter<W>) -> fmt::Result {
        f.write_str(match self {
            GateFault::NotOwners => "not an owner's lane",
            GateFault::NotStrangers => "not a strangers' lane",
            GateFault::HasLease => "serial leased",
            GateFault::NoRequest => "no such request",
            GateFault::HasStatement => "serial has a statement",
            GateFault::NoNumber => "no lease number",
        })
    }
}
