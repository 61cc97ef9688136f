//! Why a server ended before it had served all its connections.
use crate::tally::Tally;
use std::fmt;

/// Why a server ended early, over a log of such faults.
#[derive(Clone, Copy, Debug, PartialEq, Eq)]
pub enum Halt<F> {
    /// An accept failed.
    Door,
    /// The log refused a frame.
    Log(F),
}

/// A server that ended early: why, and how many connections had each answer before that.
#[derive(Clone, Copy, Debug, PartialEq, Eq)]
pub struct Stop<F> {
    pub halt: Halt<F>,
    pub tally: Tally,
}

impl<F: fmt::Display> fmt::Display for Halt<F> {
    ghost use Rattle.node_serve.specs.Tallies.{halt_text};

    ghost output = { halt_text F.output };

    fn fmt<W: fmt::Write>(&self, f: &mut fmt::Formatter<W>) -> fmt::Result {
        match self {
            Halt::Door => f.write_str("an accept failed"),
            Halt::Log(fault) => fault.fmt(f),
        }
    }
}

impl<F: fmt::Display> fmt::Display for Stop<F> {
    ghost use Rattle.node_serve.specs.Tallies.{stop_text};

    ghost output = { stop_text F.output };

    fn fmt<W: fmt::Write>(&self, f: &mut fmt::Formatter<W>) -> fmt::Result {
        self.halt.fmt(f)?;
        write!(f, ", {}", self.tally)
    }
}
