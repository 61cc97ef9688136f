//! The programs of a drill, in the order in which they are judged.
ghost use Rattle.std.specs.Prelude.{◌≡◌, Some, codes};
ghost use Rattle.express_drill.specs.Texts.{step_text, verdict_text, verdict_status};

use std::fmt;

/// A program of the drill.
#[derive(Clone, Copy, Debug, PartialEq, Eq)]
pub enum Step {
    /// The helper serves, at the drill's port.
    Helper,
    /// The leader serves, at the port behind it.
    Leader,
    /// The owner registers a box.
    Register,
    /// A writer writes to it.
    Write,
    /// The owner reads it.
    Read,
}

/// What a drill came to.
#[derive(Clone, Copy, Debug, PartialEq, Eq)]
pub enum Verdict {
    Passed,
    /// This is the first program that printed something else, or ended with another status.
    Failed(Step),
}

impl fmt::Display for Step {
    ghost output = { λ step. Some (step_text step) };

    fn fmt<W: fmt::Write>(&self, f: &mut fmt::Formatter<W>) -> fmt::Result {
        f.write_str(match self {
            Step::Helper => "helper",
            Step::Leader => "leader",
            Step::Register => "register",
            Step::Write => "write",
            Step::Read => "read",
        })
    }
}

impl fmt::Display for Verdict {
    ghost output = { λ verdict. Some (verdict_text verdict) };

    fn fmt<W: fmt::Write>(&self, f: &mut fmt::Formatter<W>) -> fmt::Result {
        match *self {
            Verdict::Passed => f.write_str("drill ok"),
            Verdict::Failed(step) => write!(f, "drill failed {step}"),
        }
    }
}

impl Verdict {
    /// The status that the drill ends with.
    pub fn status(self) -> u8
        ensures { result ≡ verdict_status self }
    {
        match self {
            Verdict::Passed => 0,
            Verdict::Failed(_) => 1,
        }
    }
}
