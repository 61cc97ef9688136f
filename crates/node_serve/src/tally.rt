//! How many connections had each answer.
ghost use Rattle.std.specs.Prelude.{◌≡◌, ◌+◌, ◌-◌, ◌<◌, ◌^◌, [], Some};
ghost use Rattle.node_serve.specs.Tallies.{counted, tally_of, total, tally_text};

use crate::node::Served;
use std::fmt;

/// How many connections had each answer.
#[derive(Clone, Copy, Debug, Default, PartialEq, Eq)]
pub struct Tally {
    pub answered: u32,
    pub ended: u32,
    pub connection_faults: u32,
    pub link_faults: u32,
    pub bad_links: u32,
}

impl Tally {
    /// No connection yet.
    pub fn new() -> Self
        ensures { result ≡ tally_of [] }
    {
        Tally::default()
    }

    /// How many connections there were in all.
    pub fn total(&self) -> u64
        ensures { result ≡ total self.now }
    {
        u64::from(self.answered)
            + u64::from(self.ended)
            + u64::from(self.connection_faults)
            + u64::from(self.link_faults)
            + u64::from(self.bad_links)
    }

    /// Counts one connection more.
    pub fn count(&mut self, answer: Served)
        requires room { total self.old < 2 ^ 32 - 1 }
        ensures counts { self.new ≡ counted self.old answer }
        ensures one_more { total self.new ≡ total self.old + 1 }
    {
        match answer {
            Served::Answered => self.answered += 1,
            Served::Ended => self.ended += 1,
            Served::ConnFault(_) => self.connection_faults += 1,
            Served::LinkFault(_) => self.link_faults += 1,
            Served::LinkBad => self.bad_links += 1,
        }
    }
}

impl fmt::Display for Tally {
    ghost output = { λ tally. Some (tally_text tally) };

    fn fmt<W: fmt::Write>(&self, f: &mut fmt::Formatter<W>) -> fmt::Result {
        write!(
            f,
            "served {} answered {} ended {} connfaults {} linkfaults {} linkbad {}",
            self.total(),
            self.answered,
            self.ended,
            self.connection_faults,
            self.link_faults,
            self.bad_links
        )
    }
}
