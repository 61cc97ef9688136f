//! Which call fails.
use std::fmt;

/// Whose call fails: the client's connection, the net, or the connection to the helper of an exchange, counted from 0.
#[derive(Clone, Copy, PartialEq)]
pub enum Place {
    Client,
    Net,
    Exchange(usize),
}

/// One call that fails, by its number from 1 on among the calls of its object.
#[derive(Clone, Copy)]
pub struct Failure {
    pub place: Place,
    pub number: u64,
}

impl Failure {
    /// No call fails.
    pub const NONE: Failure = Failure {
        place: Place::Client,
        number: 0,
    };

    /// The number of the call that fails at this place, 0 for none.
    pub fn at(&self, place: Place) -> u64 {
        if self.place == place { self.number } else { 0 }
    }
}

impl fmt::Display for Failure {
    fn fmt<W: fmt::Write>(&self, f: &mut fmt::Formatter<W>) -> fmt::Result {
        let place = match self.place {
            Place::Client => "the client's connection",
            Place::Net => "the net",
            Place::Exchange(0) => "the first connection to the helper",
            Place::Exchange(_) => "the second connection to the helper",
        };
        let number = self.number;
        write!(f, "call {number} of {place} fails")
    }
}
