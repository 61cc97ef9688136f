//! The sending of one letter: a try after another, until it is written or nothing more can be done safely.
ghost use Rattle.std.specs.Prelude.{◌≡◌, ◌≤◌, ◌<◌, true, false};
ghost use Rattle.desk_tries.specs.Steps.{started, after_proof, may_be_written, next_of, state_after};
ghost use Rattle.desk_tries.specs.Steps.{again_at_address, elsewhere, end_of};

use crate::heard::{Answer, Fate, fate_by};
use std::marker::Model;

/// Behind its first try a letter gets so many further ones, at whatever addresses.
pub const MOST_FURTHER: u8 = 5;

/// What is to be done next.
#[derive(Clone, Copy, Debug, PartialEq, Eq)]
pub enum Next {
    /// The try's next step.
    GoOn,
    /// The same frame once more.
    SameAgain,
    /// A new try at the same address, with a fresh seed, on the lane that `next_lane` gives.
    NewTry,
    /// The same at the next address.
    NextAddress,
    /// Nothing.
    Stop(LetterEnd),
}

/// What became of the letter.
#[derive(Clone, Copy, Debug, PartialEq, Eq)]
pub enum LetterEnd {
    /// It is written.
    Written,
    /// It isn't written anywhere, now or later.
    NotWritten,
    /// It may have been written.
    MaybeWritten,
}

/// Where the sending of a letter stands. The addresses of its card are numbered from 0, in the order in which they are
/// to be tried.
#[derive(Debug, Drop)]
pub struct Sending {
    addresses: u8,
    address: u8,
    further: u8,
    proof_out: bool,
}

impl Model for Sending {
    ghost use Rattle.std.specs.Prelude.{◌<◌};
    ghost use Rattle.desk_tries.specs.Steps.{SendingState};

    ghost Value = { SendingState };

    ghost view = { λ s. record {
      addresses = s.addresses;
      address = s.address;
      further = s.further;
      proof_out = s.proof_out;
    } };

    ghost invariant = { λ s. s.address < s.addresses };
}

impl Sending {
    /// The first try, at the first of so many addresses.
    pub fn start(addresses: u8) -> Sending
        requires { 1 ≤ addresses }
        ensures { result ≡ started addresses }
    {
        Sending {
            addresses,
            address: 0,
            further: MOST_FURTHER,
            proof_out: false,
        }
    }

    /// A sending that was kept, as it stood.
    pub fn kept(addresses: u8, address: u8, further: u8, proof_out: bool) -> Sending
        requires { address < addresses }
        ensures { result ≡ record {
          addresses = addresses;
          address = address;
          further = further;
          proof_out = proof_out;
        } }
    {
        Sending {
            addresses,
            address,
            further,
            proof_out,
        }
    }

    /// The address of the present try.
    pub fn address(&self) -> u8
        ensures is { result ≡ self.now.address }
        ensures there { result < self.now.addresses }
    {
        self.address
    }

    /// How many further tries are left.
    pub fn further(&self) -> u8
        ensures { result ≡ self.now.further }
    {
        self.further
    }

    /// Whether the present try's last proof has gone out.
    pub fn is_proof_out(&self) -> bool
        ensures { result ≡ self.now.proof_out }
    {
        self.proof_out
    }

    /// Whether a try so far can have written the letter. Where none can, and the sending is given up, it isn't written
    /// anywhere, now or later.
    pub fn may_be_written(&self) -> bool
        ensures { result ≡ may_be_written self.now }
    {
        self.proof_out || self.address != 0
    }

    /// The last proof of the present try goes out: said before its first byte is sent.
    pub fn proof_goes(&mut self)
        ensures { self.new ≡ after_proof self.old }
    {
        self.proof_out = true;
    }

    /// What is to be done after an answer. A new try begins where this says so.
    #[tactic(auto, unfolding(crate::specs::Steps::turn_by))]
    pub fn hear(&mut self, answer: Answer) -> Next
        ensures next { result ≡ next_of self.old answer }
        ensures state { self.new ≡ state_after self.old answer }
    {
        match fate_by(self.proof_out, answer) {
            Fate::GoesOn => Next::GoOn,
            Fate::Again => Next::SameAgain,
            Fate::Written => Next::Stop(LetterEnd::Written),
            Fate::NotWritten => self.try_again(),
            Fate::Unknown => self.try_elsewhere(),
        }
    }

    // A new try at the same address, if one is left.
    #[tactic(auto, unfolding(crate::specs::Steps::again_at_address))]
    fn try_again(&mut self) -> Next
        ensures next { result ≡ (again_at_address self.old).next }
        ensures state { self.new ≡ (again_at_address self.old).state }
    {
        if self.further == 0 {
            return Next::Stop(self.end());
        }
        self.further -= 1;
        self.proof_out = false;
        Next::NewTry
    }

    // A new try at the next address, if there is one and a try is left.
    #[tactic(auto, unfolding(crate::specs::Steps::elsewhere))]
    fn try_elsewhere(&mut self) -> Next
        ensures next { result ≡ (elsewhere self.old).next }
        ensures state { self.new ≡ (elsewhere self.old).state }
    {
        if self.further == 0 || self.address + 1 == self.addresses {
            return Next::Stop(LetterEnd::MaybeWritten);
        }
        self.further -= 1;
        self.address += 1;
        self.proof_out = false;
        Next::NextAddress
    }

    // An address is left behind only where it isn't known whether the letter was written there.
    fn end(&self) -> LetterEnd
        ensures { result ≡ end_of self.now }
    {
        if self.address == 0 {
            LetterEnd::NotWritten
        } else {
            LetterEnd::MaybeWritten
        }
    }
}
