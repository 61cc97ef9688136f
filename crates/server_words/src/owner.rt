//! The line for an owner's pair file.
ghost use Rattle.std.specs.Prelude.{◌≡◌, IfOk, Some};
ghost use Rattle.hex.specs.Hex.{encode_lower};
ghost use Rattle.server_words.specs.Texts.{owner_text};

use express_words::{NoMemory, Text};
use lane_gate::Ticket;
use std::alloc::Global;
use std::fmt;

/// The line for an owner's pair file: the lane, and its key at this server in 32 hexadecimal digits.
#[derive(Drop)]
pub struct OwnerLine {
    pub lane: u16,
    pub digits: Text,
}

impl OwnerLine {
    /// The line of a lane with this key.
    pub fn of(alloc: Global, lane: u16, key: &Ticket) -> Result<OwnerLine, NoMemory>
        ensures { IfOk result (λ line. line ≡ record { lane = lane; digits = encode_lower key.now.0 }) }
    {
        let digits = hex::encode(alloc, key.0.as_slice())?;
        Ok(OwnerLine {
            lane,
            digits: Text::from_string(digits),
        })
    }
}

impl fmt::Display for OwnerLine {
    ghost output = { λ line. Some (owner_text line) };

    fn fmt<W: fmt::Write>(&self, f: &mut fmt::Formatter<W>) -> fmt::Result {
        let digits = self.digits.as_str();
        write!(f, "lane {} key {digits}", self.lane)
    }
}
