//! The pool: all frames that were ever sent, each with its addressee.
ghost use Rattle.std.specs.Prelude.{◌≡◌, ℕ, ◌<◌, [], ◌∷◌, ◌++◌, length, drop, OnOk, IfOk, None, option_map, slice_get};
ghost use Rattle.run_rules.specs.Letters.{letter};
ghost use Rattle.run_rules.specs.Run.{is_for, last_for, server};
ghost use Rattle.replay_world.specs.Parts.{addressee_in, letter_in, pool_in};

use express_words::{List, NoMemory};
use std::alloc::Global;

/// Whom a frame is for. The two ends of the link are told apart from what clients send.
#[derive(Clone, Copy, Debug, PartialEq, Eq)]
pub enum Addressee {
    /// The client of this lane.
    Client(u16),
    /// The leader, from clients.
    Leader,
    /// The helper, from clients.
    Helper,
    /// The leader, from the helper.
    LeaderLink,
    /// The helper, from the leader.
    HelperLink,
}

/// A frame with its addressee.
#[derive(Drop)]
pub struct Letter {
    pub to: Addressee,
    pub bytes: List<u8>,
}

impl Letter {
    /// The same again.
    pub fn copied(&self, alloc: Global) -> Result<Letter, NoMemory>
        ensures { IfOk result (λ l. l ≡ self.now) }
    {
        let bytes = Vec::from_slice(alloc, self.bytes.as_slice())?;
        Ok(Letter {
            to: self.to,
            bytes: List::from_vec(bytes),
        })
    }
}

/// One more frame goes into the pool.
pub fn post(
    alloc: Global,
    pool: &mut Vec<Letter>,
    to: Addressee,
    bytes: &[u8],
) -> Result<(), NoMemory>
    ensures { OnOk result (pool_in pool.new.items ≡ pool_in pool.old.items ++ letter (addressee_in to) bytes.now ∷ []) }
{
    let bytes = Vec::from_slice(alloc, bytes)?;
    pool.push(Letter {
        to,
        bytes: List::from_vec(bytes),
    })?;
    Ok(())
}

/// The frame of this number, if there is one.
pub fn letter_at(number: usize, letters: &[Letter]) -> Option<&Letter>
    ensures { option_map (λ l. letter_in l.now) result ≡ slice_get (pool_in letters.now) number }
{
    if number < letters.len() {
        Some(&letters[number])
    } else {
        None
    }
}

fn is_for(lane: u16, to: Addressee) -> bool
    ensures { result ≡ is_for lane (addressee_in to) }
{
    match to {
        Addressee::Client(other) => other == lane,
        _ => false,
    }
}

/// The last of these frames that is for the client of a lane.
pub fn last_for(lane: u16, letters: &[Letter]) -> Option<&Letter>
    ensures { option_map (λ l. letter_in l.now) result ≡ last_for lane None (pool_in letters.now) }
{
    let mut found = None;
    for letter in letters {
        if is_for(lane, letter.to) {
            found = Some(letter);
        }
    }
    found
}

/// The leader is server 0, the helper 1.
pub fn server_of(number: u8) -> Addressee
    ensures { addressee_in result ≡ server number }
{
    if number == 0 {
        Addressee::Leader
    } else {
        Addressee::Helper
    }
}
