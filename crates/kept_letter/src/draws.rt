//! What a try of a letter draws.
ghost use Rattle.std.specs.Prelude.{◌≡◌, take, drop};
ghost use Rattle.kept_letter.specs.Draws.{helper_ticket, leader_ticket, try_seed};

use chacha_expand::draw32;
use lane_gate::Ticket;

/// What one try of a letter draws of the letter's seed.
#[derive(Clone, Copy)]
pub struct TryDraws {
    /// The seed of the try's client.
    pub seed: [u8; 32],
    /// The ticket of its lease at the leader.
    pub leader: Ticket,
    /// The ticket at the helper.
    pub helper: Ticket,
}

// The halves of 32 bytes.
fn halves(bytes: &[u8; 32]) -> (Ticket, Ticket)
    ensures first { result.0.0 ≡ take 16 bytes.now }
    ensures second { result.1.0 ≡ drop 16 bytes.now }
{
    let (front, behind) = bytes.split_at(16);
    let mut leader = [0; 16];
    let mut helper = [0; 16];
    leader.copy_from_slice(front);
    helper.copy_from_slice(behind);
    (Ticket(leader), Ticket(helper))
}

/// What the try of this number draws, counted over all tries of the letter from 0.
pub fn try_draws(seed: &[u8; 32], number: u32) -> TryDraws
    ensures seed { result.seed ≡ try_seed seed.now number }
    ensures leader { result.leader ≡ leader_ticket seed.now number }
    ensures helper { result.helper ≡ helper_ticket seed.now number }
{
    let streams = 2 * u64::from(number);
    let (leader, helper) = halves(&draw32(seed, streams + 1));
    TryDraws {
        seed: draw32(seed, streams),
        leader,
        helper,
    }
}
