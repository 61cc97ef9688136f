//! What a client draws for the current request, and the proof that it makes of it.
ghost use Rattle.std.specs.Prelude.{◌≡◌, ◌<◌, ◌^◌, ◌+◌, length};
ghost use Rattle.step_rules.specs.ClientAsks as asks;
ghost use Rattle.client_core.specs.Stages.{IsKeyed};
ghost use Rattle.client_core.specs.States.{client_in, IsState, held_in};

use crate::state::ClientState;
use chacha_expand::{challenge, choices};
use dpf_keys::{PublicPart, walk};
use express_words::ProofShare;
use snip_proof::prove;

impl ClientState {
    /// The sixteen words of the serial.
    pub(crate) fn words(&self) -> [u128; 16]
        requires unspent { self.now.serial < 2 ^ 32 }
        ensures { result ≡ asks.words (client_in self.now) }
    {
        choices(&self.seed, self.serial as u32)
    }

    // The sum of both leaves at the target.
    fn difference(&self, target: u128, words: &[u128; 16]) -> u128
        requires is { IsState self.now }
        requires keyed { IsKeyed (held_in self.now) target }
        requires words { words.now ≡ asks.words (client_in self.now) }
        ensures { result ≡ asks.difference (client_in self.now) target self.now.message.items }
    {
        let Some(part) = PublicPart::of(&self.part) else {
            unreachable!()
        };
        walk(&part, 0, words[0], target) ^ walk(&part, 1, words[1], target)
    }

    /// The shares of the proof of a write to this target.
    pub(crate) fn proof(&self, target: u128, ckey: &[u8; 32]) -> (ProofShare, ProofShare)
        requires is { IsState self.now }
        requires unspent { self.now.serial < 2 ^ 32 }
        requires keyed { IsKeyed (held_in self.now) target }
        ensures zero { result.0
            ≡ asks.share_for (client_in self.now) target self.now.message.items ckey.now 0 }
        ensures one { result.1
            ≡ asks.share_for (client_in self.now) target self.now.message.items ckey.now 1 }
    {
        let words = self.words();
        let difference = self.difference(target, &words);
        let (r, s) = challenge(ckey, target);
        prove(difference, r, s, &words)
    }
}
