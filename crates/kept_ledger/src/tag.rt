//! By what the files of a desk are told from another desk's.
ghost use Rattle.std.specs.Prelude.{◌≡◌};
ghost use Rattle.kept_ledger.specs.Tags.{seed_digest, tag_of};

use crate::ledger::Ledger;
use sha2::{Digest, Sha256};

#[tactic(auto, unfolding(crate::specs::Tags::seed_digest))]
fn seed_digest(seed: &[u8]) -> [u8; 32]
    ensures { result ≡ seed_digest seed.now }
{
    let mut hasher = Sha256::new();
    hasher.update(b"the files of a desk");
    hasher.update(seed);
    hasher.finalize()
}

impl Ledger {
    /// By what the files of this desk are told from another desk's: the first four bytes of a digest of its
    /// seed, which don't tell the seed. A ledger that follows has the same.
    pub fn tag(&self) -> u32
        ensures { result ≡ tag_of self.now.state.seed }
    {
        let [a, b, c, d, ..] = seed_digest(&self.seed);
        u32::from_be_bytes([a, b, c, d])
    }
}
