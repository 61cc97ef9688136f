//! Statements, and the hashes by which a gate knows them.
ghost use Rattle.std.specs.Prelude.{◌≡◌, ◌↔◌, IsTrue};
ghost use Rattle.lane_gate.specs.Statements.{statement_hash};

use crate::digest::is_same_digest;
use sha2::{Digest, Sha256};

/// The SHA-256 digest of a **statement**, of 32 bytes: of what a proof is a proof of, the key of its
/// challenges and the write's public part. Each server makes it of what it holds itself, and the client of
/// what it holds. So a proof passes at a server only where both have one key and one public part, but for a
/// collision of SHA-256.
#[derive(Clone, Copy)]
pub struct StatementHash(pub [u8; 32]);

/// The statement of a write that is audited: the write's serial, and the statement's hash.
#[derive(Clone, Copy)]
pub struct Statement {
    pub serial: u32,
    pub hash: StatementHash,
}

impl StatementHash {
    /// That of the challenges' key and the public part, in this order, as they stand in frames: 32 bytes, and
    /// behind them the public part's.
    pub fn of(key: &[u8; 32], part: &[u8]) -> StatementHash
        ensures { result ≡ statement_hash key.now part.now }
    {
        let mut hasher = Sha256::new();
        hasher.update(key.as_slice());
        hasher.update(part);
        StatementHash(hasher.finalize())
    }

    /// Whether it is this hash. All bytes are looked at, wherever they differ.
    pub fn is(&self, other: &StatementHash) -> bool
        ensures { IsTrue result ↔ (self.now ≡ other.now) }
    {
        is_same_digest(&self.0, &other.0)
    }
}
