//! Takes a seed from a source of random bytes.
ghost use Rattle.std.specs.Prelude.{◌≡◌, ◌+◌, ◌<◌, ◌≤◌, length, take, drop, [], Some, Err};
ghost use Rattle.std.specs.Prelude.{IfOk, IsOk, OnOk, IfErr, OnErr};
ghost use Rattle.express_words.specs.Causes.{CountsFault};
ghost use Rattle.express_words.specs.Streams.{Gave, IsAtEnd};
ghost use Rattle.input_reading.specs.Seeds.{GaveNoSeed, WithEnough, WithTooFew, seed_fault_text};

use express_words::outside::{Failed, Source};
use std::fmt;

/// Why a source gave no seed.
#[derive(Clone, Copy, Debug, PartialEq, Eq)]
pub enum SeedFault {
    /// It failed; its count of faults.
    Failed(u64),
    /// It ended after so many bytes, which are fewer than 32.
    Early(u32),
}

impl fmt::Display for SeedFault {
    ghost output = { λ fault. Some (seed_fault_text fault) };

    fn fmt<W: fmt::Write>(&self, f: &mut fmt::Formatter<W>) -> fmt::Result {
        match *self {
            SeedFault::Failed(count) => {
                write!(f, "the source of random bytes failed (faults: {count})")
            }
            SeedFault::Early(length) => {
                write!(f, "the source of random bytes ended after {length} bytes")
            }
        }
    }
}

// Takes bytes behind the first `length`.
fn take_behind<S: Source>(
    random: &mut S,
    seed: &mut [u8; 32],
    length: usize,
) -> Result<usize, Failed>
    requires { length < 32 }
    ensures bound { IfOk result (λ n. length + n ≤ 32) }
    ensures stays { take length seed.new ≡ take length seed.old }
    ensures gave { IfOk result (λ n. Gave (S.seen random.old).content (S.seen random.new).content
        (take n (drop length seed.new))) }
    ensures end { IfOk result (λ n. n ≡ 0 → IsAtEnd (S.seen random.new).content) }
    ensures failed { OnErr result (Gave (S.seen random.old).content (S.seen random.new).content []) }
    ensures counts { CountsFault (S.seen random.old).faults (S.seen random.new).faults result }
{
    random.take(&mut seed[length..])
}

/// The next 32 bytes of the source, of which no more are taken. It stops at the first fault and at the end.
#[tactic(auto, using(crate::proofs::Seeding::gave_more, crate::proofs::Seeding::gave_no_more, crate::proofs::Seeding::not_early))]
pub fn seed_of<S: Source>(random: &mut S) -> Result<[u8; 32], SeedFault>
    ensures seed { IfOk result (Gave (S.seen random.old).content (S.seen random.new).content) }
    ensures refused { IfErr result (GaveNoSeed (S.seen random.old).content (S.seen random.new).content
        (S.seen random.old).faults (S.seen random.new).faults) }
    // Where the source tells its bytes and doesn't fail, there is a seed exactly where it has 32 bytes left.
    ensures enough { WithEnough (S.seen random.old) (S.seen random.new) (IsOk result) }
    ensures early { WithTooFew (S.seen random.old) (S.seen random.new)
        (λ left. result ≡ Err (SeedFault.Early left)) }
    ensures unfailed { OnOk result ((S.seen random.new).faults ≡ (S.seen random.old).faults) }
{
    let mut seed = [0u8; 32];
    let mut length = 0;
    'taking: while length < seed.len() {
        match take_behind(random, &mut seed, length) {
            Err(_) => return Err(SeedFault::Failed(random.faults())),
            Ok(0) => return Err(SeedFault::Early(length as u32)),
            Ok(count) => length += count,
        }
    }
    Ok(seed)
}
