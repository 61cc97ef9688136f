//! That bytes and words are in range, which a proof learns where they are read.
ghost use Rattle.std.specs.Prelude.{ℕ, ◌<◌, ◌^◌, All};
ghost use Rattle.express_words.specs.Ranges.{IsProofShare};
ghost use Rattle.audit_rules.specs.Ranges.{IsSums};

use crate::sums::Sums;
use express_words::ProofShare;

/// Every byte is below 256.
pub fn read_bytes(bytes: &[u8])
    ensures in_range { All (λ b. b < 256) bytes.now }
{}

/// Every word is a number of the field.
pub fn read_words(words: &[u128])
    ensures in_range { All (λ n. n < 2 ^ 128) words.now }
{}

/// Every word of a share is a number of the field.
pub fn read_share(share: &ProofShare)
    ensures in_range { IsProofShare share.now }
{
    read_words(&share.h);
    let _u = share.u;
    let _v = share.v;
    let _a = share.a;
    let _b = share.b;
    let _c = share.c;
}

/// The four sums are numbers of the field.
pub fn read_sums(sums: &Sums)
    ensures in_range { IsSums sums.now }
{
    let _x = sums.x;
    let _y = sums.y;
    let _m = sums.m;
    let _z = sums.z;
}
