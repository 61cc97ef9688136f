//! The sums of a server's leaves under a challenge key.
#![tactic(auto)]

mod batch;
mod eight;
mod few;

ghost use Rattle.std.specs.Prelude.{◌≡◌, length};
ghost use Rattle.audit_rules.specs.Challenges.{sums_under};
ghost use Rattle.write_sketch.specs.Parts.{sums_with};

pub use audit_rules::Sums;
use batch::{BATCH, batch_sums};
use few::few_sums;

// The sums of two parts of the boxes together.
fn added(a: Sums, b: Sums) -> Sums
    ensures { result ≡ sums_with a b }
{
    Sums {
        x: a.x ^ b.x,
        y: a.y ^ b.y,
        m: a.m ^ b.m,
        z: a.z ^ b.z,
    }
}

/// The four sums of a server's leaves `states` at `addresses`, under the challenge that `ckey` draws at each address.
/// Empty lists give four zeros.
pub fn sums(states: &[u128], addresses: &[u128], ckey: &[u8; 32]) -> Sums
    requires { length states.now ≡ length addresses.now }
    ensures sums { result ≡ sums_under ckey.now addresses.now states.now }
{
    let mut sums = Sums {
        x: 0,
        y: 0,
        m: 0,
        z: 0,
    };
    let batches = states.len() / BATCH;
    for batch in 0..batches {
        let from = BATCH * batch;
        let end = from + BATCH;
        sums = added(
            sums,
            batch_sums(&states[from..end], &addresses[from..end], ckey),
        );
    }
    let rest = BATCH * batches;
    added(sums, few_sums(&states[rest..], &addresses[rest..], ckey))
}
