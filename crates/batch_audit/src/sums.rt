//! Batches of closings.
ghost use Rattle.std.specs.Prelude.{◌≡◌};
ghost use Rattle.batch_audit.specs.Batch.{batch};

use express_words::Closing;
use field_tables::{Tables, mul_fast};

/// The sum of the closings, each with a power of `rho`, the first with power 0. It takes no memory.
pub fn batch_of(closings: &[Closing], rho: u128) -> Closing
    ensures { result ≡ batch closings.now rho }
{
    let tables = Tables::new();
    let mut o = 0;
    let mut tau = 0;
    let mut left = closings.len();
    while left > 0 {
        left -= 1;
        o = closings[left].o ^ mul_fast(&tables, rho, o);
        tau = closings[left].tau ^ mul_fast(&tables, rho, tau);
    }
    Closing { o, tau }
}
