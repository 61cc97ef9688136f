//! What both servers make of an audit: the key of its challenges, and one server's closing of a proof.
ghost use Rattle.std.specs.Prelude.{◌≡◌, ◌≤◌};
ghost use Rattle.audit_rules.specs.Audit.{closing_of, opened_of};
ghost use Rattle.audit_rules.specs.Values.{ckey_of};

use crate::room::Proof;
use audit_rules::Sums;
use dpf_rules::xor_into;
use express_words::{Closing, Openings};
use snip_proof::close_share;

/// The key of a write's challenges, from the draws of both servers.
pub fn challenge_key(leaders: &[u8; 32], helpers: &[u8; 32]) -> [u8; 32]
    ensures { result ≡ ckey_of leaders.now helpers.now }
{
    let mut key = *leaders;
    xor_into(&mut key, helpers);
    key
}

/// What server 0 or 1 closes its share of a proof with, where these are both servers' openings.
pub fn close(server: u8, proof: &Proof, zero: &Openings, one: &Openings) -> Closing
    requires { server ≤ 1 }
    ensures { result ≡ closing_of server proof.now.share proof.now.sigma (opened_of zero.now one.now) }
{
    // All of the sums went into what was opened, so closing reads none of them.
    let sums = Sums {
        x: 0,
        y: 0,
        m: 0,
        z: 0,
    };
    let both = Openings {
        d: zero.d ^ one.d,
        e: zero.e ^ one.e,
    };
    close_share(server, &sums, &proof.share, proof.sigma, &both)
}
