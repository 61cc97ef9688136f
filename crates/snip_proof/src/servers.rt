//! What two servers work out of a proof at a point. Each is handed its own share, and of the other's values the
//! openings and the closing alone.
ghost use Rattle.std.specs.Prelude.{◌≡◌, ◌≤◌, ◌↔◌, IsTrue};
ghost use Rattle.audit_rules.specs.Audit.{opening_of, closing_of, accepts, IsAccepted};

use crate::polynomials::{through, value_of};
use express_words::{Closing, Openings, ProofShare};
use field_tables::{Tables, mul_fast};
use write_sketch::Sums;

/// What a server opens of its sums and its share at the point `sigma`: of its f, g and triple, d = f(sigma) + a and
/// e = sigma·g(sigma) + b.
pub fn open_share(sums: &Sums, share: &ProofShare, sigma: u128) -> Openings
    ensures openings { result ≡ opening_of sums.now share.now sigma }
{
    let tables = Tables::new();
    let f = through(&tables, share.u, sums.x, sums.m);
    let g = through(&tables, share.v, sums.y, sums.z);
    let of_g = value_of(&tables, &g, sigma);
    Openings {
        d: value_of(&tables, &f, sigma) ^ share.a,
        e: mul_fast(&tables, sigma, of_g) ^ share.b,
    }
}

/// A server's share of the verdict at the point `sigma`, where `opened` is the sum of both servers' openings. Server 0
/// adds the product of what was opened. The sums went into the openings, and no more of them is needed.
pub fn close_share(
    server: u8,
    _sums: &Sums,
    share: &ProofShare,
    sigma: u128,
    opened: &Openings,
) -> Closing
    requires server { server ≤ 1 }
    ensures closing { result ≡ closing_of server share.now sigma opened.now }
{
    let tables = Tables::new();
    let of_h = value_of(&tables, &share.h, sigma);
    let crossed = mul_fast(&tables, opened.d, share.b) ^ mul_fast(&tables, opened.e, share.a);
    let both = if server == 0 {
        mul_fast(&tables, opened.d, opened.e)
    } else {
        0
    };
    Closing {
        o: value_of(&tables, &share.h, 1) ^ value_of(&tables, &share.h, 2),
        tau: crossed ^ share.c ^ mul_fast(&tables, sigma, of_h) ^ both,
    }
}

/// Whether a write is accepted: exactly where both sums over the servers are 0.
pub fn judge(zero: &Closing, one: &Closing) -> bool
    ensures judged { result ≡ accepts zero.now one.now }
    ensures accepted { IsTrue result ↔ IsAccepted zero.now one.now }
{
    zero.o ^ one.o == 0 && zero.tau ^ one.tau == 0
}
