//! The words of the proof that open the same with moved expansions, and close the same.
ghost use Rattle.std.specs.Prelude.{◌≡◌, ◌≤◌, length, bit_xor};
ghost use Rattle.tower_numbers.specs.Levels.{inverse_at};
ghost use Rattle.audit_rules.specs.Audit.{product, value, through_three};
ghost use Rattle.write_hiding.specs.Choices.{plain_choice, plain_aim, plain_game};
ghost use Rattle.write_hiding.specs.Moved.{weight, moved_mask, u_by_sums, v_by_sums, with_one, with_zero};
ghost use Rattle.write_hiding.specs.Moved.{zero_words, AreMovedWords};

use crate::audit::Audited;
use crate::choice::{Aim, Game, IdealChoice, View};
use crate::views::drawn;
use chacha_expand::challenge;
use express_words::{Openings, ProofShare};
use field_tables::{Tables, mul_fast};
use snip_proof::{open_share, prove};
use tower_field::{Field, Gf128};
use write_sketch::Sums;

// A share that has these masks of f and g alone.
fn masks_alone(u: u128, v: u128) -> ProofShare
    ensures u { result.u ≡ u }
    ensures v { result.v ≡ v }
    ensures a { result.a ≡ 0 }
    ensures b { result.b ≡ 0 }
{
    ProofShare {
        u,
        v,
        h: [0; 5],
        a: 0,
        b: 0,
        c: 0,
    }
}

// The value at a point of the polynomial that has these values at 0, 1 and 2.
fn value_through(at0: u128, at1: u128, at2: u128, sigma: u128) -> u128
    ensures { result ≡ value (through_three at0 at1 at2) sigma }
{
    let sums = Sums {
        x: at1,
        y: 0,
        m: at2,
        z: 0,
    };
    open_share(&sums, &masks_alone(at0, 0), sigma).d
}

// The inverse of what a mask counts at a point: 0 where it counts nothing.
fn scale_at(sigma: u128) -> u128
    ensures { result ≡ inverse_at 7 (weight sigma) }
{
    let weight = value_through(1, 0, 0, sigma);
    if weight == 0 {
        return 0;
    }
    Gf128(weight).invert().unwrap().value()
}

// The mask by which the polynomial that has the values `to` at 1 and 2 has the value at a point that it had
// with this mask and the values `from`.
fn moved_mask(sigma: u128, mask: u128, from: (u128, u128), to: (u128, u128)) -> u128
    ensures { result ≡ moved_mask sigma mask from.0 from.1 to.0 to.1 }
{
    let change = value_through(0, from.0 ^ to.0, from.1 ^ to.1, sigma);
    mask ^ mul_fast(&Tables::new(), scale_at(sigma), change)
}

// The other server's u and v, by which f and g have the values that they had.
fn moved_masks(choice: &IdealChoice, before: &Sums, after: &Sums, sigma: u128) -> (u128, u128)
    requires viewer { choice.now.viewer ≤ 1 }
    ensures u { let c = choice.now in result.0 ≡ u_by_sums c.viewer c.words sigma before.now after.now }
    ensures v { let c = choice.now in result.1 ≡ v_by_sums c.viewer c.words sigma before.now after.now }
{
    let other = usize::from(1 - choice.viewer);
    let u = choice.words[other];
    let v = choice.words[2 + other];
    (
        moved_mask(sigma, u, (before.x, before.m), (after.x, after.m)),
        moved_mask(sigma, v, (before.y, before.z), (after.y, after.z)),
    )
}

// The other server's a and b, by which it opens what it opened.
fn moved_factors(u: u128, v: u128, opened: &Openings, sums: &Sums, sigma: u128) -> (u128, u128)
    ensures a { result.0 ≡ bit_xor opened.now.d (value (through_three u sums.now.x sums.now.m) sigma) }
    ensures b { let g = value (through_three v sums.now.y sums.now.z) sigma in
        result.1 ≡ bit_xor opened.now.e (product sigma g) }
{
    let values = open_share(sums, &masks_alone(u, v), sigma);
    (opened.d ^ values.d, opened.e ^ values.e)
}

// The words with server 1's u, v, a and b replaced.
fn with_one(words: &[u128; 14], u: u128, v: u128, a: u128, b: u128) -> [u128; 14]
    ensures { result ≡ with_one words.now u v a b }
{
    let [u0, _, v0, _, h0, h1, h2, h3, h4, a0, _, b0, _, c0] = *words;
    [u0, u, v0, v, h0, h1, h2, h3, h4, a0, a, b0, b, c0]
}

// The words with those replaced that are server 0's share.
fn with_zero(words: &[u128; 14], share: &ProofShare) -> [u128; 14]
    ensures { result ≡ with_zero words.now share.now }
{
    let [_, u1, _, v1, _, _, _, _, _, _, a1, _, b1, _] = *words;
    let ProofShare { u, v, h, a, b, c } = *share;
    let [h0, h1, h2, h3, h4] = h;
    [u, u1, v, v1, h0, h1, h2, h3, h4, a, a1, b, b1, c]
}

// The words in which server 0 has u, v, a and b of this share, and server 1 its h and c: server 0's are those
// and f·g, and that and a·b.
fn zero_words(
    choice: &IdealChoice,
    share: &ProofShare,
    difference: u128,
    r: u128,
    s: u128,
) -> [u128; 14]
    requires size { length share.now.h ≡ 5 }
    ensures { result ≡ zero_words (plain_choice choice.now) share.now difference r s }
{
    let words = with_zero(&choice.words, share);
    let (_, one) = prove(
        difference,
        r,
        s,
        &drawn(choice.own_root, choice.other_root, &words),
    );
    let ProofShare { h, c, .. } = one;
    let made = ProofShare { h, c, ..*share };
    with_zero(&choice.words, &made)
}

/// The words of the moved choice, from what the viewer saw and from what the other server audits before the
/// move and both servers after it.
pub fn moved_words(
    choice: &IdealChoice,
    seen: &View,
    before: &Sums,
    after: &Audited,
    to: &Aim,
    game: &Game,
) -> [u128; 14]
    requires viewer { choice.now.viewer ≤ 1 }
    requires size { length seen.now.proof.h ≡ 5 }
    ensures { let c = choice.now in
        AreMovedWords c.viewer (plain_choice c) (plain_aim to.now) (plain_game game.now)
        seen.now before.now after.now result }
{
    let (u, v) = moved_masks(choice, before, &after.other, game.sigma);
    let (a, b) = moved_factors(u, v, &seen.opened, &after.other, game.sigma);
    if choice.viewer == 0 {
        with_one(&choice.words, u, v, a, b)
    } else {
        let (r, s) = challenge(&game.ckey, to.target);
        let share = ProofShare {
            u,
            v,
            a,
            b,
            ..seen.proof
        };
        zero_words(choice, &share, after.difference, r, s)
    }
}
