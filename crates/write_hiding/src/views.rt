//! The view of a choice.
ghost use Rattle.std.specs.Prelude.{◌≡◌, ◌∷◌, ◌+◌, ◌-◌, ◌≤◌, length, IfOk};
ghost use Rattle.express_words.specs.Limits.{IsWidth, levels_len};
ghost use Rattle.audit_rules.specs.Audit.{opening_of, closing_of};
ghost use Rattle.write_hiding.specs.Choices.{plain_choice, plain_aim, plain_game};
ghost use Rattle.write_hiding.specs.Views.{difference_of, own_share, other_share, both_opened, view_of};

use crate::audit::{Audited, audit};
use crate::choice::{Aim, Game, IdealChoice, View};
use crate::part::public_part;
use chacha_expand::challenge;
use dpf_keys::PublicPart;
use express_words::{Closing, List, NoMemory, Openings, ProofShare};
use snip_proof::{close_share, open_share, prove};
use std::alloc::Global;

/// The sixteen words that a proof is made of. It doesn't read the first two, which are the roots.
pub fn drawn(own_root: u128, other_root: u128, words: &[u128; 14]) -> [u128; 16]
    ensures { result ≡ own_root ∷ (other_root ∷ words.now) }
{
    let [u0, u1, v0, v1, h0, h1, h2, h3, h4, a0, a1, b0, b1, c0] = *words;
    [
        own_root, other_root, u0, u1, v0, v1, h0, h1, h2, h3, h4, a0, a1, b0, b1, c0,
    ]
}

// The viewer's share of the proof, and the other server's, where both leaves differ by `difference` at the
// target.
fn shares(
    choice: &IdealChoice,
    difference: u128,
    aim: &Aim,
    game: &Game,
) -> (ProofShare, ProofShare)
    requires viewer { choice.now.viewer ≤ 1 }
    requires difference { difference
        ≡ difference_of choice.now.viewer (plain_choice choice.now) (plain_aim aim.now) }
    ensures own { result.0
        ≡ own_share choice.now.viewer (plain_choice choice.now) (plain_aim aim.now) (plain_game game.now) }
    ensures other { result.1
        ≡ other_share choice.now.viewer (plain_choice choice.now) (plain_aim aim.now) (plain_game game.now) }
{
    let (r, s) = challenge(&game.ckey, aim.target);
    let words = drawn(choice.own_root, choice.other_root, &choice.words);
    let (zero, one) = prove(difference, r, s, &words);
    if choice.viewer == 0 {
        (zero, one)
    } else {
        (one, zero)
    }
}

// What the other server opens, and what it closes once both have opened.
fn exchanged(
    viewer: u8,
    audited: &Audited,
    own: &ProofShare,
    other: &ProofShare,
    sigma: u128,
) -> (Openings, Closing)
    requires viewer { viewer ≤ 1 }
    ensures opened { result.0 ≡ opening_of audited.now.other other.now sigma }
    ensures closed { result.1
        ≡ closing_of (1 - viewer) other.now sigma (both_opened audited.now own.now other.now sigma) }
{
    let own_opening = open_share(&audited.own, own, sigma);
    let opening = open_share(&audited.other, other, sigma);
    let opened = Openings {
        d: own_opening.d ^ opening.d,
        e: own_opening.e ^ opening.e,
    };
    (
        opening,
        close_share(1 - viewer, &audited.other, other, sigma, &opened),
    )
}

/// What the viewer has of a choice with this aim, under a game. `NoMemory` comes where there is none for the
/// bytes of the public part or for a list of leaves, one an address.
pub fn view(alloc: Global, choice: &IdealChoice, aim: &Aim, game: &Game) -> Result<View, NoMemory>
    requires viewer { choice.now.viewer ≤ 1 }
    requires levels { length choice.now.levels ≡ 128 }
    requires block { length choice.now.last_block ≡ length aim.now.message.now }
    requires width { IsWidth (length aim.now.message.now) }
    ensures view { IfOk result (λ v. v ≡ view_of choice.now.viewer choice.now aim.now game.now) }
    ensures length { IfOk result (λ v. length v.public ≡ levels_len + length aim.now.message.now) }
{
    let bytes = public_part(alloc, choice, aim)?;
    let part = PublicPart::of(&bytes).unwrap();
    let audited = audit(alloc, &part, choice, aim, game)?;
    let (own, other) = shares(choice, audited.difference, aim, game);
    let (opened, closed) = exchanged(choice.viewer, &audited, &own, &other, game.sigma);
    Ok(View {
        own_root: choice.own_root,
        public: List::from_vec(bytes),
        proof: own,
        opened,
        closed,
    })
}
