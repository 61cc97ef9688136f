//! A letter on its way.
ghost use Rattle.std.specs.Prelude.{◌≡◌, ◌-◌, ◌<◌, ◌≤◌, None, IfOk, IfSome, length, take};
ghost use Rattle.kept_letter.specs.Draws.{helper_ticket, leader_ticket};
ghost use Rattle.kept_letter.specs.Letters.{begins, begun_by, is_at_last_proof, is_text_whole, opened_letter};
ghost use Rattle.kept_letter.specs.Letters.{longer_text, present_seed};
ghost use Rattle.kept_letter.specs.Letters.{proof_goes, with_client, with_text};
ghost use Rattle.kept_letter.specs.Inside.{IsClientFor};
ghost use Rattle.kept_letter.specs.Notes.{plain_opening};

use crate::draws::{TryDraws, try_draws};
use crate::opening::LetterOpening;
use crate::plan::{Plan, plan_of};
use client_core::Client;
use express_words::NoMemory;
use letter_copies::Copies;
use letter_pieces::LetterId;
use std::alloc::Global;
use std::marker::Model;

/// No letter has so many tries: six for each of at most 64 copies.
pub const MOST_TRIES: u32 = 1_000;

/// A letter on its way: its text, how its copies stand, and the client of the present try.
#[derive(Drop)]
pub struct LetterOnItsWay {
    pub(crate) seed: [u8; 32],
    pub(crate) id: LetterId,
    pub(crate) plan: Plan,
    // As many bytes as the text has, of which so many have come.
    pub(crate) text: Vec<u8>,
    pub(crate) filled: usize,
    pub(crate) tries: u32,
    pub(crate) copies: Copies,
    pub(crate) client: Option<Client>,
    pub(crate) key: Option<[u8; 32]>,
}

impl Model for LetterOnItsWay {
    ghost use Rattle.kept_letter.specs.Letters.{LetterState};

    ghost Value = { LetterState };

    ghost use Rattle.kept_letter.specs.Inside.{IsInside, letter_in};

    ghost view = { letter_in };

    ghost invariant = { IsInside };
}

// As many zeros.
fn zeros(alloc: Global, count: u32) -> Result<Vec<u8>, NoMemory>
    ensures { IfOk result (λ bytes. length bytes.items ≡ count) }
{
    match vec![in alloc; 0u8; count as usize] {
        Ok(bytes) => Ok(bytes),
        Err(_) => Err(NoMemory),
    }
}

// Puts bytes behind so many, if all of them have room; then so many stand there.
fn put_text(text: &mut [u8], filled: usize, bytes: &[u8]) -> usize
    requires { filled ≤ length text.old }
    ensures within { result ≤ length text.old }
    ensures text { take result text.new ≡ longer_text (length text.old) (take filled text.old) bytes.now }
{
    let size = bytes.len();
    if size > text.len() - filled {
        return filled;
    }
    text[filled..filled + size].copy_from_slice(bytes);
    filled + size
}

impl LetterOnItsWay {
    /// The letter before its first note. All memory but that of the tries' clients is taken.
    pub fn open(alloc: Global, opening: &LetterOpening<'_>) -> Result<LetterOnItsWay, NoMemory>
        ensures { IfOk result (λ letter. letter ≡ opened_letter (plain_opening opening.now)) }
    {
        let plan = plan_of(alloc, opening.card, opening.count)?;
        let parts = plan.parts_for(plan.count as usize);
        let copies = Copies::start(alloc, parts, plan.each())?;
        let text = zeros(alloc, plan.count)?;
        Ok(LetterOnItsWay {
            seed: opening.seed,
            id: opening.id,
            plan,
            text,
            filled: 0,
            tries: 0,
            copies,
            client: None,
            key: None,
        })
    }

    /// Where it goes.
    pub fn plan(&self) -> &Plan
        ensures { result.now ≡ self.now.plan }
    {
        &self.plan
    }

    /// The seed of all that its tries draw.
    pub fn seed(&self) -> [u8; 32]
        ensures { result ≡ self.now.seed }
    {
        self.seed
    }

    /// By what its pieces are known.
    pub fn id(&self) -> LetterId
        ensures { result.0 ≡ self.now.id }
    {
        self.id
    }

    /// How many tries have begun.
    pub fn tries(&self) -> u32
        ensures { result ≡ self.now.tries }
    {
        self.tries
    }

    /// Its text, as far as it has come.
    pub fn text(&self) -> &[u8]
        ensures { result.now ≡ self.now.text }
    {
        &self.text[..self.filled]
    }

    /// How its copies stand.
    pub fn copies(&self) -> &Copies
        ensures { result.now ≡ self.now.copies }
    {
        &self.copies
    }

    /// Whether its text is whole, which has a byte at least.
    pub fn is_text_whole(&self) -> bool
        ensures { result ≡ is_text_whole self.now }
    {
        let count = self.plan.count;
        count >= 1 && self.filled == count as usize
    }

    /// What the present try draws, or before the first what that one draws.
    pub fn present_draws(&self) -> TryDraws
        ensures seed { result.seed ≡ present_seed self.now }
        ensures leader { result.leader ≡ leader_ticket self.now.seed (self.now.tries - 1) }
        ensures helper { result.helper ≡ helper_ticket self.now.seed (self.now.tries - 1) }
    {
        try_draws(&self.seed, self.tries.saturating_sub(1))
    }

    // The next bytes of the text; none where they are too many.
    pub(crate) fn add_text(&mut self, bytes: &[u8])
        ensures { self.new ≡ with_text self.old bytes.now }
    {
        self.filled = put_text(&mut self.text, self.filled, bytes);
    }

    // A try of the first copy that waits.
    fn begin_try(&mut self)
        requires idle { self.old.copies.present ≡ None }
        requires few { self.old.tries < 1000 }
        ensures { self.new ≡ begun_by self.old None }
    {
        self.copies.begin();
        if self.copies.present().is_some() {
            self.tries += 1;
            self.client = None;
            self.key = None;
        }
    }

    // A try begins, where none is under way and the text is whole.
    #[tactic(auto, unfolding(crate::specs::Letters::begins))]
    pub(crate) fn begin(&mut self)
        ensures { self.new ≡ begins self.old }
    {
        if self.is_text_whole() && self.tries < MOST_TRIES && self.copies.present().is_none() {
            self.begin_try();
        }
    }

    // The present try has this client.
    pub(crate) fn lease(&mut self, client: Option<Client>)
        requires { IfSome client (IsClientFor self.old.plan) }
        ensures { self.new ≡ with_client self.old client }
    {
        if let Some(client) = client {
            self.client = Some(client);
            self.key = None;
        }
    }

    // The last proof of the present try goes out.
    pub(crate) fn note_proof(&mut self)
        ensures { self.new ≡ proof_goes self.old }
    {
        if self.is_at_last_proof() {
            self.copies.proof_goes();
        }
    }

    /// Whether the client of the present try has only the last proof left.
    pub fn is_at_last_proof(&self) -> bool
        ensures { result ≡ is_at_last_proof self.now.client }
    {
        match &self.client {
            Some(client) => client.is_at_last_proof(),
            None => false,
        }
    }
}
