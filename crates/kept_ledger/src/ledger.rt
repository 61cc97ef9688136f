//! An owner's ledger.
ghost use Rattle.std.specs.Prelude.{◌≡◌, ◌≤◌, IfOk, is_none};
ghost use Rattle.kept_ledger.specs.Ledgers.{opened_ledger};
ghost use Rattle.kept_ledger.specs.Notes.{IsOpening, plain_opening};

use crate::entry::{Denied, LedgerBox, Marked, NamedBoxes, Reading};
use crate::opening::LedgerOpening;
use client_core::Client;
use desk_sheets::Pair;
use express_words::{NoMemory, Refusal};
use std::alloc::Global;
use std::marker::Model;

/// An owner's ledger: what the desk has noted, and the client that asks the servers.
#[derive(Drop)]
pub struct Ledger {
    pub(crate) pair: Pair,
    pub(crate) seed: [u8; 32],
    pub(crate) client: Client,
    pub(crate) named: Vec<NamedBoxes>,
    pub(crate) boxes: Vec<LedgerBox>,
    pub(crate) denied: Vec<Denied>,
    pub(crate) readings: Vec<Reading>,
    pub(crate) marks: Vec<Marked>,
    pub(crate) seconds: u64,
    pub(crate) refused: Option<Refusal>,
}

impl Model for Ledger {
    ghost use Rattle.kept_ledger.specs.Inside.{LedgerSeen};

    ghost Value = { LedgerSeen };

    ghost use Rattle.kept_ledger.specs.Inside.{IsInside, ledger_in};

    ghost view = { ledger_in };

    ghost invariant = { IsInside };
}

impl Ledger {
    /// The ledger before its first note.
    pub fn open(alloc: Global, opening: &LedgerOpening<'_>) -> Result<Ledger, NoMemory>
        requires { IsOpening (plain_opening opening.now) }
        ensures { IfOk result (λ l. l.state ≡ opened_ledger (plain_opening opening.now)) }
    {
        let pair = opening.pair(alloc)?;
        let client = Client::open(
            alloc,
            opening.lane,
            &opening.seed,
            opening.width,
            opening.boxes,
            opening.first_serial,
        )?;
        Ok(Ledger {
            pair,
            seed: opening.seed,
            client,
            named: Vec::new(alloc),
            boxes: Vec::new(alloc),
            denied: Vec::new(alloc),
            readings: Vec::new(alloc),
            marks: Vec::new(alloc),
            seconds: 0,
            refused: None,
        })
    }

    /// The pair by whose file it was opened.
    pub fn pair(&self) -> &Pair
        ensures { result.now ≡ self.now.state.pair }
    {
        &self.pair
    }

    /// The seed of all that is drawn.
    pub fn seed(&self) -> &[u8; 32]
        ensures { result.now ≡ self.now.state.seed }
    {
        &self.seed
    }

    /// The names of its boxes, in the order in which they were noted.
    pub fn named(&self) -> &[NamedBoxes]
        ensures { result.now ≡ self.now.state.named }
    {
        self.named.as_slice()
    }

    /// The boxes that it got, each at its place among the client's own.
    pub fn boxes(&self) -> &[LedgerBox]
        ensures { result.now ≡ self.now.state.boxes }
    {
        self.boxes.as_slice()
    }

    /// The addresses at which there is no box to come.
    pub fn denied(&self) -> &[Denied]
        ensures { result.now ≡ self.now.state.denied }
    {
        self.denied.as_slice()
    }

    /// What boxes held, oldest first; one that held zeros alone leaves nothing.
    pub fn readings(&self) -> &[Reading]
        ensures { result.now ≡ self.now.state.readings }
    {
        self.readings.as_slice()
    }

    /// The letters that were shown or written.
    pub fn marks(&self) -> &[Marked]
        ensures { result.now ≡ self.now.state.marks }
    {
        self.marks.as_slice()
    }

    /// Whether no request is current.
    pub fn is_idle(&self) -> bool
        ensures { result ≡ is_none self.now.state.client.current }
    {
        self.client.is_idle()
    }

    /// The serial of the current request, or else of the next one; 2^32 where all are spent.
    pub fn serial(&self) -> u64
        ensures { result ≡ self.now.state.client.serial }
    {
        self.client.serial()
    }

    /// Why the last request came to nothing, where nothing else is noted of that; or why the current one
    /// isn't taken now. None again once something is asked, a request is given up, or the time is noted.
    pub fn refused(&self) -> Option<Refusal>
        ensures { result ≡ self.now.state.refused }
    {
        self.refused
    }
}
