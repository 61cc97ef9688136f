//! The records that a log holds already, which only proofs read.
ghost use Rattle.std.specs.Prelude.{◌≡◌, [], ◌∷◌, ◌++◌};

use crate::history::{History, noted_bytes};
use std::marker::Model;

/// Records, one after another. It takes no memory, and its calls do nothing at run time.
#[derive(Drop)]
pub struct RecordLog {
    records: History<History<u8>>,
}

impl Model for RecordLog {
    ghost use Rattle.std.specs.Prelude.{ℕ, List};

    ghost Value = { List (List ℕ) };

    ghost view = { λ log. log.records };
}

impl RecordLog {
    /// No record.
    pub fn new() -> RecordLog
        ensures { result ≡ [] }
    {
        RecordLog {
            records: History::new(),
        }
    }

    /// One record more.
    pub fn note(&mut self, bytes: &[u8])
        ensures { self.new ≡ self.old ++ bytes.now ∷ [] }
    {
        self.records.note(&noted_bytes(bytes));
    }
}
