//! What changes a leader's gate, and the records of it.
ghost use Rattle.std.specs.Prelude.{◌≡◌, ◌++◌, ◌∷◌, [], ◌≤◌, IsNone, IfSome, IfNone, length};
ghost use Rattle.lane_leases.specs.Records.{IsAsk, IsEnded, IsLeaderNote};
ghost use Rattle.lane_leases.specs.Records.{ask_bytes, end_number, leader_record};
ghost use Rattle.lane_leases.specs.Leases.{IsOfRow};
ghost use Rattle.lane_gate.specs.Notes.{IsNote, note_record};

use crate::ask::Ask;
use crate::ended::{End, Ended};
use lane_gate::{Note, TicketHash};

/// How many bytes the record of an ask has.
pub const ASK_LEN: usize = 65;

/// How many bytes the record of an end has.
pub const ENDED_LEN: usize = 34;

/// What changes a leader's gate.
#[derive(Clone, Copy)]
pub enum LeaderNote {
    /// The note of a row: a key, or a statement.
    Row(Note),
    /// A lease was asked for.
    Asked(Ask),
    /// A request ended.
    Ended(Ended),
}

fn hash_of(bytes: &[u8]) -> TicketHash
    requires { length bytes.now ≡ 32 }
    ensures { result ≡ record { 0 = bytes.now } }
{
    let mut hash = [0; 32];
    hash.copy_from_slice(bytes);
    TicketHash(hash)
}

// The ask whose hashes these are.
fn ask_of(bytes: &[u8]) -> Option<Ask>
    ensures some { IfSome result IsAsk }
    ensures is { IfSome result (λ ask. bytes.now ≡ ask_bytes ask) }
    ensures none { IsNone result → (ask : Ask) → IsAsk ask → bytes.now ≡ ask_bytes ask → ⊥ }
{
    if bytes.len() != 64 {
        return None;
    }
    let (own, helper) = bytes.split_at(32);
    Some(Ask {
        own: hash_of(own),
        helper: hash_of(helper),
    })
}

fn number_of(end: End) -> u8
    ensures { result ≡ end_number end }
{
    match end {
        End::Written => 1,
        End::NotWritten => 2,
    }
}

fn end_numbered(number: u8) -> Option<End>
    ensures some { IfSome result (λ end. end_number end ≡ number) }
    ensures none { IsNone result → (end : End) → end_number end ≡ number → ⊥ }
{
    match number {
        1 => Some(End::Written),
        2 => Some(End::NotWritten),
        _ => None,
    }
}

// The end of this number, of the ticket whose hash this is.
fn ended_of(number: u8, hash: &[u8]) -> Option<Ended>
    ensures some { IfSome result IsEnded }
    ensures is { IfSome result (λ ended. number ∷ hash.now ≡ end_number ended.end ∷ ended.hash.0) }
    ensures none { IsNone result → (ended : Ended) → IsEnded ended
        → number ∷ hash.now ≡ end_number ended.end ∷ ended.hash.0 → ⊥ }
{
    if hash.len() != 32 {
        return None;
    }
    let end = end_numbered(number)?;
    Some(Ended {
        hash: hash_of(hash),
        end,
    })
}

// The note of a row whose record this is.
fn row_note_of(bytes: &[u8]) -> Option<Note>
    ensures some { IfSome result (λ note. IsNote note × IsOfRow note) }
    ensures is { IfSome result (λ note. bytes.now ≡ note_record note) }
    ensures none { IsNone result → (note : Note) → IsNote note → IsOfRow note
        → bytes.now ≡ note_record note → ⊥ }
{
    match Note::of(bytes) {
        Some(Note::Lease { .. }) => None,
        found => found,
    }
}

// One behind the other.
fn both(own: &[u8; 32], helper: &[u8; 32]) -> [u8; 64]
    ensures { result ≡ own.now ++ helper.now }
{
    let mut bytes = [0; 64];
    let (first, second) = bytes.split_at_mut(32);
    first.copy_from_slice(own);
    second.copy_from_slice(helper);
    bytes
}

impl Ask {
    /// The record: the tag 20, and both hashes.
    pub fn record(&self) -> [u8; ASK_LEN]
        ensures { result ≡ 20 ∷ ask_bytes self.now }
    {
        let mut bytes = [20; ASK_LEN];
        bytes[1..].copy_from_slice(&both(&self.own.0, &self.helper.0));
        bytes
    }
}

impl Ended {
    /// The record: the tag 21, the end, 1 of a letter that was written and 2 of one that wasn't, and the
    /// hash.
    pub fn record(&self) -> [u8; ENDED_LEN]
        ensures { result ≡ 21 ∷ end_number self.now.end ∷ self.now.hash.0 }
    {
        let mut bytes = [21; ENDED_LEN];
        bytes[1] = number_of(self.end);
        bytes[2..].copy_from_slice(&self.hash.0);
        bytes
    }
}

impl LeaderNote {
    /// The note that a record is, if it is one.
    pub fn of(bytes: &[u8]) -> Option<LeaderNote>
        ensures some { IfSome result IsLeaderNote }
        ensures is { IfSome result (λ n. bytes.now ≡ leader_record n) }
        ensures none { IsNone result → (n : LeaderNote) → IsLeaderNote n → bytes.now ≡ leader_record n → ⊥ }
    {
        match bytes {
            [20, hashes @ ..] => Some(LeaderNote::Asked(ask_of(hashes)?)),
            [21, number, hash @ ..] => Some(LeaderNote::Ended(ended_of(*number, hash)?)),
            _ => Some(LeaderNote::Row(row_note_of(bytes)?)),
        }
    }
}
