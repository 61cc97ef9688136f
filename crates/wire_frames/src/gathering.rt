//! The bytes of one frame, from a stream that comes in pieces.
ghost use Rattle.std.specs.Prelude.{◌≡◌, ◌≢◌, ◌+◌, ◌-◌, ◌<◌, ◌≤◌, IsTrue, Err, IfOk, IfSome, IfNone};
ghost use Rattle.std.specs.Prelude.{[], ◌++◌, length, take, vec_capacity};
ghost use Rattle.frame_rules.specs.declared.fault.FrameFault.{FrameFault as Fault};
ghost use Rattle.frame_rules.specs.Frames.{PlainFrame};
ghost use Rattle.frame_rules.specs.Spelling.{Spells};
ghost use Rattle.frame_rules.specs.Reading.{decoded};
ghost use Rattle.frame_rules.specs.Gathering.{is_short, gathered, IsHeld, fed, missing};

use crate::FRAME_MAX;
use crate::decoding::decode;
use crate::fields::u32_at;
use crate::received::Received;
use express_words::NoMemory;
use frame_rules::FrameFault;
use std::alloc::Global;
use std::marker::Model;

/// Whether these bytes are neither a frame nor wrong.
fn is_waiting(held: &[u8]) -> bool
    ensures value { result ≡ is_short (decoded held.now) }
    ensures room { IsTrue result → length held.now < FRAME_MAX }
{
    match decode(held) {
        Ok(_) => false,
        Err(FrameFault::Short) => true,
        Err(FrameFault::Malformed(_)) => false,
        Err(FrameFault::Version(_)) => false,
    }
}

/// How many bytes are missing from the length, and then from the frame; 0 where these are a frame or wrong.
fn missing_from(held: &[u8]) -> usize
    ensures exact { result ≡ missing held.now }
    ensures open { decoded held.now ≡ Err FrameFault.Short → 0 < result }
{
    if !is_waiting(held) {
        return 0;
    }
    match u32_at(held, 0) {
        Err(_) => 4 - held.len(),
        Ok(length) => 4 + length as usize - held.len(),
    }
}

/// So many bytes are judged one by one: the header, a tag and a refusal's number. Behind them the length
/// alone decides.
const JUDGED: usize = 22;

/// Takes bytes one by one while what is held is waiting for more.
fn take_each(held: &mut Vec<u8>, piece: &[u8])
    requires { FRAME_MAX ≤ vec_capacity held.old }
    ensures held { held.new.items ≡ gathered held.old.items piece.now }
    ensures capacity { vec_capacity held.new ≡ vec_capacity held.old }
{
    for byte in piece {
        if !is_waiting(held) {
            return;
        }
        held.push_reserved(*byte);
    }
}

/// Adds bytes that have room.
fn push_all(held: &mut Vec<u8>, bytes: &[u8])
    requires { length held.old.items + length bytes.now ≤ vec_capacity held.old }
    ensures held { held.new.items ≡ held.old.items ++ bytes.now }
    ensures capacity { vec_capacity held.new ≡ vec_capacity held.old }
{
    for byte in bytes {
        held.push_reserved(*byte);
    }
}

/// Takes what is missing at once.
fn take_missing(held: &mut Vec<u8>, piece: &[u8])
    requires judged { JUDGED ≤ length held.old.items }
    requires room { FRAME_MAX ≤ vec_capacity held.old }
    ensures held { held.new.items ≡ gathered held.old.items piece.now }
    ensures capacity { vec_capacity held.new ≡ vec_capacity held.old }
{
    let count = missing_from(held).min(piece.len());
    push_all(held, &piece[..count]);
}

/// Takes bytes while what is held is waiting for more.
fn take_from(held: &mut Vec<u8>, piece: &[u8])
    requires { FRAME_MAX ≤ vec_capacity held.old }
    ensures held { held.new.items ≡ gathered held.old.items piece.now }
    ensures capacity { vec_capacity held.new ≡ vec_capacity held.old }
    ensures grows { length held.old.items ≤ length held.new.items }
{
    let front = JUDGED.saturating_sub(held.len()).min(piece.len());
    take_each(held, &piece[..front]);
    if held.len() >= JUDGED {
        take_missing(held, &piece[front..]);
    }
}

/// What feeding answers where these bytes are held, the last `taken` of them new.
fn answer(held: &[u8], taken: usize) -> Result<usize, FrameFault>
    ensures { result ≡ fed (decoded held.now) taken }
{
    match decode(held) {
        Ok(_) => Ok(taken),
        Err(FrameFault::Short) => Ok(taken),
        Err(FrameFault::Malformed(place)) => Err(FrameFault::Malformed(place)),
        Err(FrameFault::Version(version)) => Err(FrameFault::Version(version)),
    }
}

fn feed_into(held: &mut Vec<u8>, piece: &[u8]) -> Result<usize, FrameFault>
    requires { FRAME_MAX ≤ vec_capacity held.old }
    ensures held { held.new.items ≡ gathered held.old.items piece.now }
    ensures capacity { vec_capacity held.new ≡ vec_capacity held.old }
    ensures answer { result ≡ fed (decoded held.new.items) (length held.new.items - length held.old.items) }
{
    let before = held.len();
    take_from(held, piece);
    answer(held, held.len() - before)
}

/// What is fed up to the end of a frame, or up to the byte at which it is known to be none.
#[derive(Drop)]
pub struct Gather {
    held: Vec<u8>,
}

impl Model for Gather {
    ghost use Rattle.std.specs.Prelude.{◌≤◌, List, ℕ, vec_capacity};
    ghost use Rattle.frame_rules.specs.Gathering.{IsHeld};

    ghost Value = { List ℕ };

    ghost view = { λ g. g.held.items };

    ghost invariant = { λ g. (8213 ≤ vec_capacity g.held) × IsHeld g.held.items };
}

impl Gather {
    /// Holds nothing. This alone takes memory, for the longest frame.
    pub fn open(alloc: Global) -> Result<Gather, NoMemory>
        ensures { IfOk result (λ g. g ≡ []) }
    {
        match Vec::with_capacity(alloc, FRAME_MAX) {
            Ok(held) => Ok(Gather { held }),
            Err(_) => Err(NoMemory),
        }
    }

    /// Takes bytes up to the frame's end and says how many, or answers the fault of what is held.
    pub fn feed(&mut self, piece: &[u8]) -> Result<usize, FrameFault>
        ensures held { self.new ≡ gathered self.old piece.now }
        ensures answer { result ≡ fed (decoded self.new) (length self.new - length self.old) }
        // A fault is answered again until this is cleared.
        ensures again { (fault : Fault) → fault ≢ FrameFault.Short → decoded self.old ≡ Err fault
            → (result ≡ Err fault) × (self.new ≡ self.old) }
        ensures never_short { result ≢ Err FrameFault.Short }
        ensures taken { IfOk result (λ n. (n ≤ length piece.now)
            × (self.new ≡ self.old ++ take n piece.now)) }
    {
        feed_into(&mut self.held, piece)
    }

    /// How many bytes are missing from the length, and then from the frame; 0 where it is whole or wrong.
    pub fn want(&self) -> usize
        ensures exact { result ≡ missing self.now }
        ensures open { decoded self.now ≡ Err FrameFault.Short → 0 < result }
    {
        missing_from(&self.held)
    }

    /// The frame, where it is whole.
    pub fn frame(&self) -> Option<&[u8]>
        ensures whole { IfSome result (λ bytes. (bytes.now ≡ self.now)
            × ((f : PlainFrame) × Spells f self.now)) }
        ensures none { IfNone result ((f : PlainFrame) → Spells f self.now → ⊥) }
    {
        match decode(&self.held) {
            Ok(_) => Some(&self.held),
            Err(_) => None,
        }
    }

    /// What was taken since this was opened or cleared.
    pub fn held(&self) -> &[u8]
        ensures value { result.now ≡ self.now }
        ensures shortest { IsHeld self.now }
    {
        &self.held
    }

    /// What was taken, judged.
    pub fn received(&self) -> Received<'_>
        ensures { result ≡ self.now }
    {
        Received::of(&self.held)
    }

    /// Holds nothing again.
    pub fn clear(&mut self)
        ensures { self.new ≡ [] }
    {
        self.held.clear();
    }
}
