//! How a ledger is opened, and the record of it.
ghost use Rattle.std.specs.Prelude.{List as Listed, ℕ, ◌≡◌, ◌≤◌, ◌<◌, ◌^◌, ◌∷◌, ◌++◌, [], IsNone, IfOk};
ghost use Rattle.std.specs.Prelude.{IfSome, IsTrue, ◌↔◌, MatchOption, length, true, false};
ghost use Rattle.std.specs.Int.{w16, w32, to_be_bytes};
ghost use Rattle.std.specs.Str.{is_utf8};
ghost use Rattle.kept_ledger.specs.Notes.{IsOpening, Opening, opening_record, plain_opening};
ghost use Rattle.express_words.specs.Limits.{IsWidth};
ghost use Rattle.kept_ledger.specs.Openings.{HasNumbers, HasShape, HasTexts, IsFront, front_bytes, front_of};
ghost use Rattle.kept_ledger.specs.Openings.{raw_opening};
ghost use Rattle.kept_ledger.specs.Records.{IsNoOpening};
ghost use Rattle.desk_sheets.specs.declared.sheet.Pair.{Pair as PairOf};

use crate::parts::{put, put_three, word_in};
use desk_sheets::{OwnersServer, Pair};
use express_words::limits::{LEAST_WIDTH, MOST_BOXES, MOST_WIDTH};
use express_words::{NoMemory, Text};
use lane_gate::Ticket;
use node_journal::RECORD_MAX;
use std::alloc::Global;

/// A server's place has at most so many bytes.
pub const PLACE_MAX: usize = 255;

/// A server of a pair, as an owner reaches it.
#[derive(Clone, Copy)]
pub struct ServerAt<'a> {
    /// Where it is reached, as `host:port`, at most 255 bytes.
    pub place: &'a str,
    /// The key of the owner's lane there.
    pub key: Ticket,
}

/// How a ledger is opened.
#[derive(Clone, Copy)]
pub struct LedgerOpening<'a> {
    /// The seed of all that is drawn, which no other ledger has but those that go before and behind it.
    pub seed: [u8; 32],
    /// The serial of its first request, not 0. Under the same seed it is above all that were used.
    pub first_serial: u32,
    /// The bytes of a box.
    pub width: u32,
    /// The boxes that the servers have room for: 1 to 4,096.
    pub boxes: u32,
    /// The owner's lane.
    pub lane: u16,
    pub leader: ServerAt<'a>,
    pub helper: ServerAt<'a>,
}

fn server_at(server: &OwnersServer) -> ServerAt<'_>
    ensures place { result.place.now ≡ server.now.place }
    ensures key { result.key ≡ server.now.key }
{
    ServerAt {
        place: server.place.as_str(),
        key: server.key,
    }
}

fn text_of(alloc: Global, place: &str) -> Result<Text, NoMemory>
    ensures { IfOk result (λ text. text ≡ place.now) }
{
    let text = String::from_str(alloc, place)?;
    Ok(Text::from_string(text))
}

impl<'a> LedgerOpening<'a> {
    /// The opening of a ledger for this pair.
    pub fn on(pair: &'a Pair, seed: &[u8; 32], first_serial: u32) -> LedgerOpening<'a>
        ensures { plain_opening result
            ≡ record { pair = pair.now; seed = seed.now; first_serial = first_serial } }
    {
        LedgerOpening {
            seed: *seed,
            first_serial,
            width: pair.width,
            boxes: pair.boxes,
            lane: pair.lane,
            leader: server_at(&pair.leader),
            helper: server_at(&pair.helper),
        }
    }

    /// The pair.
    pub fn pair(&self, alloc: Global) -> Result<Pair, NoMemory>
        ensures { IfOk result (λ pair. pair ≡ (plain_opening self.now).pair) }
    {
        let leader = text_of(alloc, self.leader.place)?;
        let helper = text_of(alloc, self.helper.place)?;
        Ok(Pair {
            width: self.width,
            boxes: self.boxes,
            lane: self.lane,
            leader: OwnersServer {
                place: leader,
                key: self.leader.key,
            },
            helper: OwnersServer {
                place: helper,
                key: self.helper.key,
            },
        })
    }
}

// What stands before the keys.
#[derive(Clone, Copy)]
struct Front {
    first_serial: u32,
    seed: [u8; 32],
    width: u32,
    boxes: u32,
    lane: u16,
}

// An opening as its record has it, of any numbers.
#[derive(Clone, Copy)]
struct RawOpening<'a> {
    front: Front,
    leader_key: [u8; 16],
    helper_key: [u8; 16],
    leader: &'a [u8],
    helper: &'a [u8],
}

// The seed, and what follows it.
fn seed_in(bytes: &[u8]) -> Option<([u8; 32], &[u8])>
    ensures some { IfSome result (λ r. bytes.now ≡ r.0 ++ r.1.now) }
    ensures none { IsNone result → length bytes.now < 32 }
{
    if bytes.len() < 32 {
        return None;
    }
    let (front, rest) = bytes.split_at(32);
    let mut seed = [0; 32];
    seed.copy_from_slice(front);
    Some((seed, rest))
}

fn key_in(bytes: &[u8]) -> Option<([u8; 16], &[u8])>
    ensures some { IfSome result (λ r. bytes.now ≡ r.0 ++ r.1.now) }
    ensures long { IfSome result (λ r. length r.0 ≡ 16) }
    ensures none { IsNone result → length bytes.now < 16 }
{
    if bytes.len() < 16 {
        return None;
    }
    let (front, rest) = bytes.split_at(16);
    let mut key = [0; 16];
    key.copy_from_slice(front);
    Some((key, rest))
}

fn short_in(bytes: &[u8]) -> Option<(u16, &[u8])>
    ensures some { IfSome result (λ r. bytes.now ≡ to_be_bytes w16 r.0 ++ r.1.now) }
    ensures fits { IfSome result (λ r. r.0 < 2 ^ 16) }
    ensures none { IsNone result → length bytes.now < 2 }
{
    let [a, b, rest @ ..] = bytes else {
        return None;
    };
    Some((u16::from_be_bytes([*a, *b]), rest))
}

// The two places, that of the leader behind its length.
fn places_in(bytes: &[u8]) -> Option<(&[u8], &[u8])>
    ensures some { IfSome result (λ r. bytes.now ≡ length r.0.now ∷ r.0.now ++ r.1.now) }
    ensures few { IfSome result (λ r. length r.0.now ≤ 255) }
    ensures none { IsNone result → (one other : Listed ℕ) → bytes.now ≡ length one ∷ one ++ other → ⊥ }
{
    let [count, rest @ ..] = bytes else {
        return None;
    };
    let count = usize::from(*count);
    if rest.len() < count {
        return None;
    }
    Some(rest.split_at(count))
}

fn front_in(bytes: &[u8]) -> Option<(Front, &[u8])>
    ensures some { IfSome result (λ r. bytes.now ≡ front_bytes r.0 ++ r.1.now) }
    ensures fits { IfSome result (λ r. IsFront r.0) }
    ensures none { IsNone result → length bytes.now < 46 }
{
    if bytes.len() < 46 {
        return None;
    }
    let (first_serial, rest) = word_in(bytes)?;
    let (seed, rest) = seed_in(rest)?;
    let (width, rest) = word_in(rest)?;
    let (boxes, rest) = word_in(rest)?;
    let (lane, rest) = short_in(rest)?;
    let front = Front {
        first_serial,
        seed,
        width,
        boxes,
        lane,
    };
    Some((front, rest))
}

fn raw_in(bytes: &[u8]) -> Option<RawOpening<'_>>
    ensures some { IfSome result (λ r. bytes.now ≡ opening_record (raw_opening r)) }
    ensures shape { IfSome result (λ r. HasShape (raw_opening r)) }
    ensures none { IsNone result → (o : Opening) → HasShape o → bytes.now ≡ opening_record o → ⊥ }
{
    let [48, rest @ ..] = bytes else {
        return None;
    };
    let (front, rest) = front_in(rest)?;
    let (leader_key, rest) = key_in(rest)?;
    let (helper_key, rest) = key_in(rest)?;
    let (leader, helper) = places_in(rest)?;
    Some(RawOpening {
        front,
        leader_key,
        helper_key,
        leader,
        helper,
    })
}

fn is_width(width: u32) -> bool
    ensures { IsTrue result ↔ IsWidth width }
{
    LEAST_WIDTH <= width && width <= MOST_WIDTH && width % 16 == 0
}

impl RawOpening<'_> {
    // Whether the numbers are those of an opening, and the places short enough.
    fn has_numbers(&self) -> bool
        ensures { IsTrue result ↔ HasNumbers (raw_opening self.now) }
    {
        is_width(self.front.width)
            && 1 <= self.front.boxes
            && self.front.boxes <= MOST_BOXES
            && 1 <= self.front.first_serial
            && self.helper.len() <= PLACE_MAX
    }
}

#[tactic(auto, using(crate::proofs::TextLaws::some_text, crate::proofs::TextLaws::no_text))]
fn text_in(bytes: &[u8]) -> Option<&str>
    ensures { MatchOption result (is_utf8 bytes.now ≡ false)
        (λ text. (text.now ≡ bytes.now) × (is_utf8 bytes.now ≡ true)) }
{
    match std::str::from_utf8(bytes) {
        Ok(text) => Some(text),
        Err(_) => None,
    }
}

fn tag_and_serial(first_serial: u32) -> [u8; 5]
    ensures { result ≡ 48 ∷ to_be_bytes w32 first_serial }
{
    let [a, b, c, d] = first_serial.to_be_bytes();
    [48, a, b, c, d]
}

fn pair_numbers(width: u32, boxes: u32, lane: u16) -> [u8; 10]
    ensures { result ≡ to_be_bytes w32 width ++ (to_be_bytes w32 boxes ++ to_be_bytes w16 lane) }
{
    let [a, b, c, d] = width.to_be_bytes();
    let [e, f, g, h] = boxes.to_be_bytes();
    let [i, j] = lane.to_be_bytes();
    [a, b, c, d, e, f, g, h, i, j]
}

impl<'a> LedgerOpening<'a> {
    // What the record has before the keys.
    fn front<'r>(&self, room: &'r mut [u8; RECORD_MAX]) -> &'r [u8]
        ensures { result.now ≡ 48 ∷ front_bytes (front_of (plain_opening self.now)) }
    {
        let first = tag_and_serial(self.first_serial);
        let numbers = pair_numbers(self.width, self.boxes, self.lane);
        put_three(&first, &self.seed, &numbers, room)
    }

    // The keys, and how many bytes the leader's place has.
    fn keys<'r>(&self, room: &'r mut [u8; RECORD_MAX]) -> &'r [u8]
        requires { length self.now.leader.place.now ≤ 255 }
        ensures { result.now ≡ self.now.leader.key.0
            ++ (self.now.helper.key.0 ++ length self.now.leader.place.now ∷ []) }
    {
        let count = self.leader.place.len() as u8;
        put_three(&self.leader.key.0, &self.helper.key.0, &[count], room)
    }

    /// The record: the tag 48, the first serial, the seed, the width, the boxes, the lane, the leader's key,
    /// the helper's, how many bytes the leader's place has, that place and the helper's; numbers big-endian.
    pub fn record<'r>(&self, room: &'r mut [u8; RECORD_MAX]) -> &'r [u8]
        requires { IsOpening (plain_opening self.now) }
        ensures { result.now ≡ opening_record (plain_opening self.now) }
    {
        let mut front = [0; RECORD_MAX];
        let mut keys = [0; RECORD_MAX];
        let mut places = [0; RECORD_MAX];
        let front = self.front(&mut front);
        let keys = self.keys(&mut keys);
        let leader = self.leader.place.as_bytes();
        let places = put(leader, self.helper.place.as_bytes(), &mut places);
        put_three(front, keys, places, room)
    }
}

impl<'a> RawOpening<'a> {
    // The opening with this place of the leader, where that of the helper is a text.
    fn with_leader(&self, leader: &'a str) -> Option<LedgerOpening<'a>>
        requires { leader.now ≡ self.now.leader.now }
        ensures { MatchOption result (is_utf8 self.now.helper.now ≡ false)
            (λ o. (plain_opening o ≡ raw_opening self.now) × (is_utf8 self.now.helper.now ≡ true)) }
    {
        match text_in(self.helper) {
            None => None,
            Some(helper) => Some(LedgerOpening {
                seed: self.front.seed,
                first_serial: self.front.first_serial,
                width: self.front.width,
                boxes: self.front.boxes,
                lane: self.front.lane,
                leader: ServerAt {
                    place: leader,
                    key: Ticket(self.leader_key),
                },
                helper: ServerAt {
                    place: helper,
                    key: Ticket(self.helper_key),
                },
            }),
        }
    }

    // The opening, where its places are texts.
    fn with_texts(&self) -> Option<LedgerOpening<'a>>
        ensures some { IfSome result (λ o. plain_opening o ≡ raw_opening self.now) }
        ensures texts { IfSome result (λ _. HasTexts (raw_opening self.now)) }
        ensures none { IsNone result → HasTexts (raw_opening self.now) → ⊥ }
    {
        match text_in(self.leader) {
            None => None,
            Some(leader) => self.with_leader(leader),
        }
    }
}

impl<'a> LedgerOpening<'a> {
    /// The opening that a record is, if it is one.
    #[tactic(auto, using(crate::proofs::OpeningLaws::an_opening))]
    pub fn of(bytes: &'a [u8]) -> Option<LedgerOpening<'a>>
        ensures some { IfSome result (λ o. IsOpening (plain_opening o)) }
        ensures is { IfSome result (λ o. bytes.now ≡ opening_record (plain_opening o)) }
        ensures none { IsNone result → IsNoOpening bytes.now }
    {
        let Some(raw) = raw_in(bytes) else {
            return None;
        };
        if !raw.has_numbers() {
            return None;
        }
        match raw.with_texts() {
            Some(opening) => Some(opening),
            None => None,
        }
    }
}
