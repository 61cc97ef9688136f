//! Where a try stands, and the record of it.
ghost use Rattle.std.specs.Prelude.{◌≡◌, ℕ, Bool, Option, None, IfSome};
ghost use Rattle.desk_outbox.specs.Places.{bit_of, code_of, first_place, named_bytes, next_place, place_record, is_followed, is_under_way, IsNoted};
ghost use Rattle.desk_tries.specs.declared.sending.Next.{Next as NextOf};
ghost use Rattle.desk_outbox.specs.declared.place.Place.{Place as PlaceOf};

use desk_tries::{LetterEnd, MOST_FURTHER, Next};

/// The bytes of a record.
pub const PLACE_LEN: usize = 10;

/// Where a try stands.
#[derive(Clone, Copy, Debug, PartialEq, Eq)]
pub struct Place {
    /// Which address of the card, counted from 0, is tried first; the others follow in the card's order, and behind
    /// the last the first.
    pub first: u8,
    /// How many addresses were left behind.
    pub address: u8,
    /// How many further tries are left.
    pub further: u8,
    /// Whether the last proof goes out, or has gone.
    pub proof_out: bool,
    /// What is to be done next: `GoOn` while the try is under way. Behind its end, address, further tries and proof are
    /// those with which the next try begins.
    pub next: Next,
    /// The serial that the answer named which ended the try, where that was `stale`.
    pub named: Option<u32>,
}

fn code_of(next: Next) -> u8
    ensures { result ≡ code_of next }
{
    match next {
        Next::GoOn | Next::SameAgain => 0,
        Next::NewTry => 1,
        Next::NextAddress => 2,
        Next::Stop(LetterEnd::Written) => 3,
        Next::Stop(LetterEnd::NotWritten) => 4,
        Next::Stop(LetterEnd::MaybeWritten) => 5,
    }
}

#[tactic(auto, using(crate::proofs::PlaceLaws::few_codes))]
fn next_in(code: u8) -> Option<Next>
    ensures some { IfSome result (λ next. code ≡ code_of next) }
    ensures noted { IfSome result IsNoted }
    ensures none { result ≡ None → (n : NextOf) → IsNoted n → code ≡ code_of n → ⊥ }
{
    match code {
        0 => Some(Next::GoOn),
        1 => Some(Next::NewTry),
        2 => Some(Next::NextAddress),
        3 => Some(Next::Stop(LetterEnd::Written)),
        4 => Some(Next::Stop(LetterEnd::NotWritten)),
        5 => Some(Next::Stop(LetterEnd::MaybeWritten)),
        _ => None,
    }
}

#[tactic(auto, using(crate::proofs::PlaceLaws::few_bits))]
fn bit_in(byte: u8) -> Option<bool>
    ensures some { IfSome result (λ bit. byte ≡ bit_of bit) }
    ensures none { result ≡ None → (bit : Bool) → byte ≡ bit_of bit → ⊥ }
{
    match byte {
        0 => Some(false),
        1 => Some(true),
        _ => None,
    }
}

fn bit_of(bit: bool) -> u8
    ensures { result ≡ bit_of bit }
{
    if bit { 1 } else { 0 }
}

// Whether a serial was named, and which: none is spelled as 0.
fn named_bytes(named: Option<u32>) -> [u8; 5]
    ensures { result ≡ named_bytes named }
{
    match named {
        None => [0; 5],
        Some(serial) => {
            let [a, b, c, d] = serial.to_be_bytes();
            [1, a, b, c, d]
        }
    }
}

fn named_in(bytes: [u8; 5]) -> Option<Option<u32>>
    ensures some { IfSome result (λ named. bytes ≡ named_bytes named) }
    ensures none { result ≡ None → (named : Option ℕ) → bytes ≡ named_bytes named → ⊥ }
{
    let [is_named, a, b, c, d] = bytes;
    match is_named {
        0 if [a, b, c, d] == [0; 4] => Some(None),
        1 => Some(Some(u32::from_be_bytes([a, b, c, d]))),
        _ => None,
    }
}

impl Place {
    /// Where a first try stands, whose first address this is.
    pub fn first_at(first: u8) -> Place
        ensures { result ≡ first_place first }
    {
        Place {
            first,
            address: 0,
            further: MOST_FURTHER,
            proof_out: false,
            next: Next::GoOn,
            named: None,
        }
    }

    /// Where the next try begins, behind one that stands here.
    pub fn next(&self) -> Place
        ensures { result ≡ next_place self.now }
    {
        let mut place = *self;
        place.next = Next::GoOn;
        place.named = None;
        place
    }

    /// The record: a byte each for the first address, those left behind, the further tries, whether the last proof goes
    /// out, what is next, and whether a serial was named; then that serial, big-endian.
    pub fn record(&self) -> [u8; PLACE_LEN]
        ensures { result ≡ place_record self.now }
    {
        let [is_named, a, b, c, d] = named_bytes(self.named);
        [
            self.first,
            self.address,
            self.further,
            bit_of(self.proof_out),
            code_of(self.next),
            is_named,
            a,
            b,
            c,
            d,
        ]
    }

    /// The place that a record tells.
    pub fn of(bytes: &[u8]) -> Option<Place>
        ensures some { IfSome result (λ place. bytes.now ≡ place_record place) }
        ensures noted { IfSome result (λ place. IsNoted place.next) }
        ensures none { result ≡ None → (place : PlaceOf) → IsNoted place.next
            → bytes.now ≡ place_record place → ⊥ }
    {
        let [
            first,
            address,
            further,
            proof_out,
            next,
            is_named,
            a,
            b,
            c,
            d,
        ] = bytes
        else {
            return None;
        };
        let proof_out = bit_in(*proof_out)?;
        let next = next_in(*next)?;
        let named = named_in([*is_named, *a, *b, *c, *d])?;
        Some(Place {
            first: *first,
            address: *address,
            further: *further,
            proof_out,
            next,
            named,
        })
    }

    /// Whether the try has come to no end yet.
    pub fn is_under_way(&self) -> bool
        ensures { result ≡ is_under_way self.now.next }
    {
        matches!(self.next, Next::GoOn)
    }

    /// Whether a new try follows.
    pub fn is_followed(&self) -> bool
        ensures { result ≡ is_followed self.now.next }
    {
        matches!(self.next, Next::NewTry | Next::NextAddress)
    }
}
