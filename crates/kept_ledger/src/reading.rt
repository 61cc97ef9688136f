//! Records read as notes.
ghost use Rattle.std.specs.Prelude.{◌≡◌, ◌≢◌, ◌∷◌, ◌++◌, ◌≤◌, ◌<◌, ◌^◌, IsNone, IfSome, MatchOption, length};
ghost use Rattle.std.specs.Prelude.{true};
ghost use Rattle.desk_texts.specs.Days.{IsDay};
ghost use Rattle.kept_ledger.specs.Names.{is_name};
ghost use Rattle.kept_ledger.specs.Notes.{IsNote, IsWanted, day_bytes, denial_byte, denied_bytes};
ghost use Rattle.kept_ledger.specs.Notes.{handling_tag, marked_bytes, named_bytes, note_record, own_bytes};
ghost use Rattle.kept_ledger.specs.Notes.{plain_note, plain_reading, plain_wanted, reading_bytes};
ghost use Rattle.kept_ledger.specs.Notes.{task_record, wanted_bytes};
ghost use Rattle.kept_ledger.specs.Records.{IsNoClosed, IsNoNamed, IsNoNote, IsNoWanted};
ghost use Rattle.kept_ledger.specs.declared.entry.Denied.{Denied};
ghost use Rattle.kept_ledger.specs.declared.entry.Marked.{Marked};
ghost use Rattle.kept_ledger.specs.declared.entry.OwnBox.{OwnBox};
ghost use Rattle.kept_ledger.specs.declared.entry.Reading.{Reading};

use crate::digits::addresses_in;
use crate::entry::{Denial, Denied, Handling, LetterMark, Marked, OwnBox};
use crate::note::{CarriedReading, ClosedName, LedgerNote, MOST_AT_ONCE, WantedBoxes};
use crate::parts::{
    day_in, long_in, name_in, only_address, only_long, only_word, until_in, word_in,
};
use crate::task::Task;
use desk_texts::Day;

// So many addresses, and a name, with this last day of their card.
#[tactic(auto, using(crate::proofs::NamedLaws::none_zero, crate::proofs::NamedLaws::none_many, crate::proofs::NamedLaws::none_short))]
fn wanted_of<'a>(
    count: u8,
    rest: &'a [u8],
    until: Option<Day>,
    room: &'a mut [u128; MOST_AT_ONCE],
) -> Option<WantedBoxes<'a>>
    requires { IfSome until IsDay }
    ensures is { MatchOption result (IsNoNamed (count ∷ rest.now))
        (λ w. IsWanted (plain_wanted w) × (count ∷ rest.now ≡ named_bytes (plain_wanted w))) }
    ensures until { IfSome result (λ w. w.until ≡ until) }
{
    let used = usize::from(count) * 16;
    if count == 0 {
        return None;
    }
    if count > 64 {
        return None;
    }
    if rest.len() < used {
        return None;
    }
    let (front, behind) = rest.split_at(used);
    match name_in(behind) {
        Some(name) => Some(WantedBoxes {
            name,
            addresses: addresses_in(front, room),
            until,
        }),
        None => None,
    }
}

fn named_in<'a>(
    bytes: &'a [u8],
    until: Option<Day>,
    room: &'a mut [u128; MOST_AT_ONCE],
) -> Option<WantedBoxes<'a>>
    requires { IfSome until IsDay }
    ensures is { MatchOption result (IsNoNamed bytes.now)
        (λ w. IsWanted (plain_wanted w) × (bytes.now ≡ named_bytes (plain_wanted w))) }
    ensures until { IfSome result (λ w. w.until ≡ until) }
{
    match bytes {
        [count, rest @ ..] => wanted_of(*count, rest, until, room),
        [] => None,
    }
}

// The last day of a card, and its boxes.
#[tactic(auto, using(crate::proofs::PartLaws::none_without_day, crate::proofs::PartLaws::none_behind))]
fn wanted_in<'a>(bytes: &'a [u8], room: &'a mut [u128; MOST_AT_ONCE]) -> Option<WantedBoxes<'a>>
    ensures { MatchOption result (IsNoWanted bytes.now)
        (λ w. IsWanted (plain_wanted w) × (bytes.now ≡ wanted_bytes (plain_wanted w))) }
{
    match until_in(bytes) {
        Some((until, rest)) => named_in(rest, until, room),
        None => None,
    }
}

#[tactic(auto, using(crate::proofs::PartLaws::open_without_day, crate::proofs::PartLaws::open_unnamed))]
fn closed_in(bytes: &[u8]) -> Option<ClosedName<'_>>
    ensures { MatchOption result (IsNoClosed bytes.now) (λ c. (is_name c.name.now ≡ true) × IsDay c.day
        × (bytes.now ≡ day_bytes c.day ++ c.name.now)) }
{
    let Some((day, rest)) = day_in(bytes) else {
        return None;
    };
    match name_in(rest) {
        Some(name) => Some(ClosedName { name, day }),
        None => None,
    }
}

fn marked_in(handling: Handling, bytes: &[u8]) -> Option<Marked>
    ensures some { IfSome result (λ m. bytes.now ≡ marked_bytes m) }
    ensures handling { IfSome result (λ m. m.handling ≡ handling) }
    ensures fits { IfSome result (λ m. (m.mark.id < 2 ^ 64) × (m.seconds < 2 ^ 64)) }
    ensures none { IsNone result → length bytes.now ≡ 17 → ⊥ }
{
    let (id, rest) = long_in(bytes)?;
    let [parts, rest @ ..] = rest else {
        return None;
    };
    let seconds = only_long(rest)?;
    let mark = LetterMark { id, parts: *parts };
    Some(Marked {
        mark,
        handling,
        seconds,
    })
}

fn own_in(bytes: &[u8]) -> Option<OwnBox>
    ensures some { IfSome result (λ b. bytes.now ≡ own_bytes b) }
    ensures fits { IfSome result (λ b. (b.number < 2 ^ 32) × (b.serial < 2 ^ 32) × (b.address < 2 ^ 128)) }
    ensures none { IsNone result → length bytes.now ≡ 24 → ⊥ }
{
    let (number, rest) = word_in(bytes)?;
    let (serial, rest) = word_in(rest)?;
    let address = only_address(rest)?;
    Some(OwnBox {
        number,
        serial,
        address,
    })
}

fn denial_in(byte: u8) -> Option<Denial>
    ensures { MatchOption result ((byte ≢ 0) × (byte ≢ 1) × (byte ≢ 2))
        (λ denial. byte ≡ denial_byte denial) }
{
    match byte {
        0 => Some(Denial::Taken),
        1 => Some(Denial::Full),
        2 => Some(Denial::Retired),
        _ => None,
    }
}

fn denied_in(bytes: &[u8]) -> Option<Denied>
    ensures some { IfSome result (λ d. bytes.now ≡ denied_bytes d) }
    ensures fits { IfSome result (λ d. d.address < 2 ^ 128) }
    ensures none { IsNone result → (d : Denied) → bytes.now ≡ denied_bytes d → ⊥ }
{
    let [denial, rest @ ..] = bytes else {
        return None;
    };
    let denial = denial_in(*denial)?;
    let address = only_address(rest)?;
    Some(Denied { address, denial })
}

fn carried_in(bytes: &[u8]) -> Option<CarriedReading<'_>>
    ensures some { IfSome result (λ r. bytes.now ≡ reading_bytes (plain_reading r)) }
    ensures fits { IfSome result (λ r. (r.seconds < 2 ^ 64) × (r.address < 2 ^ 128)) }
    ensures none { IsNone result → length bytes.now < 24 }
{
    let (seconds, rest) = long_in(bytes)?;
    if rest.len() < 16 {
        return None;
    }
    let (front, bytes) = rest.split_at(16);
    let address = only_address(front)?;
    Some(CarriedReading {
        address,
        seconds,
        bytes,
    })
}

fn task_in(tag: u8, rest: &[u8]) -> Option<Task>
    ensures some { IfSome result (λ t. IsNote (plain_note (LedgerNote.Asked t))) }
    ensures is { IfSome result (λ t. tag ∷ rest.now ≡ task_record t) }
    ensures none { IsNone result → (t : Task) → tag ∷ rest.now ≡ task_record t → ⊥ }
{
    match tag {
        54 => Some(Task::Register(only_address(rest)?)),
        55 => Some(Task::Read(only_word(rest)?)),
        56 => Some(Task::Retire(only_word(rest)?)),
        _ => None,
    }
}

// The note of this tag, of those that an earlier ledger tells.
fn earlier_in(tag: u8, rest: &[u8]) -> Option<LedgerNote<'_>>
    ensures some { IfSome result (λ n. IsNote (plain_note n)) }
    ensures is { IfSome result (λ n. tag ∷ rest.now ≡ note_record (plain_note n)) }
    ensures none { IsNone result → 60 ≤ tag → IsNoNote (tag ∷ rest.now) }
{
    match tag {
        60 => Some(LedgerNote::Owned(own_in(rest)?)),
        61 => Some(LedgerNote::Denied(denied_in(rest)?)),
        62 => Some(LedgerNote::Carried(carried_in(rest)?)),
        _ => None,
    }
}

// The note of this tag, of those that have neither an address nor a name.
fn note_in(tag: u8, rest: &[u8]) -> Option<LedgerNote<'_>>
    ensures some { IfSome result (λ n. IsNote (plain_note n)) }
    ensures is { IfSome result (λ n. tag ∷ rest.now ≡ note_record (plain_note n)) }
    ensures none { IsNone result → 52 ≤ tag → IsNoNote (tag ∷ rest.now) }
{
    match tag {
        52 => Some(LedgerNote::Marked(marked_in(Handling::Shown, rest)?)),
        53 => Some(LedgerNote::Marked(marked_in(Handling::Written, rest)?)),
        54 | 55 | 56 => Some(LedgerNote::Asked(task_in(tag, rest)?)),
        57 => Some(LedgerNote::Time(only_long(rest)?)),
        58 => Some(LedgerNote::Heard(rest)),
        59 if rest.is_empty() => Some(LedgerNote::GivenUp),
        _ => earlier_in(tag, rest),
    }
}

impl<'a> LedgerNote<'a> {
    /// The note that a record is, if it is one. The addresses of a name are put into the room.
    pub fn of(bytes: &'a [u8], room: &'a mut [u128; MOST_AT_ONCE]) -> Option<LedgerNote<'a>>
        ensures some { IfSome result (λ n. IsNote (plain_note n)) }
        ensures is { IfSome result (λ n. bytes.now ≡ note_record (plain_note n)) }
        ensures none { IsNone result → IsNoNote bytes.now }
    {
        let (tag, rest) = bytes.split_first()?;
        match *tag {
            49 => Some(LedgerNote::Named(wanted_in(rest, room)?)),
            50 => Some(LedgerNote::Closed(closed_in(rest)?)),
            51 => Some(LedgerNote::Retiring(name_in(rest)?)),
            _ => note_in(*tag, rest),
        }
    }
}
