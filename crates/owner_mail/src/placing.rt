//! Which addresses stand on the card of a name, and what its boxes held, by their places on it.
ghost use Rattle.std.specs.Prelude.{◌≡◌, ◌<◌, ◌≤◌, IfOk, IfSome, length};
ghost use Rattle.std.specs.List.{filter, filter_map, position};
ghost use Rattle.letter_reader.specs.Reader.{AreBoxes};
ghost use Rattle.kept_ledger.specs.Standings.{addresses_in, named_boxes, readings_of};
ghost use Rattle.owner_mail.specs.Places.{box_readings, card_addresses, has_box, has_box_at, is_at, placed};
ghost use Rattle.owner_mail.specs.Places.{placed_at};

use express_words::NoMemory;
use kept_ledger::{Ledger, Reading, Standing};
use letter_pieces::MOST_ADDRESSES;
use letter_reader::Reading as BoxReading;
use std::alloc::Global;

fn has_box(standing: Standing) -> bool
    ensures { result ≡ has_box standing }
{
    matches!(standing, Standing::Live | Standing::Retired)
}

fn has_box_at(ledger: &Ledger, address: u128) -> bool
    ensures { result ≡ has_box_at ledger.now.state address }
{
    has_box(ledger.standing_of(address))
}

// The addresses of a name, none where it isn't there.
fn addresses_in<'a>(ledger: &'a Ledger, name: &str) -> &'a [u128]
    ensures { result.now ≡ addresses_in (named_boxes ledger.now.state.named name.now) }
{
    match ledger.named_boxes(name) {
        Some(named) => named.addresses.as_slice(),
        None => &[],
    }
}

// Those of them that got a box.
fn boxed_addresses(alloc: Global, ledger: &Ledger, name: &str) -> Result<Vec<u128>, NoMemory>
    ensures { IfOk result (λ found. found.items
        ≡ filter (has_box_at ledger.now.state) (addresses_in (named_boxes ledger.now.state.named name.now))) }
{
    let mut found = Vec::new(alloc);
    let mut rest = addresses_in(ledger, name);
    while let [address, behind @ ..] = rest {
        if has_box_at(ledger, *address) {
            found.push(*address)?;
        }
        rest = behind;
    }
    Ok(found)
}

/// The addresses that stand on the card of a name: those that got a box, also where it is retired by now, in
/// the order of the name's addresses.
pub fn card_addresses(alloc: Global, ledger: &Ledger, name: &str) -> Result<Vec<u128>, NoMemory>
    ensures addresses { IfOk result (λ found. found.items ≡ card_addresses ledger.now.state name.now) }
    ensures few { IfOk result (λ found. length found.items ≤ 64) }
{
    let mut found = boxed_addresses(alloc, ledger, name)?;
    found.truncate(MOST_ADDRESSES);
    Ok(found)
}

// The place of an address on a card.
fn place_of(card: &[u128], address: u128) -> Option<usize>
    ensures place { result ≡ position (is_at address) card.now }
    ensures within { IfSome result (λ place. place < length card.now) }
{
    card.iter().position(|one| *one == address)
}

// What the box at this place of a card held, if it is as wide as the card's boxes.
fn placed_at<'a>(width: u32, reading: &'a Reading, place: Option<usize>) -> Option<BoxReading<'a>>
    requires few { IfSome place (λ place. place < 64) }
    ensures { result ≡ placed_at width reading.now place }
{
    let place = place?;
    if reading.bytes.as_slice().len() != width as usize {
        return None;
    }
    Some(BoxReading {
        address: place as u8,
        bytes: reading.bytes.as_slice(),
    })
}

// What a box held, by the place of its address on a card.
fn placed<'a>(card: &[u128], width: u32, reading: &'a Reading) -> Option<BoxReading<'a>>
    requires few { length card.now ≤ 64 }
    ensures { result ≡ placed card.now width reading.now }
{
    placed_at(width, reading, place_of(card, reading.address))
}

/// What the boxes with a name held, by their places on its card. Each reading of them has one: a box is read
/// once it was got, and its address stays on the card. One that an earlier ledger told of another width isn't
/// any of this card's boxes.
#[tactic(auto, using(crate::proofs::PlaceLaws::readings_are_wide))]
pub(crate) fn box_readings<'a>(
    alloc: Global,
    ledger: &'a Ledger,
    name: &str,
    card: &[u128],
) -> Result<Vec<BoxReading<'a>>, NoMemory>
    requires card { card.now ≡ card_addresses ledger.now.state name.now }
    requires few { length card.now ≤ 64 }
    ensures readings { IfOk result (λ found. found.items ≡ box_readings ledger.now.state name.now) }
    ensures wide { IfOk result (λ found. AreBoxes ledger.now.state.pair.width found.items) }
{
    let readings = ledger.readings_of(alloc, name)?;
    let width = ledger.pair().width;
    let mut found = Vec::new(alloc);
    let mut rest = readings.as_slice();
    while let [reading, behind @ ..] = rest {
        if let Some(there) = placed(card, width, reading) {
            found.push(there)?;
        }
        rest = behind;
    }
    Ok(found)
}
