//! A reading that some of the known pieces open.
ghost use Rattle.std.specs.Prelude.{◌≡◌, ◌<◌, ◌≤◌, ◌↔◌, false, All, IfOk, OnOk, IsTrue, length};
ghost use Rattle.std.specs.List.{Contains};
ghost use Rattle.subset_search.specs.Subsets.{added, boxes_at, chosen_below, HasNone};
ghost use Rattle.known_pieces.specs.Telling.{bytes_of, IsEmpty, IsTried};
ghost use Rattle.known_pieces.specs.Opening.{IsFound, Opens};
ghost use Rattle.letter_reader.specs.Reader.{AreApart};

use crate::admitting::admit;
use crate::candidates::{MOST_TRIED, awaited_at, newest};
use crate::found::mark;
use crate::reading::{Card, KnownPiece, Reading};
use express_words::NoMemory;
use letter_pieces::read_piece;
use std::alloc::Global;
use subset_search::{Target, find_subset};

// What is sought: nothing is left, or a piece that is none of those that are tried.
#[derive(Drop)]
struct News<'a> {
    known: &'a [KnownPiece],
    tried: &'a [usize],
    ghost known_ones: { All (λ i. i < length known.now) tried.now },
}

impl Target for News<'_> {
    ghost IsMet = { λ news sum. IsFound (boxes_at (bytes_of news.known.now) news.tried.now) sum };

    fn is_met(&self, sum: &[u8]) -> bool {
        is_empty(sum) || (read_piece(sum).is_some() && !is_tried(self.known, self.tried, sum))
    }
}

fn is_empty(bytes: &[u8]) -> bool
    ensures { IsTrue result ↔ IsEmpty bytes.now }
{
    bytes.iter().all(|b| *b == 0)
}

fn is_tried(known: &[KnownPiece], tried: &[usize], bytes: &[u8]) -> bool
    requires { All (λ i. i < length known.now) tried.now }
    ensures { IsTrue result ↔ Contains (boxes_at (bytes_of known.now) tried.now) bytes.now }
{
    for i in tried {
        if known[*i].is_of(bytes) {
            return true;
        }
    }
    false
}

// Takes out of a sum what is found in it of the pieces that are tried, and notes in `chosen` which they are.
fn take_out(known: &[KnownPiece], tried: &[usize], sum: &mut [u8], chosen: &mut [bool]) -> bool
    requires known { All (λ i. i < length known.now) tried.now }
    requires wide { All (λ p. length p.bytes ≡ length sum.old) known.now }
    requires room { length tried.now ≤ length chosen.old }
    ensures found { IsTrue result → IsFound (boxes_at (bytes_of known.now) tried.now) sum.new }
    ensures added { IsTrue result → sum.new ≡ added sum.old
        (chosen_below (length tried.now) (boxes_at (bytes_of known.now) tried.now) chosen.new) }
    ensures none { result ≡ false
        → HasNone (IsFound (boxes_at (bytes_of known.now) tried.now)) sum.old
        (boxes_at (bytes_of known.now) tried.now) }
    ensures length { length sum.new ≡ length sum.old }
    ensures chosen { length chosen.new ≡ length chosen.old }
{
    let news = News { known, tried };
    find_subset(&news, sum, known, tried, chosen)
}

// Opens a reading by some of the known pieces: what is found in it is noted, and a piece that is new is put
// to those that are known.
pub(crate) fn open_reading(
    alloc: Global,
    card: Card,
    reading: &Reading,
    known: &mut Vec<KnownPiece>,
) -> Result<bool, NoMemory>
    requires card { card.addresses ≤ 64 }
    requires wide { length reading.now.bytes ≡ card.width }
    requires apart { AreApart card.width known.old.items }
    ensures opens { IfOk result (λ opened. IsTrue opened
        → Opens card.addresses reading.now known.old.items known.new.items) }
    ensures same { IfOk result (λ opened. opened ≡ false → known.new.items ≡ known.old.items) }
    ensures tried { IfOk result (λ opened. opened ≡ false → IsTried known.old.items reading.now) }
    ensures apart { OnOk result (AreApart card.width known.new.items) }
{
    let awaited = awaited_at(alloc, known.as_slice(), reading.address)?;
    let tried = newest(awaited.as_slice());
    let mut sum = Vec::from_slice(alloc, reading.bytes)?;
    let mut chosen = [false; MOST_TRIED];
    if !take_out(known.as_slice(), tried, sum.as_mut_slice(), &mut chosen) {
        return Ok(false);
    }
    mark(known.as_mut_slice(), reading.address, tried, &chosen);
    admit(card.addresses, reading.address, sum, known)?;
    Ok(true)
}
