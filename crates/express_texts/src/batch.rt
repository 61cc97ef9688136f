//! The text of a batch: the closings of many writes at both servers, and the seed by which they are judged.
ghost use Rattle.std.specs.Prelude.{◌≡◌, ℕ, ◌≤◌, List as Listed, length, IfOk, Some, Ok, Err, option_map};
ghost use Rattle.express_texts.specs.Batch.{Batch, closing_at, pair_of, header_of, header_then, batch_of};
ghost use Rattle.express_texts.specs.Lines.{lines_of};
ghost use Rattle.express_texts.specs.Judging.{Gives, Judges, batch_in};
ghost use Rattle.express_texts.specs.Spelling.{SpellsBatch, IsFirstBadLine};

use crate::digits::{seed_of, word_at};
use crate::fault::TextFault;
use crate::text_lines::first_line;
use crate::words::after;
use express_words::{Closing, List};
use std::alloc::Global;

/// A batch has at most so many pairs.
pub const MOST_PAIRS: usize = 20_000;

/// The closings of both servers, write by write, and the seed by which they are judged.
#[derive(Drop)]
pub struct BatchPairs {
    /// What their judging is drawn from.
    pub seed: [u8; 32],
    /// Server 0's closings.
    pub zero: List<Closing>,
    /// Server 1's closings, as many.
    pub one: List<Closing>,
}

// A closing at the front, and what follows it.
#[tactic(auto, unfolding(crate::specs::Batch::closing_at))]
fn closing_at(bytes: &[u8]) -> Option<(Closing, &[u8])>
    ensures { option_map (λ r. (r.0, r.1.now)) result ≡ closing_at bytes.now }
{
    let (o, rest) = word_at(bytes)?;
    let rest = after(b" ", rest)?;
    let (tau, rest) = word_at(rest)?;
    Some((Closing { o, tau }, rest))
}

// The closings of both servers that a line spells.
#[tactic(auto, unfolding(crate::specs::Batch::pair_of))]
fn pair_of(line: &[u8]) -> Option<(Closing, Closing)>
    ensures { result ≡ pair_of line.now }
{
    let rest = after(b"pair ", line)?;
    let (zero, rest) = closing_at(rest)?;
    let rest = after(b" ", rest)?;
    let (one, rest) = closing_at(rest)?;
    if rest.is_empty() {
        Some((zero, one))
    } else {
        None
    }
}

// The seed that the first line spells.
#[tactic(auto, unfolding(crate::specs::Batch::header_of))]
fn header_of(line: &[u8]) -> Option<[u8; 32]>
    ensures { result ≡ header_of line.now }
{
    let digits = after(b"batch 1 ", line)?;
    seed_of(digits)
}

// The pairs of all lines behind the first, which has this seed.
fn read_pairs(alloc: Global, seed: [u8; 32], text: &[u8]) -> Result<BatchPairs, TextFault>
    ensures { Gives batch_in result (header_then (Some seed) (lines_of text.now)) }
{
    let mut zero = Vec::new(alloc);
    let mut one = Vec::new(alloc);
    let mut rest = text;
    while !rest.is_empty() {
        let bad = TextFault::Wrong(zero.len() as u32 + 2);
        let (line, behind) = first_line(rest);
        if zero.len() == MOST_PAIRS {
            return Err(bad);
        }
        let Some(pair) = pair_of(line) else {
            return Err(bad);
        };
        zero.push(pair.0)?;
        one.push(pair.1)?;
        rest = behind;
    }
    Ok(BatchPairs {
        seed,
        zero: List::from_vec(zero),
        one: List::from_vec(one),
    })
}

#[tactic(auto, unfolding(crate::specs::Batch::batch_of_lines, crate::specs::Lines::lines_of))]
fn read_text(alloc: Global, text: &[u8]) -> Result<BatchPairs, TextFault>
    ensures { Gives batch_in result (batch_of text.now) }
{
    if text.is_empty() {
        return Err(TextFault::Wrong(1));
    }
    let (line, rest) = first_line(text);
    match header_of(line) {
        None => Err(TextFault::Wrong(1)),
        Some(seed) => read_pairs(alloc, seed, rest),
    }
}

/// The batch that the text spells, or its first bad line. A batch is a line `batch 1 SEED`, and then 0 to
/// 20,000 lines `pair O0 T0 O1 T1`, each ended by LF, which the last may lack.
pub fn read_batch(alloc: Global, text: &[u8]) -> Result<BatchPairs, TextFault>
    ensures judges { Judges text.now result }
    ensures batch { Gives batch_in result (batch_of text.now) }
    ensures few { IfOk result (λ pairs. length pairs.zero ≤ 20000) }
    ensures as_many { IfOk result (λ pairs. length pairs.one ≡ length pairs.zero) }
{
    read_text(alloc, text)
}

/// A text is read as a batch exactly where it spells it, and refused at a line exactly where that is its
/// first bad one.
pub fn batch_is_read_exactly()
    ensures found { (text : Listed ℕ) (batch : Batch) → batch_of text ≡ Ok batch → SpellsBatch batch text }
    ensures only { (text : Listed ℕ) (batch : Batch) → SpellsBatch batch text → batch_of text ≡ Ok batch }
    ensures bad { (text : Listed ℕ) (n : ℕ) → batch_of text ≡ Err n → IsFirstBadLine n text }
    ensures only_bad { (text : Listed ℕ) (n : ℕ) → IsFirstBadLine n text → batch_of text ≡ Err n }
{}
