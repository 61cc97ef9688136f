//! Judges pairs of closings, and says which are rejected.
ghost use Rattle.std.specs.Prelude.{◌≡◌, ◌≢◌, ◌≤◌, ◌++◌, length, IfOk, OnOk, string_bytes};
ghost use Rattle.express_texts.specs.Judging.{batch_in};
ghost use Rattle.express_cli.specs.Batches.{rejected_lines, batch_text, IsBatchText};
ghost use Rattle.express_cli.specs.Ends.{Prints, WorkMay};
ghost use Rattle.express_cli.specs.declared.words.Command.TheVariants.{Batch};

use crate::End;
use crate::texts::{OUT_OF_MEMORY, say, say_bad_line};
use batch_audit::sort_out;
use express_texts::{BatchPairs, TextFault, read_batch};
use express_words::NoMemory;
use express_words::outside::Sink;
use std::alloc::{AllocError, Global};

// A line for each rejected pair.
fn add_rejected(alloc: Global, text: &mut String, rejected: &[bool]) -> Result<(), AllocError>
    ensures { OnOk result (string_bytes text.new ≡ string_bytes text.old ++ rejected_lines 0 rejected.now) }
{
    for (pair, is_rejected) in rejected.iter().enumerate() {
        if *is_rejected {
            text.push_str(format!(in alloc; "rejected {pair}\n")?.as_str())?;
        }
    }
    Ok(())
}

// What a sort with this outcome writes.
#[tactic(auto, unfolding(crate::specs::Batches::batch_text))]
fn text_of(alloc: Global, rejected: &[bool], judged: u32) -> Result<String, AllocError>
    ensures { IfOk result (λ text. string_bytes text ≡ batch_text rejected.now judged) }
{
    let mut text = String::new(alloc);
    add_rejected(alloc, &mut text, rejected)?;
    let accepted = rejected.iter().filter(|is_rejected| !**is_rejected).count();
    let counts = format!(in alloc; "accepted {accepted}\njudged {judged}\nend\n")?;
    text.push_str(counts.as_str())?;
    Ok(text)
}

// The text of the pairs' sort.
fn batch_text(alloc: Global, pairs: &BatchPairs) -> Result<String, NoMemory>
    requires few { length pairs.now.zero ≤ 20000 }
    requires as_many { length pairs.now.one ≡ length pairs.now.zero }
    ensures { IfOk result (λ text. IsBatchText (batch_in pairs.now) (string_bytes text)) }
{
    let zero = pairs.zero.as_slice();
    let one = pairs.one.as_slice();
    let mut rejected = vec![in alloc; false; zero.len()]?;
    let judged = sort_out(zero, one, &pairs.seed, &mut rejected);
    let text = text_of(alloc, &rejected, judged)?;
    Ok(text)
}

/// Judges the pairs of closings that the text spells.
#[tactic(auto, using(crate::proofs::Writing::said))]
pub fn batch<K: Sink>(alloc: Global, text: &[u8], out: &mut K) -> End
    ensures ends { Prints (WorkMay Batch text.now)
        (K.seen out.old) (K.seen out.new) result }
{
    let pairs = match read_batch(alloc, text) {
        Ok(pairs) => pairs,
        Err(TextFault::Wrong(line)) => return say_bad_line(alloc, out, line),
        Err(_) => return say(out, OUT_OF_MEMORY, End::OutOfMemory),
    };
    match batch_text(alloc, &pairs) {
        Err(_) => say(out, OUT_OF_MEMORY, End::OutOfMemory),
        Ok(text) => say(out, text.as_str(), End::Done),
    }
}
