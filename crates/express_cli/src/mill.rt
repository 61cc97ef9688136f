//! Runs the mill's schedule of a number, and says what came of it.
ghost use Rattle.std.specs.Prelude.{◌≡◌, ◌≢◌, ◌≤◌, IfOk, string_bytes};
ghost use Rattle.replay_world.specs.Parts.{journal_in, outcomes_in, value_in};
ghost use Rattle.replay_world.specs.Mills.{is_registered, is_accepted, is_message, outcomes_like};
ghost use Rattle.express_cli.specs.Mills.{opened_in, fold_of, counts_text, mill_lines, mill_text};
ghost use Rattle.express_cli.specs.Ends.{Prints, MillMay};

use crate::End;
use crate::replay::world_after;
use crate::texts::{OUT_OF_MEMORY, say};
use crate::views::number_text;
use express_words::NoMemory;
use express_words::outside::Sink;
use replay_world::{Entry, JournalLine, Outcome, OutcomeLine, Told};
use std::alloc::{AllocError, Global};

fn registered_in(lines: &[OutcomeLine]) -> usize
    ensures { result ≡ outcomes_like is_registered (outcomes_in lines.now) }
{
    lines
        .iter()
        .filter(|line| matches!(line.outcome, Told::Done(Outcome::Registered(_))))
        .count()
}

fn accepted_in(lines: &[OutcomeLine]) -> usize
    ensures { result ≡ outcomes_like is_accepted (outcomes_in lines.now) }
{
    lines
        .iter()
        .filter(|line| matches!(line.outcome, Told::Done(Outcome::Accepted)))
        .count()
}

fn messages_in(lines: &[OutcomeLine]) -> usize
    ensures { result ≡ outcomes_like is_message (outcomes_in lines.now) }
{
    lines
        .iter()
        .filter(|line| matches!(line.outcome, Told::Done(Outcome::Message)))
        .count()
}

// What the leader opens in an audit.
fn opened_in(entry: &Entry) -> u128
    ensures { result ≡ opened_in (value_in entry.now) }
{
    match *entry {
        Entry::Audited(leaders, _, _) => leaders.d,
        _ => 0,
    }
}

// The xor of what the leader opens in all audits.
fn fold_of(lines: &[JournalLine]) -> u128
    ensures { result ≡ fold_of (journal_in lines.now) }
{
    lines
        .iter()
        .fold(0, |fold, line| fold ^ opened_in(&line.entry))
}

// The number, and how many requests came to an outcome of each kind.
#[tactic(auto, unfolding(crate::specs::Mills::counts_text))]
fn counts_text(
    alloc: Global,
    number: u16,
    registered: usize,
    accepted: usize,
    messages: usize,
) -> Result<String, AllocError>
    ensures { IfOk result (λ text. string_bytes text ≡ counts_text number registered accepted messages) }
{
    format!(in alloc;
        "mill {number}\nregistered {registered}\naccepted {accepted}\nmessages {messages}\n"
    )
}

// What these outcomes and this journal come to.
#[tactic(auto, using(crate::proofs::Steps::journal_length), unfolding(crate::specs::Mills::mill_lines))]
fn mill_lines(
    alloc: Global,
    number: u16,
    outcomes: &[OutcomeLine],
    journal: &[JournalLine],
) -> Result<String, AllocError>
    ensures { IfOk result (λ text. string_bytes text ≡ mill_lines number (outcomes_in outcomes.now)
        (journal_in journal.now)) }
{
    let registered = registered_in(outcomes);
    let accepted = accepted_in(outcomes);
    let messages = messages_in(outcomes);
    let counts = counts_text(alloc, number, registered, accepted, messages)?;
    let fold = number_text(alloc, fold_of(journal))?;
    let lines = journal.len();
    format!(in alloc; "{counts}journal {lines}\nfold {fold}\nend\n")
}

// What the mill of a number comes to.
#[tactic(auto, unfolding(crate::specs::Mills::mill_text))]
fn mill_text(alloc: Global, number: u16) -> Result<String, NoMemory>
    requires { number ≤ 5000 }
    ensures { IfOk result (λ text. string_bytes text ≡ mill_text number) }
{
    let schedule = schedule_text::mill(alloc, number)?;
    let world = world_after(alloc, &schedule)?;
    drop(schedule);
    let text = mill_lines(alloc, number, world.outcomes(), world.journal());
    drop(world);
    Ok(text?)
}

/// Runs the mill's schedule of a number, and says what came of it.
#[tactic(auto, using(crate::proofs::Writing::said))]
pub fn mill<K: Sink>(alloc: Global, number: u16, out: &mut K) -> End
    requires { number ≤ 5000 }
    ensures ends { Prints (MillMay number)
        (K.seen out.old) (K.seen out.new) result }
{
    match mill_text(alloc, number) {
        Err(_) => say(out, OUT_OF_MEMORY, End::OutOfMemory),
        Ok(text) => say(out, text.as_str(), End::Done),
    }
}
