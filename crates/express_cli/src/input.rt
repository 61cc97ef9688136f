//! The whole input, or how a run ends without it.
ghost use Rattle.std.specs.Prelude.{◌≡◌, ◌≢◌, ◌≤◌, IfOk, IfErr, OnOk, Err};
ghost use Rattle.input_reading.specs.Reading.{GaveAll};
ghost use Rattle.express_cli.specs.Around.{FailedLast};
ghost use Rattle.express_cli.specs.Ends.{Prints};
ghost use Rattle.express_cli.specs.Runs.{UnreadMay};

use crate::End;
use crate::texts::{OUT_OF_MEMORY, READ_FAULT, TOO_LONG, say};
use express_words::outside::{Sink, Source};
use input_reading::{InputFault, read_all};
use std::alloc::Global;

/// Reads the whole input, of at most 67,108,864 bytes. Where that fails it is told, and how the run ends is given.
#[tactic(auto, using(crate::proofs::Writing::said))]
pub fn input_of<S: Source, K: Sink>(
    alloc: Global,
    input: &mut S,
    out: &mut K,
) -> Result<Vec<u8>, End>
    ensures read { IfOk result (λ text. GaveAll (S.seen input.old).content
        (S.seen input.new).content text.items) }
    ensures unread { IfErr result (λ end. Prints (UnreadMay (S.seen input.old) (S.seen input.new))
        (K.seen out.old) (K.seen out.new) end) }
    ensures rests { OnOk result (out.new ≡ out.old) }
    ensures source { OnOk result ((S.seen input.new).faults ≡ (S.seen input.old).faults) }
    // Nothing is taken after a fault.
    ensures last_take { result ≡ Err End.ReadFault → FailedLast S.seen input.old input.new }
    ensures told { IfErr result (λ end. end ≢ End.ReadFault → end ≢ End.WriteFault
        → (S.seen input.new).faults ≡ (S.seen input.old).faults) }
{
    match read_all(alloc, input) {
        Ok(text) => Ok(text),
        Err(InputFault::Failed) => Err(say(out, READ_FAULT, End::ReadFault)),
        Err(InputFault::TooLong) => Err(say(out, TOO_LONG, End::TooLong)),
        Err(InputFault::NoMemory) => Err(say(out, OUT_OF_MEMORY, End::OutOfMemory)),
    }
}
