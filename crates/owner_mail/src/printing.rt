//! A text that is printed.
ghost use Rattle.std.specs.Prelude.{IfErr, OnErr, OnOk};
ghost use Rattle.express_words.specs.Streams.{Took, TookPrefix};
ghost use Rattle.desk_around.specs.Ends.{IsUndone, Unfailed};

use desk_around::Trouble;
use express_words::outside::Sink;

/// Prints a text. Where the output fails it has taken a first part of it.
pub(crate) fn put<'a, K: Sink>(out: &mut K, text: &str) -> Result<(), Trouble<'a>>
    ensures took { OnOk result (Took (K.seen out.old).written (K.seen out.new).written text.now) }
    ensures first { OnErr result (TookPrefix (K.seen out.old).written (K.seen out.new).written text.now) }
    ensures undone { IfErr result IsUndone }
    ensures sink { Unfailed (K.seen out.old).faults (K.seen out.new).faults result }
{
    match out.put(text.as_bytes()) {
        Ok(()) => Ok(()),
        Err(_) => Err(Trouble::Out),
    }
}
