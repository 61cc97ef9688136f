//! Texts that are printed.
ghost use Rattle.std.specs.Prelude.{◌≡◌, IfErr, IsTrue, OnOk};
ghost use Rattle.express_words.specs.Streams.{Took};
ghost use Rattle.desk_around.specs.Ends.{IsUndone, Unfailed};

use crate::trouble::Trouble;
use express_words::outside::Sink;
use std::alloc::Global;

/// Prints a text.
pub fn say<'a, K: Sink>(out: &mut K, text: &str) -> Result<(), Trouble<'a>>
    ensures said { OnOk result (Took (K.seen out.old).written (K.seen out.new).written text.now) }
    ensures undone { IfErr result IsUndone }
    ensures sink { Unfailed (K.seen out.old).faults (K.seen out.new).faults result }
{
    say_bytes(out, text.as_bytes())
}

/// Prints bytes.
pub fn say_bytes<'a, K: Sink>(out: &mut K, bytes: &[u8]) -> Result<(), Trouble<'a>>
    ensures said { OnOk result (Took (K.seen out.old).written (K.seen out.new).written bytes.now) }
    ensures failed { IfErr result (λ t. t ≡ Trouble.Out) }
    ensures undone { IfErr result IsUndone }
    ensures sink { Unfailed (K.seen out.old).faults (K.seen out.new).faults result }
{
    match out.put(bytes) {
        Ok(()) => Ok(()),
        Err(_) => Err(Trouble::Out),
    }
}

/// Tells of a trouble, and says whether the output took it.
pub fn tell<K: Sink>(alloc: Global, trouble: &Trouble<'_>, out: &mut K) -> bool
    ensures { IsTrue result → (K.seen out.new).faults ≡ (K.seen out.old).faults }
{
    let Ok(text) = format!(in alloc; "{trouble}") else {
        return false;
    };
    out.put(text.as_bytes()).is_ok()
}
