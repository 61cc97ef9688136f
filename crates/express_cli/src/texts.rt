//! Prints the texts with which a run ends.
ghost use Rattle.std.specs.Prelude.{◌≡◌, ◌≢◌, ◌≤◌, ◌⊎◌, ℕ, List, IfOk, string_bytes};
ghost use Rattle.express_cli.specs.Ends.{Prints, Said, SaidOrWants, BadKeyMay, BadLineMay, FaultMay};

use crate::End;
use express_texts::TextFault;
use express_words::outside::Sink;
use std::alloc::{AllocError, Global};

/// What is told of wrong words. Status 2.
pub const USAGE: &str =
    "usage: express replay, serve, client, cloak, carry, batch or mill NUMBER\n";

/// The source failed before the input's end. Status 4.
pub const READ_FAULT: &str = "read fault\n";

/// An allocation failed. Status 7.
pub const OUT_OF_MEMORY: &str = "out of memory\n";

/// The input is longer than is taken. Status 8.
pub const TOO_LONG: &str = "input too long\n";

/// A server's door is open.
pub const LISTENING: &str = "listening\n";

/// A call of the net failed. Status 6.
pub const NET_FAULT: &str = "net fault\n";

/// Prints a text and comes to this end, or to a fault of the sink.
pub fn say<K: Sink>(out: &mut K, text: &str, end: End) -> End
    requires { end ≢ End.WriteFault }
    ensures says { Prints (Said end text.now) (K.seen out.old) (K.seen out.new) result }
    ensures only { (result ≡ end) ⊎ (result ≡ End.WriteFault) }
{
    match out.put(text.as_bytes()) {
        Ok(()) => end,
        Err(_) => End::WriteFault,
    }
}

/// Says a line and comes to this end, unless memory was wanting for it.
pub fn say_line<K: Sink>(out: &mut K, line: Result<String, AllocError>, end: End) -> End
    requires { end ≢ End.WriteFault }
    ensures says { (text : List ℕ) → IfOk line (λ l. string_bytes l ≡ text)
        → Prints (SaidOrWants end text) (K.seen out.old) (K.seen out.new) result }
    ensures only { (result ≡ end) ⊎ ((result ≡ End.OutOfMemory) ⊎ (result ≡ End.WriteFault)) }
{
    match line {
        Ok(line) => say(out, line.as_str(), end),
        Err(_) => say(out, OUT_OF_MEMORY, End::OutOfMemory),
    }
}

/// Says that this line is the first bad one, unless memory is wanting.
pub fn say_bad_line<K: Sink>(alloc: Global, out: &mut K, line: u32) -> End
    ensures says { Prints (BadLineMay line) (K.seen out.old) (K.seen out.new) result }
{
    say_line(
        out,
        format!(in alloc; "bad line {line}\n"),
        End::BadLine(line),
    )
}

/// Says that this key is missing or wrong, unless memory is wanting.
pub fn say_bad_key<K: Sink>(alloc: Global, out: &mut K, key: &str) -> End
    ensures says { Prints (BadKeyMay key.now) (K.seen out.old) (K.seen out.new) result }
{
    say_line(out, format!(in alloc; "bad settings {key}\n"), End::BadKey)
}

/// Says what is wrong with a text, unless memory is wanting.
pub fn say_fault<K: Sink>(alloc: Global, out: &mut K, fault: TextFault) -> End
    ensures says { Prints (FaultMay fault) (K.seen out.old) (K.seen out.new) result }
{
    match fault {
        TextFault::Wrong(line) => say_bad_line(alloc, out, line),
        TextFault::WrongKey(key) => say_bad_key(alloc, out, key.as_str()),
        TextFault::NoMemory => say(out, OUT_OF_MEMORY, End::OutOfMemory),
    }
}
