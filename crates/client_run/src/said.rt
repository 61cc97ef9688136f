//! What is said of how work ended.
ghost use Rattle.std.specs.Prelude.{◌≡◌, IfOk, string_bytes};
ghost use Rattle.client_run.specs.Saying.{whole_text, said, SaidSo};

use crate::client::end_of;
use crate::cut::{Cut, Untold};
use crate::ran::{Ran, RunEnd};
use crate::texts::end_line;
use express_words::Text;
use std::alloc::{AllocError, Global};

// What is said where all requests came to their ends, with how many parts of a file were sent, if any.
fn whole_text(alloc: Global, sent: Option<usize>) -> Result<String, AllocError>
    ensures { IfOk result (λ text. string_bytes text ≡ whole_text sent) }
{
    match sent {
        Some(parts) => format!(in alloc; "sent {parts}\nend\n"),
        None => format!(in alloc; "end\n"),
    }
}

fn ran(text: String, end: RunEnd) -> Ran
    ensures text { result.text ≡ string_bytes text }
    ensures end { result.end ≡ end }
{
    Ran {
        text: Text::from_string(text),
        end,
    }
}

/// The last text of work that was told as it went and ended so, if it finds memory.
pub fn said(alloc: Global, sent: Option<usize>, end: Result<(), Cut>) -> Result<Ran, Untold>
    ensures { SaidSo (said sent end) result }
{
    match end {
        Ok(()) => Ok(ran(whole_text(alloc, sent)?, RunEnd::Done)),
        Err(Cut::Broken) => Ok(ran(format!(in alloc; "stopped outcome\n")?, RunEnd::Done)),
        Err(Cut::Stopped(why)) => Ok(ran(end_line(alloc, Err(why))?, end_of(Err(why)))),
        Err(Cut::Untold(why)) => Err(why),
    }
}
