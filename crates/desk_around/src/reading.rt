//! Reads a file to its end.
ghost use Rattle.std.specs.Prelude.{IfErr, IfOk};
ghost use Rattle.desk_around.specs.Ends.{IsUndone};
ghost use Rattle.desk_around.specs.Reading.{IsWholePaper};

use crate::trouble::Trouble;
use desk_outside::Papers;
use input_reading::{InputFault, read_all};
use std::alloc::Global;

/// The bytes of the file at a path, all of them; it has at most 67,108,864.
#[tactic(auto, using(crate::proofs::PaperLaws::whole_paper))]
pub fn paper_at<'a, P: Papers>(
    alloc: Global,
    papers: &mut P,
    path: &'a str,
) -> Result<Vec<u8>, Trouble<'a>>
    ensures whole { IfOk result (λ text. IsWholePaper P.Paper.seen text.items) }
    ensures undone { IfErr result IsUndone }
{
    let Ok(mut paper) = papers.read(path) else {
        return Err(Trouble::Unread(path));
    };
    match read_all(alloc, &mut paper) {
        Ok(bytes) => Ok(bytes),
        Err(InputFault::NoMemory) => Err(Trouble::NoMemory),
        Err(InputFault::Failed | InputFault::TooLong) => Err(Trouble::Unread(path)),
    }
}
