//! A letter that is noted as told.
ghost use Rattle.std.specs.Prelude.{◌≡◌, IfErr, OnErr, OnOk};
ghost use Rattle.kept_ledger.specs.Ledgers.{marks_with};
ghost use Rattle.desk_around.specs.Ends.{IsCause};
ghost use Rattle.owner_mail.specs.News.{marked};
ghost use Rattle.owner_mail.specs.Telling.{state_of};

use crate::mail::NamedMail;
use crate::marks::mark_of;
use desk_around::{Trouble, unnoted};
use desk_steps::keep_note;
use kept_ledger::{Handling, KeptLedger, LedgerNote, Marked};
use kept_machine::Kept;
use node_journal::Disk;
use told_letters::Letter;

// Notes that a letter was shown or written.
fn note_marked<'a, D: Disk>(
    kept: &mut Kept<KeptLedger, D>,
    marked: Marked,
) -> Result<(), Trouble<'a>>
    ensures noted { OnOk result (state_of kept.new ≡ record (state_of kept.old) {
      marks = marks_with (state_of kept.old).marks marked;
    }) }
    ensures same { OnErr result (state_of kept.new ≡ state_of kept.old) }
    ensures cause { IfErr result IsCause }
{
    match keep_note(kept, &LedgerNote::Marked(marked)) {
        Ok(()) => Ok(()),
        Err(fault) => Err(unnoted(fault)),
    }
}

/// Notes that a letter was shown or written, at its moment. Where that isn't kept the ledger stands as it
/// stood.
pub(crate) fn note_told<'a, D: Disk>(
    kept: &mut Kept<KeptLedger, D>,
    mail: &NamedMail,
    letter: &Letter,
    handling: Handling,
) -> Result<(), Trouble<'a>>
    ensures noted { OnOk result (state_of kept.new ≡ record (state_of kept.old) {
      marks = marks_with (state_of kept.old).marks (marked handling mail.now letter.now);
    }) }
    ensures same { OnErr result (state_of kept.new ≡ state_of kept.old) }
    ensures cause { IfErr result IsCause }
{
    let marked = Marked {
        mark: mark_of(letter),
        handling,
        seconds: mail.seconds,
    };
    note_marked(kept, marked)
}
