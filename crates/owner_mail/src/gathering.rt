//! What a kept ledger has to tell.
ghost use Rattle.std.specs.Prelude.{◌≡◌, ◌==◌, IfOk, length, map, not};
ghost use Rattle.std.specs.List.{list_any};
ghost use Rattle.owner_mail.specs.Mail.{AreMails, is_met};
ghost use Rattle.owner_mail.specs.News.{all_news, plain_news};
ghost use Rattle.owner_mail.specs.Telling.{state_of};

use crate::mail::{NamedMail, has_met, mails_of};
use crate::news::{News, news_in};
use crate::showing::NewsTold;
use express_words::NoMemory;
use kept_ledger::{Handling, KeptLedger};
use kept_machine::Kept;
use node_journal::Disk;
use std::alloc::Global;

/// What the boxes of each name tell.
pub(crate) fn mails_in<D: Disk>(
    alloc: Global,
    kept: &Kept<KeptLedger, D>,
) -> Result<Vec<NamedMail>, NoMemory>
    ensures { IfOk result (λ mails. AreMails (state_of kept.now) mails.items) }
{
    mails_of(alloc, kept.machine().ledger())
}

/// What of that is to be told.
pub(crate) fn due_in<'a, D: Disk>(
    alloc: Global,
    kept: &Kept<KeptLedger, D>,
    mails: &'a [NamedMail],
    handling: Handling,
) -> Result<Vec<News<'a>>, NoMemory>
    ensures { IfOk result (λ news. map plain_news news.items
        ≡ all_news handling (state_of kept.now).marks mails.now) }
{
    news_in(alloc, kept.machine().ledger(), mails, handling)
}

/// What is said of news that were told.
pub(crate) fn news_told(news: &[News<'_>], mails: &[NamedMail]) -> NewsTold
    ensures any { result.any ≡ not (length news.now == 0) }
    ensures met { result.met ≡ list_any is_met mails.now }
{
    NewsTold {
        any: !news.is_empty(),
        met: has_met(mails),
    }
}
