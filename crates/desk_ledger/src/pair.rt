//! The pair of servers of a desk.
ghost use Rattle.std.specs.Prelude.{◌≡◌, IfOk, IfErr};
ghost use Rattle.desk_texts.specs.Spelling.{IsPair, SpellsSheet};
ghost use Rattle.desk_ledger.specs.Ledgers.{SaysPair};
ghost use Rattle.desk_ledger.specs.Opening.{IsOfText};

use crate::fault::OpenFault;
use client_restart::KeepFault;
use desk_texts::{Head, PairHead, Sheet, read_sheet};
use express_texts::TextFault;
use express_words::Text;
use node_client::Peers;
use std::alloc::Global;

/// A pair of servers, as its pair file says.
#[derive(Drop)]
pub struct Pair {
    /// The numbers of its first line.
    pub head: PairHead,
    /// Where the leader is reached, as `host:port`.
    pub leader: Text,
    /// Where the helper is reached.
    pub helper: Text,
}

/// The places of a pair's servers.
pub(crate) fn peers(pair: &Pair) -> Peers<'_>
    ensures leader { result.leader.now ≡ pair.now.leader }
    ensures helper { result.helper.now ≡ pair.now.helper }
{
    Peers {
        leader: pair.leader.as_str(),
        helper: pair.helper.as_str(),
    }
}

fn sheet_in(alloc: Global, text: &[u8]) -> Result<Sheet, OpenFault>
    ensures spells { IfOk result (λ sheet. SpellsSheet sheet text.now) }
    ensures fault { IfErr result (IsOfText text.now) }
{
    match read_sheet(alloc, text) {
        Ok(sheet) => Ok(sheet),
        Err(TextFault::Wrong(line)) => Err(OpenFault::BadLine(line)),
        Err(TextFault::WrongKey(_)) => unreachable!(),
        Err(TextFault::NoMemory) => Err(OpenFault::Keep(KeepFault::NoMemory)),
    }
}

/// The pair that a pair file's text says.
pub(crate) fn pair_in(alloc: Global, text: &[u8]) -> Result<Pair, OpenFault>
    ensures says { IfOk result (λ pair. SaysPair pair text.now) }
    ensures is { IfOk result (λ pair. IsPair pair.head) }
    ensures fault { IfErr result (IsOfText text.now) }
{
    let sheet = match sheet_in(alloc, text) {
        Ok(sheet) => sheet,
        Err(fault) => return Err(fault),
    };
    let Sheet {
        head,
        leader,
        helper,
        addresses: _,
    } = sheet;
    match head {
        Head::Pair(head) => Ok(Pair {
            head,
            leader,
            helper,
        }),
        Head::Card(_) => Err(OpenFault::NoPairFile),
    }
}
