//! Bytes are taken of a proxy, and never one more than are wanted.
ghost use Rattle.std.specs.Prelude.{◌≡◌, ◌≤◌, ℕ, List, length, OnOk, IfErr};
ghost use Rattle.express_words.specs.Streams.{Gave};
ghost use Rattle.socks_proxy.specs.Talks.{BreaksOff};

use crate::fault::ProxyFault;
use express_words::outside::Source;

/// Takes bytes until all of `into` is filled.
pub fn hear<S: Source>(source: &mut S, into: &mut [u8]) -> Result<(), ProxyFault>
    ensures whole { OnOk result (Gave (S.seen source.old).content (S.seen source.new).content into.new) }
    ensures refused { IfErr result (BreaksOff (S.seen source.old) (S.seen source.new)) }
    ensures unfailed { OnOk result ((S.seen source.new).faults ≡ (S.seen source.old).faults) }
    ensures later { (S.seen source.old).faults ≤ (S.seen source.new).faults }
    ensures writes_nothing { (S.seen source.new).written ≡ (S.seen source.old).written }
{
    let mut count = 0;
    'hearing: while count < into.len() {
        match source.take(&mut into[count..]) {
            Err(_) => return Err(ProxyFault::Failed),
            Ok(0) => return Err(ProxyFault::Ended),
            Ok(more) => count += more,
        }
    }
    Ok(())
}

/// Takes so many bytes, into the front of `room`.
pub fn hear_some<S: Source>(source: &mut S, room: &mut [u8], count: usize) -> Result<(), ProxyFault>
    requires { count ≤ length room.old }
    ensures whole { OnOk result ((bytes : List ℕ) × (length bytes ≡ count)
        × Gave (S.seen source.old).content (S.seen source.new).content bytes) }
    ensures refused { IfErr result (BreaksOff (S.seen source.old) (S.seen source.new)) }
    ensures unfailed { OnOk result ((S.seen source.new).faults ≡ (S.seen source.old).faults) }
    ensures later { (S.seen source.old).faults ≤ (S.seen source.new).faults }
    ensures writes_nothing { (S.seen source.new).written ≡ (S.seen source.old).written }
{
    match hear(source, &mut room[..count]) {
        Ok(()) => Ok(()),
        Err(why) => Err(why),
    }
}
