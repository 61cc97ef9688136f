//! An answer is read of a source.
ghost use Rattle.std.specs.Prelude.{◌≡◌, ◌≢◌, ◌≤◌, length, take};
ghost use Rattle.express_words.specs.Causes.{Rose};
ghost use Rattle.express_words.specs.Streams.{Gave, IsAtEnd};
ghost use Rattle.door_exchange.specs.Taking.{EndsBy, IsWanted};

use express_words::outside::Source;
use http_door::limits::{BODY_MAX, HEAD_MAX};
use http_door::{Path, ReplyFault, read_reply};

/// The most bytes of a request or an answer: a head and a body.
pub const MESSAGE_MAX: usize = HEAD_MAX + BODY_MAX;

/// How reading an answer ended.
#[derive(Clone, Copy, Debug, PartialEq, Eq)]
pub enum Reading {
    /// What was taken begins with an answer of the door's.
    Whole,
    /// What was taken is known to begin with none.
    Wrong(ReplyFault),
    /// The source ended before either.
    Ended,
    /// The source failed before either.
    Failed,
}

/// Takes bytes into the front of `came` until they begin with an answer to what was asked at this path, or
/// are known not to. Gives how many were taken.
pub fn read_answer<S: Source>(source: &mut S, path: Path, came: &mut [u8]) -> (usize, Reading)
    requires room { 12358 ≤ length came.old }
    ensures within { result.0 ≤ 12358 }
    ensures length { length came.new ≡ length came.old }
    ensures gave { Gave (S.seen source.old).content (S.seen source.new).content (take result.0 came.new) }
    ensures wanted { IsWanted path (take result.0 came.new) }
    ensures ends { EndsBy path result.1 (take result.0 came.new) }
    ensures end { result.1 ≡ Reading.Ended → IsAtEnd (S.seen source.new).content }
    ensures cause { result.1 ≡ Reading.Failed → Rose (S.seen source.old).faults (S.seen source.new).faults }
    ensures unfailed { result.1 ≢ Reading.Failed → (S.seen source.new).faults ≡ (S.seen source.old).faults }
    ensures later { (S.seen source.old).faults ≤ (S.seen source.new).faults }
    ensures writes_nothing { (S.seen source.new).written ≡ (S.seen source.old).written }
{
    let mut count = 0;
    'reading: loop {
        match read_reply(path, &came[..count]) {
            Ok(Some(_)) => return (count, Reading::Whole),
            Ok(None) => {}
            Err(fault) => return (count, Reading::Wrong(fault)),
        }
        match source.take(&mut came[count..MESSAGE_MAX]) {
            Err(_) => return (count, Reading::Failed),
            Ok(0) => return (count, Reading::Ended),
            Ok(more) => count += more,
        }
    }
}
