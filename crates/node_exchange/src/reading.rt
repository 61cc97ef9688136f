//! One frame is read from a source.
ghost use Rattle.std.specs.Prelude.{◌≡◌, ◌≢◌, ◌+◌, ◌<◌, ◌≤◌, length, take, Err};
ghost use Rattle.express_words.specs.Causes.{Rose};
ghost use Rattle.express_words.specs.Streams.{Gave, IsAtEnd};
ghost use Rattle.frame_rules.specs.Gathering.{missing};
ghost use Rattle.frame_rules.specs.Reading.{decoded};
ghost use Rattle.frame_rules.specs.Room.{HasRoom};
ghost use Rattle.node_exchange.specs.Taking.{EndsBy, IsWanted};

use express_words::outside::Source;
use frame_rules::FrameFault;
use wire_frames::decode;

/// How reading one frame ended.
#[derive(Clone, Copy, Debug, PartialEq, Eq)]
pub enum Reading {
    /// What was taken is one frame.
    Whole,
    /// What was taken is known to be none.
    Wrong(FrameFault),
    /// The source ended before either.
    Ended,
    /// The source failed before either.
    Failed,
}

/// How many bytes are missing from the length, and then from the frame.
#[tactic(auto, unfolding(frame_rules::specs::Forms::number_at), using(crate::proofs::TakingLaws::missing_laws))]
fn missing_from(taken: &[u8]) -> usize
    requires { decoded taken.now ≡ Err FrameFault.Short }
    ensures exact { result ≡ missing taken.now }
    ensures some { 0 < result }
    ensures room { length taken.now + result ≤ 8213 }
{
    if taken.len() < 4 {
        return 4 - taken.len();
    }
    4 + u32::from_be_bytes([taken[0], taken[1], taken[2], taken[3]]) as usize - taken.len()
}

/// Takes bytes into the front of `into` until they are a frame or known to be none. Gives how many were taken.
#[tactic(auto, using(crate::proofs::TakingLaws::one_frame))]
pub fn read_frame<S: Source>(source: &mut S, into: &mut [u8]) -> (usize, Reading)
    requires room { HasRoom into.old }
    ensures within { result.0 ≤ length into.new }
    ensures gave { Gave (S.seen source.old).content (S.seen source.new).content (take result.0 into.new) }
    ensures small { result.0 ≤ 8213 }
    ensures wanted { IsWanted (take result.0 into.new) }
    ensures ends { EndsBy result.1 (take result.0 into.new) }
    ensures end { result.1 ≡ Reading.Ended → IsAtEnd (S.seen source.new).content }
    ensures cause { result.1 ≡ Reading.Failed → Rose (S.seen source.old).faults (S.seen source.new).faults }
    ensures unfailed { result.1 ≢ Reading.Failed → (S.seen source.new).faults ≡ (S.seen source.old).faults }
    ensures later { (S.seen source.old).faults ≤ (S.seen source.new).faults }
    ensures writes_nothing { (S.seen source.new).written ≡ (S.seen source.old).written }
{
    let mut count = 0;
    'reading: loop {
        let taken = &into[..count];
        let want = match decode(taken) {
            Ok(_) => return (count, Reading::Whole),
            Err(FrameFault::Short) => missing_from(taken),
            Err(fault) => return (count, Reading::Wrong(fault)),
        };
        match source.take(&mut into[count..count + want]) {
            Err(_) => return (count, Reading::Failed),
            Ok(0) => return (count, Reading::Ended),
            Ok(more) => count += more,
        }
    }
}
