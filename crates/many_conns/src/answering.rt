//! What answers frames.
ghost use Rattle.std.specs.Prelude.{◌≡◌, ◌≤◌, ◌<◌, ◌^◌, ℕ, List, length, IfSome, option_map, slice_get};
ghost use Rattle.many_conns.specs.Rules.{Rules, IsWithin, after_noted, outcome_of, written};

use crate::said::Said;
use many_words::Door;

/// The longest answer.
pub const ANSWER_MAX: usize = 16384;

/// What tells frames from bytes, says what the log notes of each, and answers them at once, from memory that it has.
pub trait Answering {
    /// What it makes of bytes.
    ghost rules: { Rules Self };

    /// How many of these bytes, which came through a door, are the first whole frame, if one is: bytes that can't become
    /// a frame are whole as well.
    fn whole(&self, door: Door, held: &[u8]) -> Option<usize>
        ensures exact { result ≡ rules.whole door held.now }
        ensures within { IfSome result (λ count. count ≤ length held.now) };

    /// Whether a frame takes long.
    fn is_dear(&self, door: Door, frame: &[u8]) -> bool
        ensures { result ≡ rules.is_dear door frame.now };

    /// How many frames of clients it can take now.
    fn room(&self) -> usize
        ensures { result ≡ rules.room self.now };

    /// What the log notes of a frame before it is taken, written to the front of `out`. None: nothing is noted of it, and
    /// it will change nothing.
    fn record(&self, door: Door, frame: &[u8], out: &mut [u8]) -> Option<usize>
        requires room { length out.old ≡ 16896 }
        ensures within { IfSome result (λ count. count ≤ length out.new) }
        ensures length { length out.new ≡ length out.old }
        ensures noted { written result out.new ≡ rules.noted self.now door frame.now };

    /// Takes a frame with what was noted of it: says what becomes of it, and writes what is to be sent to the front of
    /// `out`.
    fn step(&mut self, door: Door, frame: &[u8], noted: Option<&[u8]>, out: &mut [u8]) -> Said
        requires room { length out.old ≡ 16384 }
        ensures within { IsWithin result (length out.new) }
        ensures length { length out.new ≡ length out.old }
        ensures says { outcome_of result out.new
            ≡ rules.says self.old door frame.now (option_map (λ bytes. bytes.now) noted.entry) }
        ensures after { self.new ≡ after_noted rules self.old (option_map (λ bytes. bytes.now) noted.entry) };

    /// The command of this place among those that are unanswered, the oldest at 0, written to the front of `out`: on a new
    /// connection they are sent again. They are few.
    fn outstanding(&self, place: usize, out: &mut [u8]) -> Option<usize>
        requires room { length out.old ≡ 16384 }
        ensures within { IfSome result (λ count. count ≤ length out.new) }
        ensures length { length out.new ≡ length out.old }
        ensures outstanding { written result out.new ≡ slice_get (rules.outstanding self.now) place }
        ensures few { length (rules.outstanding self.now) < 2 ^ 32 };
}
