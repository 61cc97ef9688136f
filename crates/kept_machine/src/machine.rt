//! A machine that its records give.
ghost use Rattle.std.specs.Prelude.{◌≡◌, ◌↔◌, ◌≤◌, List, ℕ, Option, IsTrue, Some, None, IfOk, OnOk, OnErr, IfSome, IsNone, length};
ghost use Rattle.node_journal.specs.Records.{IsSized};
ghost use Rattle.kept_machine.specs.Machines.{Rules, RulesHold};

use express_words::NoMemory;
use node_journal::RECORD_MAX;
use std::alloc::Global;

/// A machine that is opened by a first record, and of which each later record makes another. The same records
/// give the same machine.
pub trait Machine: Drop {
    /// Which bytes are its records, and what each makes of it.
    ghost rules: { Rules Self };

    /// Whether a first record is of the form.
    fn is_opening(first: &[u8]) -> bool
        ensures { IsTrue result ↔ rules.is_opening first.now };

    /// Whether a later record is of the form.
    fn is_record(bytes: &[u8]) -> bool
        ensures { IsTrue result ↔ rules.is_record bytes.now };

    /// The machine that a first record opens.
    fn open(alloc: Global, first: &[u8]) -> Result<Self, NoMemory>
        requires is { rules.is_opening first.now }
        ensures opens { IfOk result (λ machine. rules.opens first.now machine) }
        ensures sound { IfOk result (λ machine. rules.is_sound machine) };

    /// Takes the memory that the step of a record needs.
    fn take_memory(&mut self, alloc: Global, bytes: &[u8]) -> Result<(), NoMemory>
        requires is { rules.is_record bytes.now }
        requires sound { rules.is_sound self.old }
        ensures same { rules.is_same self.old self.new }
        ensures sound { rules.is_sound self.new }
        ensures taken { OnOk result (rules.has_memory self.new bytes.now) }
        ensures wanted { OnErr result (rules.wants_memory bytes.now) };

    /// Takes the step of a record.
    fn step(&mut self, bytes: &[u8])
        requires is { rules.is_record bytes.now }
        requires sound { rules.is_sound self.old }
        requires taken { rules.has_memory self.old bytes.now }
        ensures steps { rules.steps bytes.now self.old self.new }
        ensures sound { rules.is_sound self.new };

    ghost rules_hold: { RulesHold rules };
}

/// A machine that takes inputs of a type, and answers each by a value and by bytes. An input has a record, or
/// it has none and changes nothing.
pub trait Takes<I>: Machine {
    /// What is told of an input, beside the bytes.
    type Told;

    /// What is so of each input that is given.
    ghost is_input: { I → Type 0 };

    /// The record of an input.
    ghost record_of: { I → Option (List ℕ) };

    /// What a machine tells of an input that makes the second of the first, and what stands in the buffer
    /// before and after it.
    ghost tells: { I → (before now : Self) → Self.Told → (out out_new : List ℕ) → Type 0 };

    /// How many bytes a buffer has for what is written.
    ghost most: { ℕ };

    /// The record of an input into the front of `room`, if it has one.
    fn record<'r>(input: &I, room: &'r mut [u8; RECORD_MAX]) -> Option<&'r [u8]>
        requires { is_input input.now }
        ensures some { IfSome result (λ r. record_of input.now ≡ Some r.now) }
        ensures is { IfSome result (λ r. Self.rules.is_record r.now) }
        ensures sized { IfSome result (λ r. IsSized r.now) }
        ensures none { IsNone result → record_of input.now ≡ None };

    /// Takes an input, and writes to the front of `out`.
    fn take(&mut self, input: &I, out: &mut [u8]) -> Self::Told
        requires input { is_input input.now }
        requires sound { Self.rules.is_sound self.old }
        requires room { most ≤ length out.old }
        requires taken { (bytes : List ℕ) → record_of input.now ≡ Some bytes
            → Self.rules.has_memory self.old bytes }
        ensures steps { (bytes : List ℕ) → record_of input.now ≡ Some bytes
            → Self.rules.steps bytes self.old self.new }
        ensures rests { record_of input.now ≡ None → self.new ≡ self.old }
        ensures tells { tells input.now self.old self.new result out.old out.new }
        ensures sound { Self.rules.is_sound self.new };

    ghost tells_of_same: { (input : I) (a b now : Self) (told : Self.Told) (out out_new : List ℕ)
        → Self.rules.is_same a b → tells input b now told out out_new → tells input a now told out out_new };
}
