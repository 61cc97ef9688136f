//! A disk as the journal sees it: what a read gives, and what a crash may leave.
ghost use Rattle.std.specs.Prelude.{◌≡◌, ◌≤◌, List, ℕ, length, IfOk, OnOk};
ghost use Rattle.express_words.specs.Causes.{HasCause};
ghost use Rattle.node_journal.specs.Disk.{DiskSeen, CountsFault, Holds, Torn, Copies, Follows, Within, IsUntouched, Elapses};

use express_words::outside::{Counted, Failed};

/// Bytes that outlive a crash. Of a disk that doesn't tell its content, these relations hold for no content.
pub trait Disk: Counted {
    /// What a read gives, and what a crash may leave.
    ghost disk: { Self → DiskSeen };

    /// The bytes from offset `at` on into the front of `out`, fewer than asked only where the disk ends.
    fn read(&mut self, at: u64, out: &mut [u8]) -> Result<usize, Failed>
        ensures bound { IfOk result (λ n. n ≤ length out.new) }
        ensures length { length out.new ≡ length out.old }
        ensures bytes { IfOk result (λ n. (c : List ℕ) → (disk self.old).reads c
            → Copies at n out.old out.new c) }
        ensures untouched { IsUntouched (disk self.old) (disk self.new) }
        ensures time { Elapses (disk self.old) (disk self.new) }
        ensures cause { HasCause (Self.seen self.old).faults (Self.seen self.new).faults result }
        ensures counts { CountsFault (Self.seen self.old).faults (Self.seen self.new).faults result };

    /// Writes from offset `at` on over what is there, and past the end. Until a sync, a crash may leave any
    /// bytes in the range.
    fn write(&mut self, at: u64, bytes: &[u8]) -> Result<(), Failed>
        requires { (c : List ℕ) → (disk self.old).reads c → at ≤ length c }
        ensures written { OnOk result
            (Follows (Holds at bytes.now) (disk self.old).reads (disk self.new).reads) }
        ensures crash { Follows (Torn at (length bytes.now)) (disk self.old).may_leave
            (disk self.new).may_leave }
        ensures time { Elapses (disk self.old) (disk self.new) }
        ensures cause { HasCause (Self.seen self.old).faults (Self.seen self.new).faults result }
        ensures counts { CountsFault (Self.seen self.old).faults (Self.seen self.new).faults result };

    /// After it, a crash leaves what a read gives.
    fn sync(&mut self) -> Result<(), Failed>
        ensures durable { OnOk result (Within (disk self.new).may_leave (disk self.new).reads) }
        ensures untouched { IsUntouched (disk self.old) (disk self.new) }
        ensures time { Elapses (disk self.old) (disk self.new) }
        ensures cause { HasCause (Self.seen self.old).faults (Self.seen self.new).faults result }
        ensures counts { CountsFault (Self.seen self.old).faults (Self.seen self.new).faults result };

    /// A read gives one content.
    ghost one_content: { (d : Self) (b c : List ℕ) → (disk d).reads b → (disk d).reads c → b ≡ c };

    /// This moment is one of those since an earlier one.
    ghost counts_now: { (d : Self) (t : ℕ) (c : List ℕ) → t ≤ (disk d).moment
        → (disk d).may_leave c → (disk d).left_since t c };

    /// Since this moment there is no other.
    ghost only_now: { (d : Self) (c : List ℕ) → (disk d).left_since (disk d).moment c
        → (disk d).may_leave c };
}
