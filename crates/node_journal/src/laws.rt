//! What a crash leaves in each of the two writes of an append. Each function is empty: its contract is the
//! law.
ghost use Rattle.std.specs.Prelude.{◌≡◌, ◌≢◌, ℕ, List};
ghost use Rattle.node_journal.specs.History.{Gated, Staged, TornBehind, TornGate};
ghost use Rattle.node_journal.specs.Records.{content, IsSized, AllSized, IsBeforeOrAfter};

/// A write behind a closed gate that a crash cuts short changes no record, whatever it leaves there.
pub fn torn_behind_a_closed_gate()
    ensures { (g : Gated) (n : ℕ) (c : List ℕ) → AllSized g.records → g.gate ≢ 1 → TornBehind g n c
        → content c ≡ g.records }
{}

/// A write of the gate before a whole record and a closed gate leaves the records with that one or without.
pub fn torn_at_the_gate()
    ensures { (s : Staged) (c : List ℕ) → AllSized s.records → IsSized s.added → s.after ≢ 1
        → TornGate s c → IsBeforeOrAfter s.records s.added c }
{}
