//! A server with its log: where its frames go before its step.
ghost use Rattle.std.specs.Prelude.{◌≡◌, ◌↔◌, ◌∷◌, ◌++◌, ◌≤◌, [], ℕ, List, length, take, option_map, Some, None, IfOk, IfErr, OnOk, OnErr, IfSome, IsNone};
ghost use Rattle.frame_rules.specs.Room.{HasRoom};
ghost use Rattle.frame_rules.specs.Spelling.{spelling};
ghost use Rattle.node_restart.specs.Frames.{Handed, handed};
ghost use Rattle.node_restart.specs.Steps.{resent_by, role_of, step_of, Takes};
ghost use Rattle.node_serve.specs.Logs.{CountsLog, Log};

use node_restart::{Did, Role, Sender};
use wire_frames::Received;

/// A server with its log: a journal, or nowhere. Each frame that it is handed goes to the log before its step.
pub trait Logged {
    /// Why the log refuses a frame.
    type Fault: Copy;

    /// The server, and what its log does.
    ghost log: { Log Self Self.Fault };

    /// How often the log has failed.
    ghost failures: { Self → ℕ };

    /// What a fault says of that count before and after.
    ghost rises: { Self.Fault → ℕ → ℕ → Type 0 };

    /// Which of the two servers it is.
    fn role(&self) -> Role
        ensures { result ≡ role_of (log.core self.now) };

    /// Hands the server a frame: the log takes it, and then the server takes its step. What it writes stands at the
    /// front of `out`.
    fn hand(
        &mut self,
        sender: Sender,
        received: &Received<'_>,
        out: &mut [u8],
    ) -> Result<Did, Self::Fault>
        requires room { HasRoom out.old }
        ensures step { IfOk result (λ did. Takes (step_of (log.core self.old) sender received.now) (log.core self.new) did
            out.old out.new) }
        ensures takes { OnOk result (log.takes self.old self.new (handed sender received.now ∷ [])) }
        ensures stops { IfErr result (log.stops self.old self.new [] (handed sender received.now)) }
        ensures no_step { OnErr result (log.core self.new ≡ log.core self.old) }
        ensures counts { CountsLog rises (failures self.old) (failures self.new) result };

    /// Writes a leader's oldest outstanding command to the front of `out` again, and gives its length; None exactly
    /// where none is outstanding, and then nothing is written.
    fn oldest(&self, out: &mut [u8]) -> Option<usize>
        requires room { HasRoom out.old }
        ensures none { IsNone result ↔ (resent_by (log.core self.now) ≡ None) }
        ensures still { IsNone result → out.new ≡ out.old }
        ensures within { IfSome result (λ n. n ≤ length out.new) }
        ensures written { IfSome result (λ n. option_map spelling (resent_by (log.core self.now)) ≡ Some
            (take n out.new)) };

    /// No frame.
    ghost none: { (s : Self) → log.takes s s [] };

    /// Frames, and frames behind them.
    ghost both: { (a b c : Self) (xs ys : List Handed) → log.takes a b xs → log.takes b c ys → log.takes a c (xs ++ ys) };

    /// Frames, and frames up to one that is refused behind them.
    ghost halts: { (a b c : Self) (xs ys : List Handed) (h : Handed) (why : Self.Fault) → log.takes a b xs
        → log.stops b c ys h why → log.stops a c (xs ++ ys) h why };
}
