//! One audit a write: whatever bytes come to a server and in whatever order, it opens and closes at most once
//! for each lane and serial.
//!
//! The function here is empty: its contract is laws of the tables of `step_rules`.
#![tactic(auto)]

ghost use Rattle.audit_once.specs.Once.{HelpersAuditOnce, LeadersAuditOnce};

/// Whatever bytes clients and the other server send, in any order, and however often the link comes up again:
/// a server sends the other at most one opening and at most one closing for each lane and serial. All else
/// that it writes on the link is what it sent before.
pub fn servers_audit_once()
    ensures helper { HelpersAuditOnce }
    ensures leader { LeadersAuditOnce }
{}
