//! What holds of a gate whatever comes and is noted. Each function is empty: its contract is the law.
ghost use Rattle.lane_gate.specs.Runs.{HandsOnOneList, HandsOnAPart, PassesWithItsTicket, OneTicketPasses};
ghost use Rattle.lane_gate.specs.Runs.{LeasesRise, ProvesOneStatement, RecordsGiveOneGate};

/// What a gate hands on is a part of what came, in its order: a frame that isn't handed on is one that was lost,
/// for the core behind it. So all that is said of lost frames holds of it.
pub fn what_passed_is_a_part_of_what_came()
    ensures part { HandsOnAPart }
    ensures one { HandsOnOneList }
{}

/// A client's frame passes only with the ticket that its lane and serial were given to, one at a time.
pub fn frames_carry_their_tickets()
    ensures gated { PassesWithItsTicket }
    ensures one { OneTicketPasses }
{}

/// A proof passes only where its client has the statement that the server's core has, one key of the
/// challenges and one public part: where each made its hash of its own, and the two differ, they are a
/// collision of SHA-256.
pub fn proofs_have_one_statement()
    ensures { ProvesOneStatement }
{}

/// The leases of each lane rise, so no two of them have one lane and serial.
pub fn leases_rise()
    ensures { LeasesRise }
{}

/// The same records give the same gate: one that is opened again is the one that was kept.
pub fn records_give_one_gate()
    ensures { RecordsGiveOneGate }
{}
