//! What holds of every run, and of every log. Each contract is a law.
ghost use Rattle.gated_runs.specs.Leases.{HelpersLeaseOnce, LeadersLeaseOnce};
ghost use Rattle.gated_runs.specs.Logs.{HelpersLogsCarry, LeadersLogsCarry};
ghost use Rattle.gated_runs.specs.Logs.{HelpersTakeTheirLogs, LeadersTakeTheirLogs};

use gated_servers::laws::cores_take_a_part_of_what_came;
use many_servers::laws::tests_are_the_gates;

/// Each client's frame that a log takes came in a request with the ticket that the frame's lane and serial
/// have at the gate, as all records before make it.
pub fn logged_frames_carry_their_tickets()
    ensures helper { HelpersLogsCarry }
    ensures leader { LeadersLogsCarry }
{
    tests_are_the_gates();
}

/// A server is what the records of its log make of it, one after another, and its core took a part of their
/// frames, in their order, and nothing else.
pub fn servers_take_their_logs()
    ensures helper { HelpersTakeTheirLogs }
    ensures leader { LeadersTakeTheirLogs }
{
    cores_take_a_part_of_what_came();
}

/// Whatever the records of a log, the leases that they give rise in each lane: no two have one lane and
/// serial.
pub fn a_lane_and_serial_is_leased_once()
    ensures helper { HelpersLeaseOnce }
    ensures leader { LeadersLeaseOnce }
{}
