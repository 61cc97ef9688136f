//! The logs of two servers for many are a run of a schedule.
//!
//! The function here is empty, but for the laws that it stands on: its contract is a law of the definitions in
//! `specs/`.
#![tactic(auto)]

ghost use Rattle.gated_laws.specs.Logs.{GatedLogsAreARun};

use gated_servers::laws::cores_take_a_part_of_what_came;
use log_laws::logs_are_a_run;

/// Where the frames of the link in the logs of two gated servers are each other's, there are events whose run
/// over bytes ends at the two cores behind their gates: two a record at most, and those of a schedule where
/// the logs' clients are such as may come from outside.
pub fn gated_logs_are_a_run()
    ensures { GatedLogsAreARun }
{
    cores_take_a_part_of_what_came();
    logs_are_a_run();
}
