//! The journals of two servers are a run of a schedule.
//!
//! The function here is empty: its contract is a law of the definitions in `specs/`.
#![tactic(auto)]

ghost use Rattle.log_laws.specs.Journals.{LogsAreARun};

/// Where the frames of the link in two servers' journals are each other's, there is a schedule whose run ends at the two
/// servers that the journals give.
pub fn logs_are_a_run()
    ensures { LogsAreARun }
{}
