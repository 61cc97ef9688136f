//! What holds of a leader's gate after any list of notes. Each function is empty: its contract is the law.
ghost use Rattle.lane_leases.specs.Runs.{LastEndIsTold, LastEndsAreKept, LeaderLeasesRise, OneRestedLongest};
ghost use Rattle.lane_leases.specs.Runs.{RecordsGiveOneLeader};

/// One lane at most has rested longest, and the leases of each lane rise, so no two of them have one lane and
/// serial.
pub fn leases_rise()
    ensures lane { OneRestedLongest }
    ensures rise { LeaderLeasesRise }
{}

/// The last 4,096 ends are remembered, in their order, and the last of them is its ticket's.
pub fn last_ends_are_kept()
    ensures kept { LastEndsAreKept }
    ensures told { LastEndIsTold }
{}

/// The same records give the same leader's gate: one that is opened again is the one that was kept.
pub fn records_give_one_gate()
    ensures { RecordsGiveOneLeader }
{}
