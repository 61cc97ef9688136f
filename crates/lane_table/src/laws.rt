//! What holds of a table after every list of calls.
ghost use Rattle.lane_table.specs.Changes.{KeepsItsLast, KeepsTheirNumber};

/// After any list of `set` and `keep` a lane has the row that was last set to it and the reply that was last kept for
/// it, whatever other lanes got. No such list adds or drops a lane.
pub fn lanes_keep_their_last()
    ensures last { KeepsItsLast }
    ensures number { KeepsTheirNumber }
{}
