//! What holds of gated servers whatever comes. Each function is empty: its contract is the law.
ghost use Rattle.gated_servers.specs.Runs.{HelpersTakeAPart, LeadersTakeAPart};

/// Whatever records a log has, each core took a part of their frames, in their order, one at a time. A frame that it
/// didn't take is one that was lost, for the core: so all that is said of lost frames holds of a gated server. And a
/// helper's core takes no audit at the point 1 or 2.
pub fn cores_take_a_part_of_what_came()
    ensures helper { HelpersTakeAPart }
    ensures leader { LeadersTakeAPart }
{}
