//! What a share store holds after every list of calls.
ghost use Rattle.share_store.specs.Calls.{SharesAreSums};

/// After any list of writes, takes and retirements the share of a box is the XOR of the write bytes since it
/// was last taken; a box that was retired has zeros, and isn't live.
pub fn shares_are_sums()
    ensures { SharesAreSums }
{}
