//! What holds of a region after every list of calls.
ghost use Rattle.block_region.specs.Calls.{BlocksLieApart, ClassesStay};

/// After any list of takes, writes and gives a block that is out holds the last bytes that were written to it, or its
/// zeros, whatever was done to other blocks.
pub fn blocks_lie_apart()
    ensures { BlocksLieApart }
{}

/// No list of calls moves a region or changes the size and the number of a class's blocks, each of which is out or
/// free: a take finds none exactly where as many are out.
pub fn classes_stay()
    ensures { ClassesStay }
{}
