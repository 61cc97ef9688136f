//! The laws of what is told. The functions are empty: their contracts are the laws.
ghost use Rattle.known_pieces.specs.Laws.{ToldIsKnown, ToldWasPut, PeeledIsTold};
ghost use Rattle.known_pieces.specs.Laws.{NothingIsTold, ReadingIsKept, OpenedIsTold, NoneOpens};

/// Whatever is told of readings is known by them.
pub fn told_is_known()
    ensures { ToldIsKnown }
{}

/// Of the boxes of a table no piece is told that wasn't put into one.
pub fn told_was_put()
    ensures { ToldWasPut }
{}

/// Of a table that can be peeled every piece is told.
pub fn peeled_is_told()
    ensures { PeeledIsTold }
{}

/// A reader begins with nothing, keeps each reading, and opens one by some of the pieces that are tried at
/// its address: whatever it does, what it tells is known, and each reading is left or is the sum of known
/// pieces.
pub fn readings_are_told()
    ensures start { NothingIsTold }
    ensures keep { ReadingIsKept }
    ensures open { OpenedIsTold }
{}

/// A search for a sum that is empty, or a piece that isn't among those that are tried, leaves no reading
/// that one of their subsets opens.
pub fn none_opens()
    ensures { NoneOpens }
{}
