//! What holds of ledgers. The functions are empty but for the laws that they stand on: their contracts are
//! the laws.
ghost use Rattle.kept_ledger.specs.Laws.{BoxesAreTheClients, BoxesWereRegistered};
ghost use Rattle.kept_ledger.specs.Laws.{FollowersOwnTheLiveBoxes};
ghost use Rattle.kept_ledger.specs.Laws.{FramesAreOfOneRequest, NextSerialIsNew};
ghost use Rattle.kept_ledger.specs.Laws.{LedgersKeepTheirOpening, NoAddressTwice, NoReadingIsLeftOut};
ghost use Rattle.kept_ledger.specs.Laws.{ReadingsAreWhatBoxesHeld, SerialsRise};

/// Whatever is noted: serials only rise, and all frames that are ever sent under one serial are frames of one
/// request. Pair, seed and lane are those of the opening.
pub fn serials_are_used_once()
    ensures rise { SerialsRise }
    ensures one_request { FramesAreOfOneRequest }
    ensures opening { LedgersKeepTheirOpening }
{}

/// Whatever is noted: each reading is what a box held, when a heard frame ended a read or a retire of it, or
/// an earlier ledger tells it; and none but zeros is left out.
pub fn readings_are_what_boxes_held()
    ensures held { ReadingsAreWhatBoxesHeld }
    ensures all { NoReadingIsLeftOut }
{}

/// Whatever is noted: each box is one that its register's reply gave, or an earlier ledger owned; and the
/// client's own box of each place is the ledger's, with the keys of its serial.
pub fn boxes_were_registered()
    ensures registered { BoxesWereRegistered }
    ensures own { BoxesAreTheClients }
{}

/// Whatever is noted: no address stands twice among the named.
pub fn no_address_stands_twice()
    ensures { NoAddressTwice }
{}

/// A ledger that begins with the notes that another one kept owns its live boxes, in order, and where it goes
/// on from that one's next serial, it uses no serial under which a frame was sent.
pub fn followers_go_on()
    ensures boxes { FollowersOwnTheLiveBoxes }
    ensures serial { NextSerialIsNew }
{}
