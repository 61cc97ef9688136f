//! Files that are carried over the table of mailboxes: a part in each box, read and joined again.
//!
//! `specs/Carried` says what a journal does at the boxes of the parts. Each function here is empty: its
//! contract is laws of it.
ghost use Rattle.file_carry.specs.CarriedLaws.{
  AnswersJoin,
  PartsAreGiven,
  PlainWritesAdd,
  RegisteredStay,
  UnwrittenIsMissing,
};
ghost use Rattle.file_carry.specs.Worked.{TwoPartsAreCarried};

/// The read of a box to which a part was carried gives the part, and the answers to the reads of all parts of
/// a file join to the file.
pub fn answers_join()
    ensures given { PartsAreGiven }
    ensures join { AnswersJoin }
{}

/// Where the first parts of a file are carried and the next box is read with nothing written to it, the
/// answers don't join, and this part is named as missing.
pub fn unwritten_is_missing()
    ensures { UnwrittenIsMissing }
{}

/// A box that a line registered is there ever after, for each write that begins later.
pub fn registered_stay()
    ensures { RegisteredStay }
{}

/// In the plain table a client's write adds its message to the box of its target, and nothing to the others.
pub fn plain_writes_add()
    ensures { PlainWritesAdd }
{}

/// There are such journals: a worked one carries a file of two parts.
pub fn two_parts_are_carried()
    ensures { TwoPartsAreCarried }
{}
