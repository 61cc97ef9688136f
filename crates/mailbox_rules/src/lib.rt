//! The rules of the mailboxes: what a journal of commands makes of the boxes.
//!
//! The definitions stand in `specs/`. Each function here is empty: its contract is a law of them.
#![tactic(auto)]

ghost use Rattle.mailbox_rules.specs.Laws.{
  SharesAddUp,
  BytesAddUp,
  ReadsAddUp,
  TablesGrow,
  ResultsGrow,
  PartsGrow,
  ResultsStand,
  TablesAgree,
  OutlinesAgree,
  ResultOutlinesAgree,
  BoxesStay,
  AddressesDiffer,
  BoxesWithinLimit,
  BoxesAreRegistered,
  GotIsOwn,
  GotStays,
  GotByOwn,
  OwnBoxesStand,
  RetiredByEntry,
  NoBoxIsRetired,
};
ghost use Rattle.mailbox_rules.specs.Owned.{BoxesInTurn, GotWithinLimit, OwnersStay};
ghost use Rattle.mailbox_rules.specs.Widths.{BoxesHaveWidth};

/// The two servers' shares of one journal add up to the plain table, and so does what they give to a read.
pub fn shares_add_up()
    ensures boxes { SharesAddUp }
    ensures bytes { BytesAddUp }
    ensures reads { ReadsAddUp }
{}

/// The table and the results grow entry by entry.
/// The result of each entry is what it gives after the part of the journal before it.
pub fn tables_grow()
    ensures table { TablesGrow }
    ensures results { ResultsGrow }
    ensures parts { PartsGrow }
    ensures stand { ResultsStand }
{}

/// Tables and results depend on the writes that are settled alone.
/// All but the bytes depends on which of them are accepted.
pub fn tables_agree()
    ensures settled { TablesAgree }
    ensures outlines { OutlinesAgree }
    ensures results { ResultOutlinesAgree }
{}

/// A box keeps its number and its address for ever.
pub fn boxes_stay()
    ensures { BoxesStay }
{}

/// No two boxes have one address, and there are no more than the limit.
pub fn boxes_differ()
    ensures addresses { AddressesDiffer }
    ensures limit { BoxesWithinLimit }
{}

/// Each box was registered by an entry of its lane and serial.
/// A lane got the boxes that its own entries registered, by those entries alone, and keeps them.
pub fn boxes_are_owned()
    ensures registered { BoxesAreRegistered }
    ensures got { GotIsOwn }
    ensures stays { GotStays }
    ensures own { GotByOwn }
    ensures stand { OwnBoxesStand }
{}

/// A box that isn't live was retired by an entry.
/// So a read of a box that a lane got finds none only after a retire.
pub fn boxes_are_retired()
    ensures entry { RetiredByEntry }
    ensures no_box { NoBoxIsRetired }
{}

/// Boxes are registered in the order of their numbers and keep their owners.
/// No lane gets more of them than the limit.
pub fn boxes_in_turn()
    ensures turn { BoxesInTurn }
    ensures owners { OwnersStay }
    ensures limit { GotWithinLimit }
{}

/// Every box keeps its width, whatever is written, read and retired.
pub fn boxes_have_width()
    ensures { BoxesHaveWidth }
{}
