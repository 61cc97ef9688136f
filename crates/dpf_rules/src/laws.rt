//! Laws of walks and keys. The functions are empty: their contracts are the laws.
ghost use Rattle.dpf_rules.specs.Laws.{
  OwnWalks,
  GivenWalks,
  HonestForm,
  HonestPaths,
  HonestKeys,
  KeysInRange,
  WordsInRange,
  WalksInRange,
  OwnInRange,
  GivenInRange,
  EqualLeavesWriteAlike,
  EqualLeavesKeepBox,
};

/// Whatever the other server's expansions are, either viewer walks to the target through the states that
/// its keys were made from. A server whose given pairs are those of its own states walks through the states
/// that they give.
pub fn ideal_walks()
    ensures own { OwnWalks }
    ensures given { GivenWalks }
{}

/// Where the other server's expansions are the honest ones, either viewer's states are those of the path,
/// and the keys are the honest keys.
pub fn honest_lists_give_honest_keys()
    ensures form { HonestForm }
    ensures paths { HonestPaths }
    ensures keys { HonestKeys }
{}

/// Words and states are numbers of 128 bits, and keys are bytes, as many as a public part has.
pub fn states_are_in_range()
    ensures keys { KeysInRange }
    ensures words { WordsInRange }
    ensures walks { WalksInRange }
    ensures own { OwnInRange }
    ensures given { GivenInRange }
{}

/// Equal leaves under one public part give equal write bytes at both servers, so the box's sum stays.
pub fn equal_leaves_keep_boxes()
    ensures alike { EqualLeavesWriteAlike }
    ensures sum { EqualLeavesKeepBox }
{}
