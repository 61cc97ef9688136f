//! The laws of cutting and joining. The functions are empty: their contracts are the laws.
ghost use Rattle.file_carry.specs.Laws.{CutFilesJoin, FirstMissingIsNamed, JoinedFilesAreCut};

/// The parts of a file of at most 4,096 parts join to the file, whatever boxes come behind them.
pub fn cut_files_join()
    ensures { CutFilesJoin }
{}

/// Boxes that join to a file begin with the parts of that file: no part has two spellings, and no box is
/// taken that cutting doesn't give.
pub fn joined_files_are_cut()
    ensures { JoinedFilesAreCut }
{}

/// Boxes that don't join are told by the first of them that isn't there, isn't a part of its index, or has
/// another id or count than box 0.
pub fn first_missing_is_named()
    ensures { FirstMissingIsNamed }
{}
