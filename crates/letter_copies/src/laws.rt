//! The laws of the tries of a letter's copies. The functions are empty: their contracts are the laws.
ghost use Rattle.letter_copies.specs.Laws.{GivenUpIsNowhere, NotWrittenIsTrue, TriesAreFew, WrittenIsTrue, WrittenOnce};

/// Whatever is answered, and whenever: of all tries of a copy at most one may have been accepted, by what the servers'
/// answers exclude. So no copy is written twice to its address, where two writes would cancel.
pub fn copies_are_written_once()
    ensures once { WrittenOnce }
    ensures few { TriesAreFew }
{}

/// Of a letter that is told as written a copy of each part was accepted, behind that try's last proof; of one that is told
/// as not written some part was accepted nowhere. One that is given up where it can't be written was accepted nowhere.
pub fn ends_are_true()
    ensures written { WrittenIsTrue }
    ensures not_written { NotWrittenIsTrue }
    ensures given_up { GivenUpIsNowhere }
{}
