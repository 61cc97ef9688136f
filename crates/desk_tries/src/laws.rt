//! The laws of a letter's tries. The functions are empty: their contracts are the laws.
ghost use Rattle.desk_tries.specs.Laws.{GivenUpIsNowhere, NotWrittenIsTrue, TriesAreFew, WrittenIsTrue, WrittenOnce};

/// Whatever is answered, and whenever: of all tries of a letter at most one to each address may have been accepted, by
/// what the servers' answers exclude. So no two writes of a letter to one address cancel.
pub fn letters_are_written_once()
    ensures once { WrittenOnce }
{}

/// A letter that is told as not written was accepted nowhere, and one that is told as written was accepted at its last
/// try, behind that try's last proof. One that is given up where it can't be written was accepted nowhere. There are at
/// most six tries, each to an address of the card.
pub fn ends_are_true()
    ensures not_written { NotWrittenIsTrue }
    ensures given_up { GivenUpIsNowhere }
    ensures written { WrittenIsTrue }
    ensures few { TriesAreFew }
{}
