//! The laws of letters. The functions are empty: their contracts are the laws.
ghost use Rattle.desk_letters.specs.Laws.{OneContent, SealedOpen, UnwrittenAreEmpty, WrittenAreRead};

/// What is sealed opens as its id and text, and no box opens as two things.
pub fn sealed_letters_open()
    ensures opens { SealedOpen }
    ensures one { OneContent }
{}

/// Over the plain table of mailboxes: where one letter was written to a live and clear box and nothing else since, what
/// the read gives opens as that letter; where nothing was written, as an empty box.
pub fn written_letters_are_read()
    ensures letters { WrittenAreRead }
    ensures empty { UnwrittenAreEmpty }
{}
