//! Why a word isn't done.
ghost use Rattle.std.specs.Prelude.{◌≡◌, ◌≢◌, ℕ};
ghost use Rattle.desk_around.specs.Ends.{IsCause};
ghost use Rattle.desk_around.specs.Halts.{unnoted};
ghost use Rattle.desk_around.specs.Laters.{later_trouble};

use desk_outside::{DeskFile, FolderFault, Slot};
use desk_texts::Day;
use express_words::{NoMemory, Refusal, Role};
use kept_ledger::NameFault;
use kept_machine::KeepFault;
use letter_pieces::LetterFault;
use node_journal::JournalFault;

/// Why a word isn't done. A text is the path, the folder or the name that the words have.
#[derive(Clone, Copy)]
pub enum Trouble<'a> {
    /// The output failed, so nothing can be told.
    Out,
    NoMemory,
    /// The standard input failed.
    Input,
    /// The desk's folder can't be used: the one that the words name, else the usual one.
    Home(Option<&'a str>, FolderFault),
    /// A file in the desk's folder can't be used.
    File(DeskFile, FolderFault),
    /// The desk's folder, or a file in it, failed.
    Folder,
    Clock,
    /// The file can't be read.
    Unread(&'a str),
    /// A letter's file can't be written into the folder.
    Unwritten(&'a str),
    /// Another process has the desk's folder.
    InUse,
    /// What stands in the desk's folder was copied from another one.
    Copied,
    /// The file's first bad line, counted from 1.
    BadLine(&'a str, u32),
    /// The file is a card or a pair file of an earlier version.
    Earlier(&'a str),
    /// The file is no pair file.
    NoPairFile(&'a str),
    /// The messages of the pair's servers have another width than the pair file says.
    OtherWidth(&'a str),
    /// The places of leader and helper are swapped in the pair file.
    Swapped(&'a str),
    /// The file is no card.
    NoCard(&'a str),
    /// The text makes no letter.
    NoLetter(LetterFault),
    /// No desk was opened in the folder.
    NoDesk,
    /// A desk of an earlier version is there.
    EarlierDesk,
    /// A desk for another pair of servers is there.
    OtherDesk,
    /// The desk has no live box of this name.
    NoName(&'a str),
    /// Boxes with this name aren't made.
    Name(NameFault),
    /// The servers gave no box.
    NoRoom,
    /// A file of the desk isn't what was written into it.
    Damaged,
    /// A letter is no text, and isn't in a file: nobody has seen it.
    Unseen,
    /// The ledger is full.
    Full,
    /// The desk has used its lane's last number.
    Spent,
    /// The server wasn't reached, or the connection broke off.
    Unreached(Role),
    /// The server gave no whole answer.
    NoAnswer(Role),
    /// The server asks to come again later.
    Busy(Role),
    /// The server doesn't take the key of the desk's lane.
    NotYours(Role),
    /// There is still something to be done, and it may be run again.
    Later,
    /// Somebody else has used the desk's lane up to this number, which is above the desk's own.
    Behind(u32),
    /// Somebody else has used the lane's last number.
    UsedUp,
    /// A server refused the request.
    Refused(Refusal),
    /// The card's last day is over.
    Old(Day),
    /// As many letters as can be are on their way.
    ManyLetters,
    /// What stands at this place of a letter on its way can't be read.
    BadLetter(Slot),
    /// No letter is on its way.
    NoLetters,
    /// No letter of this number is on its way.
    NoLetterAt(u32),
    /// Several letters are on their way, and none of them is named.
    WhichLetter,
}

impl From<NoMemory> for Trouble<'_> {
    ghost use Rattle.desk_around.specs.Ends.{IsCause};

    ghost from_gives = { λ _ trouble. IsCause trouble };

    fn from(_: NoMemory) -> Self {
        Trouble::NoMemory
    }
}

/// What is told where nothing could be noted on a disk.
pub fn unnoted<'a>(fault: KeepFault) -> Trouble<'a>
    ensures trouble { result ≡ unnoted fault }
    ensures cause { IsCause result }
    ensures not_behind { (number : ℕ) → result ≢ Trouble.Behind number }
{
    match fault {
        KeepFault::NoMemory => Trouble::NoMemory,
        KeepFault::Journal(JournalFault::Full(_)) => Trouble::Full,
        KeepFault::Journal(JournalFault::Disk(_)) => Trouble::Folder,
        KeepFault::Journal(JournalFault::Closed) => Trouble::Folder,
        KeepFault::Journal(JournalFault::NotEmpty) => Trouble::Damaged,
        KeepFault::Journal(JournalFault::Damaged(_)) => Trouble::Damaged,
        KeepFault::Foreign(_) => Trouble::Damaged,
    }
}

impl From<KeepFault> for Trouble<'_> {
    ghost use Rattle.desk_around.specs.Ends.{IsCause};

    ghost from_gives = { λ _ trouble. IsCause trouble };

    fn from(fault: KeepFault) -> Self {
        unnoted(fault)
    }
}

/// What is told where a server would take the request later, or under another number.
pub fn later<'a>(refusal: Refusal) -> Trouble<'a>
    ensures { result ≡ later_trouble refusal }
{
    match refusal {
        Refusal::Stale(u32::MAX) => Trouble::UsedUp,
        Refusal::Stale(number) => Trouble::Behind(number),
        _ => Trouble::Later,
    }
}
