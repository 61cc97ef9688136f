//! Why a word isn't done.
ghost use Rattle.std.specs.Prelude.{◌≡◌, ◌≢◌, ℕ};
ghost use Rattle.desk_run.specs.Ends.{IsCause};
ghost use Rattle.desk_run.specs.Laters.{later_trouble};

use client_restart::KeepFault;
use desk_ledger::NameFault;
use desk_letters::SealFault;
use desk_outside::{DeskFile, FolderFault, Slot};
use desk_texts::Day;
use express_words::{NoMemory, Refusal};
use kept_errands::Halt;
use node_client::Stop;
use node_journal::JournalFault;
use std::fmt;

/// One of the two servers, as cards and pair files call it.
#[derive(Clone, Copy)]
pub enum ServerName {
    Leader,
    Helper,
}

impl ServerName {
    // The server of this number.
    fn of(server: Option<u8>) -> ServerName {
        match server {
            Some(1) => ServerName::Helper,
            Some(_) => ServerName::Leader,
            None => ServerName::Leader,
        }
    }
}

impl fmt::Display for ServerName {
    fn fmt<W: fmt::Write>(&self, f: &mut fmt::Formatter<W>) -> fmt::Result {
        match self {
            ServerName::Leader => f.write_str("leader"),
            ServerName::Helper => f.write_str("helper"),
        }
    }
}

/// Why a word isn't done. A text is the path, the folder or the name that the words have.
#[derive(Clone, Copy)]
pub enum Trouble<'a> {
    /// The output failed, so nothing can be told.
    Out,
    NoMemory,
    /// The standard input failed.
    Input,
    /// The desk's folder can't be used: the one that the words name, else the usual one.
    Home(Option<&'a str>, FolderFault),
    /// A file in the desk's folder can't be used.
    File(DeskFile, FolderFault),
    /// The desk's folder, or a file in it, failed.
    Folder,
    Clock,
    /// The file can't be read.
    Unread(&'a str),
    /// A letter's file can't be written into the folder.
    Unwritten(&'a str),
    /// Another process has the desk's folder.
    InUse,
    /// What stands in the desk's folder was copied from another one.
    Copied,
    /// The file's first bad line, counted from 1.
    BadLine(&'a str, u32),
    /// The file is no pair file.
    NoPairFile(&'a str),
    /// The messages of the pair's servers have another width than the pair file says.
    OtherWidth(&'a str),
    /// The pair file names lanes that a server doesn't have, which has so many.
    FewLanes(&'a str, ServerName, u16),
    /// The file is no card.
    NoCard(&'a str),
    /// The text makes no letter.
    NoLetter(SealFault),
    /// No desk was opened in the folder.
    NoDesk,
    /// A desk for another pair of servers is there.
    OtherDesk,
    /// The desk has no live box of this name.
    NoName(&'a str),
    /// The servers gave no box.
    NoRoom,
    /// The name isn't taken.
    Name(NameFault),
    /// A file of the desk isn't what was written into it.
    Damaged,
    /// A letter is no text, and isn't in a file: nobody has seen it.
    Unseen,
    /// The ledger is full.
    Full,
    /// The desk has used its lane's last number.
    Spent,
    /// The server wasn't reached, or the connection broke off.
    Unreached(ServerName),
    /// The server gave no whole answer.
    NoAnswer(ServerName),
    /// A server asks to come again later.
    Later,
    /// Somebody else has used the desk's lane up to this number, which is above the desk's own.
    Behind(u32),
    /// Somebody else has used the lane's last number.
    UsedUp,
    /// A server refused the request.
    Refused(Refusal),
    /// The numbers of the card's lanes are used up.
    NoLane,
    /// The card's last day is over.
    Old(Day),
    /// As many letters as can be are on their way.
    ManyLetters,
    /// What stands at this place of a letter on its way can't be read.
    BadLetter(Slot),
    /// No letter is on its way.
    NoLetters,
    /// No letter of this number is on its way.
    NoLetterAt(u32),
    /// Several letters are on their way, and none of them is named.
    WhichLetter,
}

impl From<NoMemory> for Trouble<'_> {
    ghost use Rattle.desk_run.specs.Ends.{IsCause};

    ghost from_gives = { λ _ trouble. IsCause trouble };

    fn from(_: NoMemory) -> Self {
        Trouble::NoMemory
    }
}

// What is told where nothing could be noted on a disk.
fn unnoted<'a>(fault: KeepFault) -> Trouble<'a>
    ensures cause { IsCause result }
    ensures not_behind { (number : ℕ) → result ≢ Trouble.Behind number }
{
    match fault {
        KeepFault::NoMemory => Trouble::NoMemory,
        KeepFault::Journal(JournalFault::Full(_)) => Trouble::Full,
        KeepFault::Journal(JournalFault::Disk(_)) => Trouble::Folder,
        KeepFault::Journal(JournalFault::Closed) => Trouble::Folder,
        KeepFault::Journal(JournalFault::NotEmpty) => Trouble::Damaged,
        KeepFault::Journal(JournalFault::Damaged(_)) => Trouble::Damaged,
        KeepFault::Foreign(_) => Trouble::Damaged,
    }
}

impl From<KeepFault> for Trouble<'_> {
    ghost use Rattle.desk_run.specs.Ends.{IsCause};

    ghost from_gives = { λ _ trouble. IsCause trouble };

    fn from(fault: KeepFault) -> Self {
        unnoted(fault)
    }
}

// What is told where a server would take the request later, or under another number.
fn later<'a>(refusal: Refusal) -> Trouble<'a>
    ensures { result ≡ later_trouble refusal }
{
    match refusal {
        Refusal::Stale(u32::MAX) => Trouble::UsedUp,
        Refusal::Stale(number) => Trouble::Behind(number),
        _ => Trouble::Later,
    }
}

/// What is told of a halt at a step that goes to this server.
pub(crate) fn halted<'a>(halt: Halt, server: Option<u8>) -> Trouble<'a>
    ensures cause { IsCause result }
    // That the lane was used by others is told only where a server said so.
    ensures behind { (number : ℕ) → result ≡ Trouble.Behind number
        → (refusal : Refusal) × (halt ≡ Halt.Stop (Stop.Later refusal)) }
{
    match halt {
        Halt::Keep(fault) => unnoted(fault),
        Halt::Stop(Stop::Answer) => Trouble::NoAnswer(ServerName::of(server)),
        Halt::Stop(Stop::Later(refusal)) => later(refusal),
        Halt::Stop(Stop::Spent) => Trouble::Spent,
        Halt::Stop(Stop::Full) => Trouble::Full,
        Halt::Stop(Stop::Fault(_)) => Trouble::Unreached(ServerName::of(server)),
    }
}
