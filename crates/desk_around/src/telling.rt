//! What a person is told of a trouble.
use crate::trouble::Trouble;
use desk_outside::{DeskFile, Slot};
use desk_texts::Day;
use express_words::Role;
use std::fmt;

/// One or two lines in plain English: what happened, and what to do.
impl fmt::Display for Trouble<'_> {
    fn fmt<W: fmt::Write>(&self, f: &mut fmt::Formatter<W>) -> fmt::Result {
        match *self {
            Trouble::Out => f.write_str("the output can't be written\n"),
            Trouble::NoMemory => f.write_str(
                "not done: this computer has no memory left; run it again\n",
            ),
            Trouble::Input => f.write_str("not done: the text can't be read\n"),
            Trouble::Clock => f.write_str("not done: the clock can't be read; run it again\n"),
            Trouble::Unread(path) => write!(f, "not done: {path} can't be read\n"),
            Trouble::Unwritten(folder) => write!(
                f,
                "not done: nothing can be written into {folder}\n"
            ),
            Trouble::BadLine(path, line) => write!(
                f,
                "{path}: line {line} isn't right; compare it with the one that you were given\n"
            ),
            Trouble::Earlier(path) => write!(
                f,
                "{path}: this was made for an earlier version of the servers; ask whoever gave it to you for a new one\n"
            ),
            Trouble::NoPairFile(path) => write!(f, "{path}: this is no pair file\n"),
            Trouble::OtherWidth(path) => write!(
                f,
                "{path}: its width isn't the one of these servers; ask your operators for their pair file\n"
            ),
            Trouble::Swapped(path) => write!(
                f,
                "{path}: leader and helper are swapped; ask your operators for their pair file\n"
            ),
            Trouble::NoCard(path) => write!(f, "{path}: this is no card\n"),
            Trouble::NoLetter(fault) => write!(f, "not sent: {fault}\n"),
            _ => self.fmt_of_desk(f),
        }
    }
}

// How a server is called.
fn server_name(role: Role) -> &'static str {
    match role {
        Role::Leader => "leader",
        Role::Helper => "helper",
    }
}

// The number of a place, as people count.
fn number_of(slot: Slot) -> u32 {
    u32::from(slot.number) + 1
}

// How a file of the desk's folder is called.
fn name_of(file: DeskFile) -> &'static str {
    match file {
        DeskFile::Ledger | DeskFile::NextLedger => "ledger",
        DeskFile::Outbox(_) | DeskFile::NextOutbox(_) => "outbox",
    }
}

impl Trouble<'_> {
    fn fmt_of_desk<W: fmt::Write>(&self, f: &mut fmt::Formatter<W>) -> fmt::Result {
        match *self {
            Trouble::Home(folder, fault) => {
                let folder = folder.unwrap_or("~/.express-desk");
                write!(
                    f,
                    "not done: {folder} can't be the desk's folder: {fault}\n"
                )
            }
            Trouble::File(file, fault) => {
                let name = name_of(file);
                write!(
                    f,
                    "not done: the file {name} in the desk's folder can't be used: {fault}\n"
                )
            }
            Trouble::Folder => f.write_str(
                "not done: the desk's folder can't be read or written; see whether the disk is full, and run it again\n",
            ),
            Trouble::InUse => f.write_str(
                "the desk is in use: another window or a scheduled run is at work with it; run it again in a moment\n",
            ),
            _ => self.fmt_of_ledger(f),
        }
    }

    fn fmt_of_ledger<W: fmt::Write>(&self, f: &mut fmt::Formatter<W>) -> fmt::Result {
        match *self {
            Trouble::Copied => f.write_str(
                "this folder is a copy of a desk's folder, and two that are at work lose letters; if the other one is gone, run adopt, which goes on with this one\n",
            ),
            Trouble::NoDesk => f.write_str(
                "there is no desk here: make one with open PAIR, or name its folder with --desk FOLDER\n",
            ),
            Trouble::EarlierDesk => f.write_str(
                "not done: this folder has a desk of an earlier version, whose boxes these servers don't have; open a new one in another folder, with the pair file that your operator gives you\n",
            ),
            Trouble::OtherDesk => f.write_str(
                "there is a desk with other servers here: name another folder with --desk FOLDER\n",
            ),
            Trouble::NoName(name) => write!(
                f,
                "there are no boxes of the name {name}; status shows the names\n"
            ),
            Trouble::Name(fault) => write!(f, "not done: {fault}\n"),
            Trouble::Damaged => f.write_str(
                "not done: a file of the desk is damaged; ask your operator\n",
            ),
            Trouble::Unseen => f.write_str(
                "not done: a letter is no text, so that no screen shows it: letters --out FOLDER writes it to a file first\n",
            ),
            Trouble::Full => f.write_str(
                "not done: the desk is full; run forget once you have what you need of its letters\n",
            ),
            _ => self.fmt_of_servers(f),
        }
    }

    fn fmt_of_servers<W: fmt::Write>(&self, f: &mut fmt::Formatter<W>) -> fmt::Result {
        match *self {
            Trouble::NoRoom => f.write_str(
                "not done: the servers have no room for these boxes; ask your operator\n",
            ),
            Trouble::Spent => f.write_str(
                "not done: this desk has used up its numbers; ask your operator for a new pair file\n",
            ),
            Trouble::Unreached(role) => {
                let server = server_name(role);
                write!(
                    f,
                    "not done yet: the {server} of the two servers wasn't reached; nothing is lost, run it again\n"
                )
            }
            Trouble::NoAnswer(role) => {
                let server = server_name(role);
                write!(
                    f,
                    "not done yet: the {server} of the two servers gave no whole answer; nothing is lost, run it again\n"
                )
            }
            Trouble::Busy(role) => {
                let server = server_name(role);
                write!(
                    f,
                    "not done yet: the {server} of the two servers is busy; nothing is lost, run it again in a moment\n"
                )
            }
            Trouble::NotYours(role) => {
                let server = server_name(role);
                write!(
                    f,
                    "not done: the {server} of the two servers doesn't take this desk's key; ask its operator for a new pair file\n"
                )
            }
            Trouble::Later => f.write_str("not done yet: nothing is lost, run it again\n"),
            Trouble::Behind(number) => write!(
                f,
                "not done: this desk's lane was used up to number {number} by another desk with the same pair file, or by a copy of this one; if no other is at work, run adopt, which goes on above that number\n"
            ),
            Trouble::UsedUp => f.write_str(
                "not done: somebody has used up all numbers of this desk's lane; ask your operator for a pair file with another lane, and open a new desk in another folder\n",
            ),
            Trouble::Refused(refusal) => write!(
                f,
                "not done: a server refused it ({refusal}); show this to your operator\n"
            ),
            _ => self.fmt_of_letters(f),
        }
    }

    fn fmt_of_letters<W: fmt::Write>(&self, f: &mut fmt::Formatter<W>) -> fmt::Result {
        match *self {
            Trouble::Old(Day { year, month, day }) => write!(
                f,
                "not sent: this card was good until {year:04}-{month:02}-{day:02}; ask for a new one\n"
            ),
            Trouble::ManyLetters => f.write_str(
                "not sent: eight letters are on their way already; run resume, or give one up: status shows them, and discard NUMBER does\n",
            ),
            Trouble::BadLetter(slot) => {
                let number = number_of(slot);
                write!(
                    f,
                    "not done: letter {number} on its way can't be read; discard {number} removes it\n"
                )
            }
            Trouble::NoLetters => f.write_str("no letter is on its way\n"),
            Trouble::NoLetterAt(number) => write!(
                f,
                "no letter {number} is on its way; status shows those that are\n"
            ),
            Trouble::WhichLetter => f.write_str(
                "not done: several letters are on their way; say which one with discard NUMBER\n",
            ),
            _ => Ok(()),
        }
    }
}
