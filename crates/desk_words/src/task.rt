//! What a desk is asked to do.

use desk_texts::Day;

/// A card has so many addresses where no other number is named.
pub const USUAL_COUNT: u32 = 16;

/// A card has at most so many.
pub const MOST_COUNT: u32 = 64;

/// At most so many letters are on their way at once, numbered from 1.
pub const MOST_LETTERS: u32 = 8;

/// What a desk is asked to do. The texts are the command line's own.
#[derive(Clone, Copy, Debug, PartialEq, Eq)]
pub enum DeskTask<'a> {
    /// Makes a desk for the pair of servers that the pair file at this path names.
    Open {
        pair: &'a str,
    },
    /// Registers so many boxes under a name, 1 to 64, and prints their card, with the last day that is named
    /// for it, if any.
    Box {
        name: &'a str,
        count: u32,
        until: Option<Day>,
    },
    /// Prints a card again.
    Card {
        name: &'a str,
    },
    /// Reads each box, and prints the new letters, or writes them into a folder.
    Letters {
        out: Option<&'a str>,
    },
    /// Leaves the letter in the file, or else on the input, with the card at this path.
    Send {
        card: &'a str,
        file: Option<&'a str>,
    },
    /// Gives up a letter that is on its way: the one of this number, 1 to 8, where one is named.
    Discard {
        number: Option<u32>,
    },
    /// Finishes what is under way.
    Resume,
    /// Goes on as the desk with a folder that was copied.
    Adopt,
    /// Closes the boxes of this name, or reads them for the last time and retires them now.
    Retire {
        name: &'a str,
        now: bool,
    },
    /// Forgets letters and old requests.
    Forget,
    /// Tells how the desk stands.
    Status,
    /// Prints the help.
    Help,
}
