//! When a line is due.
ghost use Rattle.std.specs.Prelude.{◌≡◌, ◌+◌, ◌^◌, ◌-◌, min};
ghost use Rattle.server_status.specs.Lines.{minute_due, seen, turn_of};

use crate::status::{LinkTurn, Status};

/// So many seconds lie between two lines that nothing else calls for.
const PAUSE: u64 = 60;

/// What is to be printed now.
#[derive(Clone, Copy, Debug, PartialEq, Eq)]
pub struct Due {
    /// What became of the link.
    pub turn: Option<LinkTurn>,
    /// Whether the line of a minute is due.
    pub minute: bool,
}

/// What was printed last: how the link stood and how many connections it had had, and the second from which on
/// the next minute's line is due.
#[derive(Clone, Copy, Debug, PartialEq, Eq)]
pub struct Lines {
    pub link: LinkTurn,
    pub links: u64,
    pub from: u64,
}

impl Lines {
    /// Nothing was printed yet: the link is down.
    pub const NONE: Lines = Lines {
        link: LinkTurn::Down,
        links: 0,
        from: PAUSE,
    };

    // The link's turn: also where a connection took the place of one that stood.
    fn turn(&self, status: &Status) -> Option<LinkTurn>
        ensures { result ≡ turn_of self.now status.now }
    {
        match (self.link, status.link) {
            (LinkTurn::Up, LinkTurn::Down) => Some(LinkTurn::Down),
            (_, LinkTurn::Up) if self.links != status.links => Some(LinkTurn::Up),
            _ => None,
        }
    }

    /// What is to be printed of this status, which is taken for printed then.
    pub fn note(&mut self, status: &Status) -> Due
        ensures turn { result.turn ≡ turn_of self.old status.now }
        ensures minute { result.minute ≡ minute_due self.old status.now }
        ensures seen { self.new ≡ seen self.old status.now }
    {
        let turn = self.turn(status);
        let minute = self.from <= status.seconds;
        self.link = status.link;
        self.links = status.links;
        if minute {
            self.from = status.seconds.saturating_add(PAUSE);
        }
        Due { turn, minute }
    }
}
