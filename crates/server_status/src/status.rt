//! The line that tells how a server stands.
ghost use Rattle.std.specs.Prelude.{◌≡◌, Some};
ghost use Rattle.server_status.specs.Texts.{clients_text, figures_text, status_text, turn_text, work_text};

use crate::figures::Figures;
use std::fmt;

/// What became of the link to the other server.
#[derive(Clone, Copy, Debug, PartialEq, Eq)]
pub enum LinkTurn {
    /// It stands.
    Up,
    /// It doesn't.
    Down,
}

impl LinkTurn {
    /// Its line.
    pub fn text(self) -> &'static str
        ensures { result.now ≡ turn_text self }
    {
        match self {
            LinkTurn::Up => "link up",
            LinkTurn::Down => "link down",
        }
    }
}

impl fmt::Display for LinkTurn {
    ghost output = { λ turn. Some (turn_text turn) };

    fn fmt<W: fmt::Write>(&self, f: &mut fmt::Formatter<W>) -> fmt::Result {
        f.write_str(self.text())
    }
}

/// Clients' connections.
#[derive(Clone, Copy, Debug, PartialEq, Eq)]
pub struct ClientCounts {
    /// Those that stand now.
    pub present: u64,
    /// Those that gave way to others.
    pub dropped: u64,
    /// Those that ended, or whose time was over.
    pub closed: u64,
}

impl fmt::Display for ClientCounts {
    ghost output = { λ counts. Some (clients_text counts) };

    fn fmt<W: fmt::Write>(&self, f: &mut fmt::Formatter<W>) -> fmt::Result {
        write!(
            f,
            "clients {}, dropped {}, closed {}",
            self.present, self.dropped, self.closed
        )
    }
}

/// What a server did.
#[derive(Clone, Copy, Debug, PartialEq, Eq)]
pub struct WorkCounts {
    /// Frames that were taken.
    pub frames: u64,
    /// Rounds.
    pub rounds: u64,
    /// Rounds that took a frame: batches of the log.
    pub batches: u64,
    /// The most frames of a batch.
    pub largest: u64,
}

impl fmt::Display for WorkCounts {
    ghost output = { λ counts. Some (work_text counts) };

    fn fmt<W: fmt::Write>(&self, f: &mut fmt::Formatter<W>) -> fmt::Result {
        write!(
            f,
            "frames {}, rounds {}, batches {}, largest {}",
            self.frames, self.rounds, self.batches, self.largest
        )
    }
}

impl fmt::Display for Figures {
    ghost output = { λ figures. Some (figures_text figures) };

    fn fmt<W: fmt::Write>(&self, f: &mut fmt::Formatter<W>) -> fmt::Result {
        write!(
            f,
            "boxes {}, lanes {}, leases {}, outstanding {}",
            self.boxes, self.lanes, self.leases, self.outstanding
        )
    }
}

/// How a server stands. Its line is the same wherever it is told.
#[derive(Clone, Copy, Debug, PartialEq, Eq)]
pub struct Status {
    /// Whole seconds since it started.
    pub seconds: u64,
    /// Whether the link stands.
    pub link: LinkTurn,
    /// How many connections with the other server came to stand.
    pub links: u64,
    pub clients: ClientCounts,
    pub work: WorkCounts,
    /// The log's bytes.
    pub bytes: u64,
    pub figures: Figures,
}

impl fmt::Display for Status {
    ghost output = { λ status. Some (status_text status) };

    fn fmt<W: fmt::Write>(&self, f: &mut fmt::Formatter<W>) -> fmt::Result {
        write!(
            f,
            "serving {} seconds, {}, links {}, {}, {}, log {} bytes, {}",
            self.seconds, self.link, self.links, self.clients, self.work, self.bytes, self.figures
        )
    }
}
