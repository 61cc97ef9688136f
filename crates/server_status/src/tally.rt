//! Counts of what a server's connections did.
ghost use Rattle.std.specs.Prelude.{◌≡◌};
ghost use Rattle.server_status.specs.Tallies.{answered, closed_at, dropped_at, more, none, opened_at, waited};

use crate::status::WorkCounts;

/// What a server's connections did since it started. The place 0 is the other server's, all others are clients'.
/// A count stays at the largest number of 64 bits once it is there.
#[derive(Clone, Copy, Debug, PartialEq, Eq)]
pub struct Tally {
    /// The moment of the last wait, in milliseconds since the start.
    pub moment: u64,
    /// Clients' connections that came.
    pub came: u64,
    /// Those that gave way to others.
    pub dropped: u64,
    /// Those that ended, or whose time was over.
    pub closed: u64,
    /// Connections with the other server that came to stand.
    pub links: u64,
    /// Whether one stands.
    pub linked: bool,
    pub work: WorkCounts,
    /// Frames that were taken since the last wait.
    pub batch: u64,
}

fn more(count: u64) -> u64
    ensures { result ≡ more count }
{
    count.saturating_add(1)
}

impl Tally {
    /// Nothing was done yet.
    pub const NONE: Tally = Tally {
        moment: 0,
        came: 0,
        dropped: 0,
        closed: 0,
        links: 0,
        linked: false,
        work: WorkCounts {
            frames: 0,
            rounds: 0,
            batches: 0,
            largest: 0,
        },
        batch: 0,
    };

    /// A wait gave this moment: a round begins.
    pub fn begin_round(&mut self, now: u64)
        ensures { self.new ≡ waited now self.old }
    {
        self.moment = now;
        self.work.rounds = more(self.work.rounds);
        self.batch = 0;
    }

    /// A connection came to a place.
    pub fn connect(&mut self, place: usize)
        ensures { self.new ≡ opened_at place self.old }
    {
        if place == 0 {
            self.links = more(self.links);
            self.linked = true;
        } else {
            self.came = more(self.came);
        }
    }

    /// The connection at a place ended, or its time was over.
    pub fn disconnect(&mut self, place: usize)
        ensures { self.new ≡ closed_at place self.old }
    {
        if place == 0 {
            self.linked = false;
        } else {
            self.closed = more(self.closed);
        }
    }

    /// The connection at a place gave way to another.
    pub fn drop_one(&mut self, place: usize)
        ensures { self.new ≡ dropped_at place self.old }
    {
        if place == 0 {
            self.linked = false;
        } else {
            self.dropped = more(self.dropped);
        }
    }

    /// A frame was taken.
    pub fn answer(&mut self)
        ensures { self.new ≡ answered self.old }
    {
        if self.batch == 0 {
            self.work.batches = more(self.work.batches);
        }
        self.batch = more(self.batch);
        self.work.frames = more(self.work.frames);
        self.work.largest = self.work.largest.max(self.batch);
    }
}
