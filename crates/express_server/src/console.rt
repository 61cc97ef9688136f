//! Lines on standard output, none of which is ever waited for.
use mio::unix::SourceFd;
use mio::{Events, Interest, Poll, Token};
use std::io;
use std::io::Write;
use std::os::fd::RawFd;
use std::time::Duration;

/// Standard output.
const STDOUT: RawFd = 1;

/// The longest line, with its end: a pipe that has room at all takes so many bytes at once.
pub const LINE: usize = 4096;

/// Standard output. A line that it can't take at once, as where it is a pipe that nobody reads, is left out.
#[derive(Drop)]
pub struct Console {
    poll: Poll,
    events: Events,
    // Files and the like can't be watched: they take lines at any time.
    watched: bool,
    line: String,
}

impl Console {
    /// This alone takes memory, for one line.
    pub fn open(rt: &HostRuntime) -> io::Result<Console> {
        let poll = Poll::new(rt)?;
        let watched = poll
            .registry()
            .register(&mut SourceFd(&STDOUT), Token(0), Interest::WRITABLE)
            .is_ok();
        Ok(Console {
            poll,
            events: Events::with_capacity(rt.alloc(), 1)?,
            watched,
            line: String::with_capacity(rt.alloc(), LINE)?,
        })
    }

    // Whether a line can be written without waiting, to somebody who reads.
    fn has_room(&mut self) -> bool {
        if !self.watched {
            return true;
        }
        // Registered anew, so that it is reported also where nothing has changed.
        let again = self
            .poll
            .registry()
            .reregister(&mut SourceFd(&STDOUT), Token(0), Interest::WRITABLE);
        if again.is_err()
            || self
                .poll
                .poll(&mut self.events, Some(Duration::ZERO))
                .is_err()
        {
            return false;
        }
        let mut has_room = false;
        for event in &self.events {
            has_room = event.is_writable() && !event.is_error();
        }
        has_room
    }

    /// Prints a line, if there is room for it now.
    pub fn print(&mut self, rt: &HostRuntime, text: &str) {
        if text.len() >= LINE || !self.has_room() {
            return;
        }
        self.line.clear();
        if self.line.push_str(text).is_ok() && self.line.push('\n').is_ok() {
            let _taken = io::writer(rt).write(self.line.as_bytes());
        }
    }
}
