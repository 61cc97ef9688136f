//! What a server that runs tells its operator.
use crate::console::{Console, LINE};
use crate::status_door::StatusDoor;
use server_status::{Lines, Status, Viewer};
use server_words::{Start, Stop};

/// Prints a line where the link turns and each minute, and answers who asks at the status door.
#[derive(Drop)]
pub struct Watch<'a> {
    rt: &'a HostRuntime,
    console: Console,
    door: Option<StatusDoor>,
    lines: Lines,
    line: String,
}

impl<'a> Watch<'a> {
    /// With this door, if there is one.
    pub fn open(rt: &'a HostRuntime, door: Option<StatusDoor>) -> Result<Watch<'a>, Stop> {
        Ok(Watch {
            rt,
            console: Console::open(rt).map_err(|_| Stop::Unopened)?,
            door,
            lines: Lines::NONE,
            line: String::with_capacity(rt.alloc(), LINE).map_err(|_| Stop::NoMemory)?,
        })
    }

    /// Prints that the server begins.
    pub fn begin(&mut self, start: &Start<'_>) {
        self.line.clear();
        if write!(self.line, "{start}").is_ok() {
            self.console.print(self.rt, self.line.as_str());
        }
    }

    fn print_status(&mut self, status: &Status) {
        self.line.clear();
        if write!(self.line, "{status}").is_ok() {
            self.console.print(self.rt, self.line.as_str());
        }
    }
}

impl Viewer for Watch<'_> {
    fn view(&mut self, status: &Status) {
        let due = self.lines.note(status);
        if let Some(turn) = due.turn {
            self.console.print(self.rt, turn.text());
        }
        if due.minute {
            self.print_status(status);
        }
        if let Some(door) = &self.door {
            door.answer(status, &mut self.line);
        }
    }
}
