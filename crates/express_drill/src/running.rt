//! A program that runs beside the drill.
ghost use Rattle.std.specs.Prelude.{◌≡◌, ◌↔◌, IsTrue, Some, pos};
ghost use Rattle.std.specs.Process.{exit_code};

use crate::fault::Fault;
use crate::order::Order;
use crate::plan::LISTENING;
use crate::step::Step;
use std::io::{Read, Write};
use std::os::unix::process::ExitStatusExt;
use std::process::{Child, Command, ExitStatus, OpenProcess, Processes, Stdio};
use std::rt::Clock;
use std::thread;
use std::time::Duration;

/// A program may take so many hundredths of a second until it ends.
const PATIENCE: u32 = 6000;

/// The signal that ends a program at once.
const KILLED: i32 = 9;

/// A program of the drill that was started. It has no `Drop`: what has it must end it, by `finish` or `stop`, so
/// none is left behind.
pub struct Running<P: OpenProcess> {
    step: Step,
    child: Child<P>,
    heard: Vec<u8>,
}

// Whether a program ended with status 0 and printed what it must.
fn is_as_wanted(status: ExitStatus, heard: &[u8], wanted: &str) -> bool
    ensures { IsTrue result ↔ ((exit_code status ≡ Some (pos 0)) × (heard.now ≡ wanted.now)) }
{
    status.success() && heard == wanted.as_bytes()
}

// Reads on until so many bytes were heard, or the program has ended its output.
fn hear<T: Read>(output: &mut T, heard: &mut Vec<u8>, enough: usize) -> Result<(), Fault> {
    let mut piece = [0u8; 256];
    'hearing: while heard.len() < enough {
        let count = output.read(&mut piece)?;
        if count == 0 {
            return Ok(());
        }
        heard.extend_from_slice(&piece[..count])?;
    }
    Ok(())
}

// Waits for the program's end, but not for ever.
fn end_of<P: OpenProcess>(
    clock: &impl Clock,
    child: &mut Child<P>,
) -> Result<Option<ExitStatus>, Fault> {
    for _ in 0..PATIENCE {
        if let Some(status) = child.try_wait()? {
            return Ok(Some(status));
        }
        thread::sleep(clock, Duration::from_millis(10));
    }
    Ok(None)
}

// Ends a program, whatever it does.
fn kill<P: OpenProcess>(child: &mut Child<P>) -> Result<ExitStatus, Fault> {
    child.kill()?;
    Ok(child.wait()?)
}

/// Starts the program of a step with its settings on its standard input.
pub fn start<R: Processes + AllocGlobal>(
    rt: &R,
    order: &Order,
    step: Step,
) -> Result<Running<R::Started>, Fault> {
    let alloc = rt.alloc();
    let settings = step.settings(alloc, order.port)?;
    let mut command = Command::new(alloc, order.program.as_str())?;
    let mut child = command
        .arg(step.word())?
        .stdin(Stdio::piped())
        .stdout(Stdio::piped())
        .spawn(rt)?;
    if let Some(mut input) = child.stdin.take() {
        // a program that doesn't take its settings won't print what it must
        let _ = input.write_all(settings.as_bytes());
    }
    Ok(Running {
        step,
        child,
        heard: Vec::new(alloc),
    })
}

impl<P: OpenProcess + Drop> Running<P> {
    /// Whether it begins with the line that it listens. It is heard until then, or until its output ends.
    pub fn listens(&mut self) -> Result<bool, Fault> {
        self.hear(LISTENING.len())?;
        Ok(self.heard.starts_with(LISTENING.as_bytes()))
    }

    fn hear(&mut self, enough: usize) -> Result<(), Fault> {
        match &mut self.child.stdout {
            Some(output) => hear(output, &mut self.heard, enough),
            None => Err(Fault::NoProgram),
        }
    }

    // Whether a program that has ended so did what it must.
    fn is_right(&mut self, status: ExitStatus) -> Result<bool, Fault> {
        let wanted = self.step.wanted();
        self.hear(wanted.len() + 1)?;
        Ok(is_as_wanted(status, self.heard.as_slice(), wanted))
    }

    // Whether it ends in time, and did what it must. One that doesn't end is killed.
    fn ends_well(&mut self, clock: &impl Clock) -> Result<bool, Fault> {
        match end_of(clock, &mut self.child)? {
            Some(status) => self.is_right(status),
            None => {
                kill(&mut self.child)?;
                Ok(false)
            }
        }
    }

    // Whether it was still running, or had ended and done what it must. It doesn't run behind it.
    fn rests_well(&mut self) -> Result<bool, Fault> {
        let status = kill(&mut self.child)?;
        if status.signal() == Some(KILLED) {
            return Ok(true);
        }
        self.is_right(status)
    }

    /// Waits for its end: whether it printed what it must and ended with status 0.
    pub fn finish(mut self, clock: &impl Clock) -> Result<bool, Fault> {
        let well = self.ends_well(clock);
        if well.is_err() {
            let _ = kill(&mut self.child);
        }
        self.let_go();
        well
    }

    /// Ends it at once: whether it was still running, or had printed what it must and ended with status 0.
    pub fn stop(mut self) -> Result<bool, Fault> {
        let well = self.rests_well();
        self.let_go();
        well
    }

    fn let_go(self) {
        let Running {
            step: _,
            child,
            heard,
        } = self;
        drop(child);
        drop(heard);
    }
}
