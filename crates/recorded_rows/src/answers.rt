//! The lines of standard input, each printed with its answer.
use crate::fault::Fault;
use crate::parts::Part;
use std::io;
use std::io::{BufRead, BufReader};
use std::process::ExitCode;

// A line's question, which ends where its answer begins.
fn question_of(line: &str) -> &str {
    match line.split_once(" > ") {
        None => line,
        Some((question, _)) => question,
    }
}

// Prints what answers a line. Whether anything does.
fn answer_line<R: Print + Eprint + AllocGlobal>(
    rt: &R,
    part: &mut Part,
    line: &str,
) -> io::Result<bool> {
    let question = question_of(line);
    match part.answer(rt.alloc(), question) {
        Ok(text) => {
            print!(rt; "{text}")?;
            Ok(true)
        }
        Err(fault) => {
            eprintln!(rt; "{fault}: {question}")?;
            Ok(false)
        }
    }
}

// Prints the lines with their answers. Whether each has one.
fn answer_lines<R: Input + Print + Eprint + AllocGlobal>(
    rt: &R,
    part: &mut Part,
) -> io::Result<bool> {
    let alloc = rt.alloc();
    for line in BufReader::new(alloc, rt.reader())?.lines(alloc) {
        let line = line?;
        if !answer_line(rt, part, line.as_str())? {
            return Ok(false);
        }
    }
    Ok(true)
}

/// Prints the lines with their answers, up to the first that has none. It is a failure that a line has none, and what
/// it lacks is told on standard error.
pub(crate) fn print_all<R: Input + Print + Eprint + AllocGlobal>(rt: &R) -> io::Result<ExitCode> {
    let mut part = Part::Nothing;
    if answer_lines(rt, &mut part)? {
        Ok(ExitCode::SUCCESS)
    } else {
        Ok(ExitCode::FAILURE)
    }
}
