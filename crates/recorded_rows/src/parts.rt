//! The parts of the input, each begun by a line of its own.
use crate::fault::{Fault, Result};
use crate::fields::first_of;
use crate::remembered::report;
use crate::scene::{LIMIT, Scene};
use crate::served::Rows;
use std::alloc::Global;

/// The settings before a recording tells its own.
const LEAST: &str = "16 1 1 1";

/// The part that a line stands in.
#[derive(Drop)]
pub(crate) enum Part {
    /// Before the first part, and behind one that has no lines.
    Nothing,
    /// Servers without journals, or with them.
    Recorded(Scene),
    Served(Rows),
}

// What stands before the first line of the part of this name.
fn head_of(alloc: Global, name: &str) -> Result<String> {
    let mut text = format!(in alloc; "part {name}\n")?;
    if name == "remembered" {
        text.push_str(report(alloc)?.as_str())?;
    }
    Ok(text)
}

impl Part {
    // The part of this name.
    fn of(alloc: Global, name: &str) -> Result<Part> {
        match name {
            "joined" => Ok(Part::Recorded(Scene::open(alloc, LEAST, None)?)),
            "served" => Ok(Part::Served(Rows::open(alloc)?)),
            "kept" => Ok(Part::Recorded(Scene::open(alloc, LEAST, Some(LIMIT))?)),
            "remembered" => Ok(Part::Nothing),
            _ => Err(Fault::Unknown),
        }
    }

    // What a part prints before its first line.
    fn begin(&mut self, alloc: Global, name: &str) -> Result<String> {
        *self = Part::of(alloc, name)?;
        head_of(alloc, name)
    }

    /// What is printed of a line with this question.
    pub(crate) fn answer(&mut self, alloc: Global, question: &str) -> Result<String> {
        let (word, text) = first_of(question)?;
        if word == "part" {
            return self.begin(alloc, text);
        }
        match self {
            Part::Nothing => Err(Fault::Unknown),
            Part::Recorded(scene) => scene.answer(alloc, question),
            Part::Served(rows) => rows.answer(alloc, word, text),
        }
    }
}
