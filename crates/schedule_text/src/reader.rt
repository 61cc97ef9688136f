//! Reads the text of a schedule.
ghost use Rattle.std.specs.Prelude.{◌≡◌, ◌≤◌, ◌<◌, [], List as Listed, IfOk};
ghost use Rattle.schedule_text.specs.Grammar.{event_after, events_from, schedule_of};
ghost use Rattle.express_texts.specs.Lines.{lines_of};
ghost use Rattle.schedule_text.specs.Reading.{Gives};
ghost use Rattle.schedule_text.specs.Judging.{Judges};
ghost use Rattle.schedule_text.specs.Rules.{KeepsRules};
ghost use Rattle.schedule_text.specs.Tables.{IsTableOf, NotesFound};
ghost use Rattle.schedule_text.specs.declared.schedule.Event.{Event as Happening};

use crate::events::event_of;
use crate::fault::ReadFault;
use crate::header::header_of;
use crate::lanes::Lanes;
use crate::schedule::{Event, MOST_EVENTS, Schedule};
use express_texts::first_line;
use express_words::{List, NoMemory, Settings};
use std::alloc::Global;

// The event of a line that stands behind those that were noted; it is noted too.
#[tactic(auto, unfolding(crate::specs::Grammar::event_after))]
fn event_after(
    alloc: Global,
    settings: &Settings,
    lanes: &mut Lanes,
    line: &[u8],
) -> Result<Option<Event>, NoMemory>
    requires some { 0 < settings.now.lanes }
    requires few { settings.now.lanes ≤ 256 }
    ensures event { (before : Listed Happening) → IsTableOf lanes.old before
        → IfOk result (λ found. found ≡ event_after settings.now before line.now) }
    ensures lanes { NotesFound lanes.old lanes.new result }
{
    match event_of(alloc, settings, line)? {
        None => Ok(None),
        Some(event) => {
            if lanes.allow(&event) {
                lanes.note(&event);
                Ok(Some(event))
            } else {
                Ok(None)
            }
        }
    }
}

// The events of all lines behind the header.
fn read_events(alloc: Global, settings: &Settings, text: &[u8]) -> Result<Vec<Event>, ReadFault>
    requires some { 0 < settings.now.lanes }
    requires few { settings.now.lanes ≤ 256 }
    ensures { Gives (λ events. events.items) result (events_from settings.now [] (lines_of text.now)) }
{
    let mut events = Vec::new(alloc);
    let mut lanes = Lanes::new();
    let mut rest = text;
    while !rest.is_empty() {
        let bad = ReadFault::BadLine(events.len() as u32 + 2);
        let (line, behind) = first_line(rest);
        if events.len() == MOST_EVENTS {
            return Err(bad);
        }
        match event_after(alloc, settings, &mut lanes, line)? {
            None => return Err(bad),
            Some(event) => events.push(event)?,
        }
        rest = behind;
    }
    Ok(events)
}

#[tactic(auto, unfolding(crate::specs::Grammar::schedule_of_lines, express_texts::specs::Lines::lines_of))]
fn read_text(alloc: Global, text: &[u8]) -> Result<Schedule, ReadFault>
    ensures { Gives (λ schedule. schedule) result (schedule_of text.now) }
{
    if text.is_empty() {
        return Err(ReadFault::BadLine(1));
    }
    let (line, rest) = first_line(text);
    match header_of(line) {
        None => Err(ReadFault::BadLine(1)),
        Some(header) => match read_events(alloc, &header.settings, rest) {
            Err(fault) => Err(fault),
            Ok(events) => Ok(Schedule {
                header,
                events: List::from_vec(events),
            }),
        },
    }
}

/// The schedule that the text spells, or its first bad line.
pub fn read(alloc: Global, text: &[u8]) -> Result<Schedule, ReadFault>
    ensures judges { Judges text.now result }
    ensures schedule { Gives (λ schedule. schedule) result (schedule_of text.now) }
    ensures rules { IfOk result (λ schedule. KeepsRules schedule) }
{
    read_text(alloc, text)
}
