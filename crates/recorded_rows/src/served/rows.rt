//! The lines of the input, and what each of them prints.
use crate::beginning::Beginning;
use crate::fault::{Fault, Result};
use crate::fields::{bytes_of, first_of, seed_of};
use crate::served::failure::{Failure, Place};
use crate::served::link::Link;
use crate::served::server::Server;
use crate::served::step::{Exchange, Step};
use node_restart::Role;
use std::alloc::Global;

/// So many calls of each object fail in turn.
const CALLS: u64 = 12;

const PLACES: [Place; 4] = [
    Place::Client,
    Place::Net,
    Place::Exchange(0),
    Place::Exchange(1),
];

/// How a leader begins, which does so anew for each line that is printed, what it has served then, and the exchanges that
/// its next step makes. Beside it stand a helper, and a leader whose link gives no connection; both go on from line to
/// line.
#[derive(Drop)]
pub struct Rows {
    beginning: Beginning,
    helper: Server,
    alone: Server,
    no_link: Link,
    steps: Vec<Step>,
    exchanges: Vec<Exchange>,
}

// Serves the step at this leader over a link of these exchanges, with no failure.
fn pass(alloc: Global, leader: &mut Server, step: &Step, left: &[Exchange]) -> Result<String> {
    let mut link = Link::new(alloc, left, &Failure::NONE)?;
    leader.serve(alloc, step, &mut link)
}

// The exchanges from the one on whose command waits; all of them where none waits.
fn left_of<'a>(step: &'a Step, waiting: &[u8]) -> &'a [Exchange] {
    let first = step.number_of(waiting).saturating_sub(1);
    let (_, left) = step.exchanges.split_at(first.min(step.exchanges.len()));
    left
}

// Serves the step at this leader over this link, and then once more with no failure.
fn fail(alloc: Global, leader: &mut Server, step: &Step, link: &mut Link) -> Result<String> {
    let first = leader.serve(alloc, step, link)?;
    let waiting = leader.waiting(alloc)?;
    let second = pass(alloc, leader, step, left_of(step, &waiting))?;
    Ok(format!(in alloc; "{first}; again: {second}")?)
}

// Serves the step of a line at this server.
fn serve_line(alloc: Global, server: &mut Server, link: &mut Link, text: &str) -> Result<String> {
    let step = Step::of(alloc, text, Vec::new(alloc))?;
    let told = server.serve(alloc, &step, link)?;
    let name = step.name.as_str();
    Ok(format!(in alloc; "{name}: {told}\n")?)
}

impl Rows {
    /// Servers with no boxes and seeds of zeros.
    pub fn open(alloc: Global) -> Result<Rows> {
        let beginning = Beginning::of("16 4 1 1")?;
        Ok(Rows {
            helper: Server::open(alloc, &beginning.with(Role::Helper, [0; 32]))?,
            alone: Server::open(alloc, &beginning)?,
            no_link: Link::new(alloc, &[], &Failure::NONE)?,
            steps: Vec::new(alloc),
            exchanges: Vec::new(alloc),
            beginning,
        })
    }

    // A leader that has served the steps before the present one.
    fn leader(&self, alloc: Global) -> Result<Server> {
        let mut leader = Server::open(alloc, &self.beginning)?;
        for step in &self.steps {
            pass(alloc, &mut leader, step, &step.exchanges)?;
        }
        Ok(leader)
    }

    // The step with no failure.
    fn plain_line(&self, alloc: Global, step: &Step) -> Result<String> {
        let mut leader = self.leader(alloc)?;
        let mut link = Link::new(alloc, &step.exchanges, &Failure::NONE)?;
        let told = leader.serve(alloc, step, &mut link)?;
        let sent = link.sent(&step.exchanges);
        let name = step.name.as_str();
        Ok(format!(in alloc; "leader, {name}: {told}; {sent}\n")?)
    }

    fn failing_line(&self, alloc: Global, step: &Step, failure: &Failure) -> Result<String> {
        let mut leader = self.leader(alloc)?;
        let mut link = Link::new(alloc, &step.exchanges, failure)?;
        let told = fail(alloc, &mut leader, step, &mut link)?;
        let name = step.name.as_str();
        Ok(format!(in alloc; "leader, {name}, {failure}: {told}\n")?)
    }

    // Each call of this place fails in turn.
    fn fail_each(&self, alloc: Global, step: &Step, place: Place) -> Result<String> {
        let mut lines = String::new(alloc);
        for number in 1..CALLS + 1 {
            let line = self.failing_line(alloc, step, &Failure { place, number })?;
            lines.push_str(line.as_str())?;
        }
        Ok(lines)
    }

    // A step of the leader: with no failure, and with each.
    fn lead(&mut self, alloc: Global, text: &str) -> Result<String> {
        let exchanges = std::mem::replace(&mut self.exchanges, Vec::new(alloc));
        let step = Step::of(alloc, text, exchanges)?;
        let mut lines = self.plain_line(alloc, &step)?;
        for place in &PLACES[..step.exchanges.len().clamp(1, 2) + 2] {
            lines.push_str(self.fail_each(alloc, &step, *place)?.as_str())?;
        }
        self.steps.push(step)?;
        Ok(lines)
    }

    // The helper answers the first step of the leader with other bytes.
    fn answer_badly(&self, alloc: Global, text: &str) -> Result<String> {
        let (name, answer) = first_of(text)?;
        let bad = Exchange {
            command: Vec::new(alloc),
            answer: bytes_of(alloc, answer)?,
        };
        let mut leader = Server::open(alloc, &self.beginning)?;
        let step = self.steps.first().ok_or(Fault::Unknown)?;
        let mut link = Link::new(alloc, &[bad], &Failure::NONE)?;
        let told = fail(alloc, &mut leader, step, &mut link)?;
        Ok(format!(in alloc; "leader, {name}: {told}\n")?)
    }

    // A line that prints nothing.
    fn prepare(&mut self, alloc: Global, word: &str, text: &str) -> Result<()> {
        match word {
            "leaderseed" => self.beginning = self.beginning.with(Role::Leader, seed_of(text)?),
            "helperseed" => {
                let beginning = self.beginning.with(Role::Helper, seed_of(text)?);
                self.helper = Server::open(alloc, &beginning)?;
            }
            "exchange" => self.exchanges.push(Exchange::of(alloc, text)?)?,
            _ => return Err(Fault::Unknown),
        }
        Ok(())
    }

    /// What is printed of a line.
    pub fn answer(&mut self, alloc: Global, word: &str, text: &str) -> Result<String> {
        match word {
            "leader" => self.lead(alloc, text),
            "helper" => {
                let line = serve_line(alloc, &mut self.helper, &mut self.no_link, text)?;
                Ok(format!(in alloc; "helper, {line}")?)
            }
            "alone" => {
                let line = serve_line(alloc, &mut self.alone, &mut self.no_link, text)?;
                Ok(format!(in alloc; "leader alone, {line}")?)
            }
            "answer" => self.answer_badly(alloc, text),
            _ => {
                self.prepare(alloc, word, text)?;
                Ok(String::new(alloc))
            }
        }
    }
}
