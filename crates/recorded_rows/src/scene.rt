//! The leader, the helper and the clients of a recording, whose servers have journals or none.
use crate::beginning::Beginning;
use crate::client::ToldClient;
use crate::fault::{Fault, Result};
use crate::fields::{bytes_of, first_of, number_of, seed_of};
use crate::records::{journal_text, records_text};
use crate::server::Server;
use node_restart::{Role, Sender};
use std::alloc::Global;

/// The limit of the journals, in bytes, where a recording tells none.
pub(crate) const LIMIT: u32 = 65536;

/// Both servers, and the clients that were told of.
#[derive(Drop)]
pub(crate) struct Scene {
    beginning: Beginning,
    /// The limit in bytes of the journals of servers that begin from now on; None where they have none.
    limit: Option<u32>,
    leader: Server,
    helper: Server,
    /// The clients of the first lanes; one where the servers have journals.
    clients: Vec<ToldClient>,
}

impl Scene {
    /// Both servers with no boxes and seeds of zeros, and no clients.
    pub(crate) fn open(alloc: Global, settings: &str, limit: Option<u32>) -> Result<Scene> {
        let beginning = Beginning::of(settings)?;
        Ok(Scene {
            leader: Server::open(alloc, beginning.with(Role::Leader, [0; 32]), limit)?,
            helper: Server::open(alloc, beginning.with(Role::Helper, [0; 32]), limit)?,
            beginning,
            limit,
            clients: Vec::new(alloc),
        })
    }

    // A recording with these settings begins.
    fn begin(&mut self, alloc: Global, settings: &str) -> Result<()> {
        *self = Scene::open(alloc, settings, self.limit.map(|_| LIMIT))?;
        Ok(())
    }

    // A server with this seed takes the place of the one that was there.
    fn renew(&mut self, alloc: Global, role: Role, seed: &str) -> Result<()> {
        let beginning = self.beginning.with(role, seed_of(seed)?);
        let server = Server::open(alloc, beginning, self.limit)?;
        match role {
            Role::Leader => self.leader = server,
            Role::Helper => self.helper = server,
        }
        Ok(())
    }

    // The number of a client, and what stands behind it. Where there is one client no number stands there.
    fn numbered<'a>(&self, text: &'a str) -> Result<(u16, &'a str)> {
        if self.limit.is_some() {
            return Ok((0, text));
        }
        match text.split_once(' ') {
            None => Ok((number_of(text)?, "")),
            Some((number, text)) => Ok((number_of(number)?, text)),
        }
    }

    // One more client, which has the next lane.
    fn join(&mut self, alloc: Global, text: &str) -> Result<()> {
        let (lane, text) = self.numbered(text)?;
        if self.limit.is_some() {
            self.clients.clear();
        }
        if usize::from(lane) != self.clients.len() {
            return Err(Fault::Unknown);
        }
        let beginning = self.beginning;
        let client = ToldClient::open(alloc, lane, text, &beginning.opening.settings)?;
        self.clients.push(client)?;
        Ok(())
    }

    // A line that begins a recording, or tells a limit or a seed of it. Whether it is one.
    fn prepare(&mut self, alloc: Global, word: &str, text: &str) -> Result<bool> {
        match word {
            "settings" => self.begin(alloc, text)?,
            "limit" if self.limit.is_some() => self.limit = Some(number_of(text)?),
            "leaderseed" => self.renew(alloc, Role::Leader, text)?,
            "helperseed" => self.renew(alloc, Role::Helper, text)?,
            "clientseed" => self.join(alloc, text)?,
            _ => return Ok(false),
        }
        Ok(true)
    }

    // What the client of this number answers.
    fn client(&mut self, alloc: Global, number: u16, word: &str, text: &str) -> Result<String> {
        let place = usize::from(number);
        if place < self.clients.len() {
            self.clients[place].answer(alloc, word, text)
        } else {
            Err(Fault::NoClient(number))
        }
    }

    // What the server that a frame is for answers.
    fn deliver(&mut self, alloc: Global, addressee: &str, digits: &str) -> Result<String> {
        let frame = bytes_of(alloc, digits)?;
        let frame = frame.as_slice();
        match addressee {
            "leader.client" => self.leader.answer(alloc, Sender::Client, frame),
            "leader.reply" => self.leader.answer(alloc, Sender::Peer, frame),
            "helper.client" => self.helper.answer(alloc, Sender::Client, frame),
            "helper.link" => self.helper.answer(alloc, Sender::Peer, frame),
            _ => Err(Fault::Unknown),
        }
    }

    // The leader's share of a box, and the helper's.
    fn shares(&self, alloc: Global, digits: &str) -> Result<String> {
        let number = number_of(digits)?;
        let first = self.leader.recorded()?.share(alloc, number)?;
        let second = self.helper.recorded()?.share(alloc, number)?;
        Ok(format!(in alloc; "{first} {second}")?)
    }

    fn crashes(&self, alloc: Global, name: &str) -> Result<String> {
        match name {
            "leader" => self.leader.recorded()?.crashes(alloc),
            "helper" => self.helper.recorded()?.crashes(alloc),
            _ => Err(Fault::Unknown),
        }
    }

    fn reply(&mut self, alloc: Global, word: &str, text: &str) -> Result<String> {
        if let Some(digits) = word.strip_prefix("client") {
            let (number, _) = self.numbered(digits)?;
            return self.client(alloc, number, "hear", text);
        }
        match word {
            "ask" | "send" | "told" => {
                let (number, text) = self.numbered(text)?;
                self.client(alloc, number, word, text)
            }
            "journal" => journal_text(alloc, text),
            "records" => records_text(alloc, text),
            "shares" => self.shares(alloc, text),
            "crashes" => self.crashes(alloc, text),
            _ => self.deliver(alloc, word, text),
        }
    }

    /// What is printed of a line with this question.
    pub(crate) fn answer(&mut self, alloc: Global, question: &str) -> Result<String> {
        let (word, text) = first_of(question)?;
        if self.prepare(alloc, word, text)? {
            return Ok(format!(in alloc; "{question}\n")?);
        }
        match self.reply(alloc, word, text) {
            Ok(answer) => Ok(format!(in alloc; "{question} > {answer}\n")?),
            // The fault of a journal is an answer too.
            Err(fault @ (Fault::Journal(_) | Fault::Foreign(_))) => {
                Ok(format!(in alloc; "{question} > {fault}\n")?)
            }
            Err(fault) => Err(fault),
        }
    }
}
