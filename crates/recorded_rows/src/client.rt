//! A client, and what it says of the last frame that came to it. Its contracts hide what it holds.
ghost use Rattle.std.specs.Prelude.{◌≡◌, length};
ghost use Rattle.express_words.specs.Limits.{IsWidth};
ghost use Rattle.frame_rules.specs.Room.{HasRoom};

use crate::fault::{Fault, Result};
use crate::fields::{address_of, bytes_of, first_of, number_of, seed_of};
use crate::texts::{bytes_text, front_of, progress_text, words};
use client_core::{Client, Progress, Request};
use express_words::Settings;
use frame_rules::FRAME_MAX;
use std::alloc::Global;
use std::marker::Model;

/// A client that takes requests in the words of a line.
pub(crate) struct ToldClient {
    client: Client,
    told: Progress,
    /// The message that was read last.
    message: Vec<u8>,
}

impl Model for ToldClient {
    ghost Value = { Unit {0} };

    ghost view = { λ _. tt };

    ghost invariant = { λ c. length c.message.items ≡ c.client.width };
}

// Written out, so that a function that lets one go sees one call and not the drop of each part.
impl Drop for ToldClient {
    fn drop(self) {
        let ToldClient {
            client: _,
            told: _,
            message: _,
        } = self;
    }
}

impl ToldClient {
    /// A client of this lane, to which no frame has come. The text has its seed, and behind that may stand how many boxes
    /// it has room for, which else is one more than there are, and its first serial.
    pub(crate) fn open(alloc: Global, lane: u16, text: &str, settings: &Settings) -> Result<Self>
        requires width { IsWidth settings.now.width }
    {
        let (seed, capacity, serial) = match text.split_once(' ') {
            None => (text, settings.boxes.saturating_add(1), 1),
            Some((seed, text)) => {
                let (capacity, serial) = first_of(text)?;
                (seed, number_of(capacity)?, number_of(serial)?)
            }
        };
        if capacity > 4097 || serial == 0 {
            return Err(Fault::Unknown);
        }
        let width = settings.width;
        Ok(ToldClient {
            client: Client::open(alloc, lane, &seed_of(seed)?, width, capacity, serial)?,
            told: Progress::Ignored,
            message: vec![in alloc; 0u8; width as usize]?,
        })
    }

    fn take(&mut self, alloc: Global, request: &Request<'_>) -> Result<String> {
        match self.client.ask(request) {
            Ok(()) => words(alloc, "taken"),
            Err(fault) => Ok(format!(in alloc; "{fault}")?),
        }
    }

    fn take_write(&mut self, alloc: Global, text: &str) -> Result<String> {
        let (target, digits) = first_of(text)?;
        let target = address_of(target)?;
        let message = bytes_of(alloc, digits)?;
        let message = message.as_slice();
        self.take(alloc, &Request::Write { target, message })
    }

    // Whether it takes a request, and if not, why: `register ADDRESS`, `write ADDRESS MESSAGE`, `read K` or
    // `retire K`.
    fn ask(&mut self, alloc: Global, text: &str) -> Result<String> {
        let (kind, text) = first_of(text)?;
        let request = match kind {
            "write" => return self.take_write(alloc, text),
            "register" => Request::Register {
                address: address_of(text)?,
            },
            "read" => Request::Read {
                own: number_of(text)?,
            },
            "retire" => Request::Retire {
                own: number_of(text)?,
            },
            _ => return Err(Fault::Unknown),
        };
        self.take(alloc, &request)
    }

    fn sent(&self, out: &mut [u8]) -> Option<(u8, usize)>
        requires room { HasRoom out.old }
    {
        self.client.send(out)
    }

    // The frame of its present step, if it has a request, and whom it is for: the leader is server 0, the helper 1.
    fn send(&self, alloc: Global) -> Result<String> {
        let mut out = [0u8; FRAME_MAX];
        let Some((server, length)) = self.sent(&mut out) else {
            return words(alloc, "-");
        };
        let digits = bytes_text(alloc, front_of(&out, length))?;
        let name = if server == 0 { "leader" } else { "helper" };
        Ok(format!(in alloc; "{name}.client {digits}")?)
    }

    // A frame comes. A client answers none.
    fn hear(&mut self, alloc: Global, digits: &str) -> Result<String> {
        let frame = bytes_of(alloc, digits)?;
        self.told = self.client.on_reply(&frame, &mut self.message);
        words(alloc, "-")
    }

    /// What it answers: a request that it is asked, the frame that it sends, what the last frame did (`ignored`, as long
    /// as none has come), or a frame that comes.
    pub(crate) fn answer(&mut self, alloc: Global, word: &str, text: &str) -> Result<String> {
        match word {
            "ask" => self.ask(alloc, text),
            "send" => self.send(alloc),
            "told" => progress_text(alloc, self.told, self.message.as_slice()),
            _ => self.hear(alloc, text),
        }
    }
}
