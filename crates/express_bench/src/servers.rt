//! Whole writes of 1,024 bytes: a client, the leader and the helper, with each frame handed over at once.
ghost use Rattle.std.specs.Prelude.{◌≡◌, ◌<◌};

use crate::parts::WIDTH;
use chacha_expand::children;
use client_core::{Client, Outcome, Progress, Request};
use dpf_eval::Steps;
use express_words::{NoMemory, Settings};
use helper_core::{Helper, LinkTurn};
use leader_core::{Ack, Leader, Turn};
use std::alloc::Global;
use std::marker::{Brand, Model};
use std::sync::ledger::{Blank, Ledger};

const FRAME: usize = 8213;

type Room = [u8; FRAME];

/// Both servers. Contracts see nothing of them, so that functions that hold them have short proofs.
struct Servers {
    leader: Leader,
    helper: Helper,
}

impl Model for Servers {
    ghost Value = { Unit {0} };

    ghost view = { λ _. tt };
}

// Written out, so that a function that lets them go sees one call and not the drop of each part.
impl Drop for Servers {
    fn drop(self) {
        let Servers {
            leader: _,
            helper: _,
        } = self;
    }
}

fn front(bytes: &[u8], count: usize) -> &[u8] {
    &bytes[..count.min(bytes.len())]
}

impl Servers {
    fn open(alloc: Global, settings: &Settings) -> Result<Servers, NoMemory> {
        Ok(Servers {
            leader: Leader::open(alloc, settings, &[1; 32])?,
            helper: Helper::open(alloc, settings, &[2; 32])?,
        })
    }

    fn carry<L: Ledger>(
        &mut self,
        command: &[u8],
        out: &mut Room,
        steps: &mut Steps<L>,
    ) -> LinkTurn {
        self.helper.on_link(command, out, steps)
    }

    fn hear(&mut self, reply: &[u8], out: &mut Room) -> Ack {
        self.leader.on_link_reply(reply, out)
    }

    // Hands a command, which stands in `out`, to the helper and its reply to the leader, and so on until the leader has
    // a reply for the client, whose length is given.
    fn relay<L: Ledger>(
        &mut self,
        command: usize,
        frame: &mut Room,
        out: &mut Room,
        steps: &mut Steps<L>,
    ) -> usize {
        let mut length = command;
        for _turn in 0..2u8 {
            let LinkTurn::Carried(reply) = self.carry(front(out, length), frame, steps) else {
                return 0;
            };
            match self.hear(front(frame, reply), out) {
                Ack::Reply(_, told) => return told,
                Ack::Link(_, next) => length = next,
                Ack::Ignored => return 0,
            }
        }
        0
    }

    fn help(&mut self, frame: &[u8], out: &mut Room) -> usize {
        self.helper.on_client(frame, out)
    }

    fn lead<L: Ledger>(&mut self, frame: &[u8], out: &mut Room, steps: &mut Steps<L>) -> Turn {
        self.leader.on_client(frame, out, steps)
    }

    // Hands a frame of the client to its server; the reply is left in `out`, and its length is given.
    fn answer<L: Ledger>(
        &mut self,
        server: u8,
        count: usize,
        frame: &mut Room,
        out: &mut Room,
        steps: &mut Steps<L>,
    ) -> usize {
        if server == 1 {
            return self.help(front(frame, count), out);
        }
        match self.lead(front(frame, count), out, steps) {
            Turn::Reply(length) => length,
            Turn::Link(_, length) => self.relay(length, frame, out, steps),
            Turn::Waiting(_) => 0,
        }
    }
}

/// A client whose messages have the width. Contracts see nothing else of it.
struct Writer {
    client: Client,
}

impl Model for Writer {
    ghost use Rattle.std.specs.Prelude.{◌≡◌};

    ghost Value = { Unit {0} };

    ghost view = { λ _. tt };

    ghost invariant = { λ w. w.client.width ≡ 1024 };
}

impl Drop for Writer {
    fn drop(self) {
        let Writer { client: _ } = self;
    }
}

impl Writer {
    fn open(alloc: Global) -> Result<Writer, NoMemory> {
        let client = Client::open(alloc, 0, &[7; 32], WIDTH as u32, 4097, 1)?;
        Ok(Writer { client })
    }

    fn asks(&mut self, request: &Request<'_>) -> bool {
        self.client.ask(request).is_ok()
    }

    fn send(&self, out: &mut Room) -> Option<(u8, usize)> {
        self.client.send(out)
    }

    fn hear(&mut self, reply: &[u8]) -> Progress {
        let mut message = [0u8; WIDTH];
        self.client.on_reply(reply, &mut message)
    }
}

// Carries the writer's request to its end. Whether it was done and not refused.
fn finish<L: Ledger>(servers: &mut Servers, writer: &mut Writer, steps: &mut Steps<L>) -> bool {
    let mut frame = [0u8; FRAME];
    let mut out = [0u8; FRAME];
    for _step in 0..8u8 {
        let Some((server, count)) = writer.send(&mut frame) else {
            return false;
        };
        let length = servers.answer(server, count, &mut frame, &mut out, steps);
        match writer.hear(front(&out, length)) {
            Progress::Finished(Outcome::Refused(_)) => return false,
            Progress::Finished(_) => return true,
            _ => {}
        }
    }
    false
}

// Addresses that look random.
fn address(number: u32) -> u128 {
    children(2 * u128::from(number)).0
}

fn register_all<L: Ledger>(
    servers: &mut Servers,
    writer: &mut Writer,
    boxes: u32,
    steps: &mut Steps<L>,
) {
    for number in 0..boxes {
        let request = Request::Register {
            address: address(number),
        };
        if writer.asks(&request) {
            finish(servers, writer, steps);
        }
    }
}

// How many of the writes are accepted.
fn write_all<L: Ledger>(
    servers: &mut Servers,
    writer: &mut Writer,
    times: u32,
    steps: &mut Steps<L>,
) -> u128 {
    let mut accepted = 0u128;
    for number in 0..times {
        let request = Request::Write {
            target: address(number),
            message: &[1; WIDTH],
        };
        if writer.asks(&request) {
            let done = finish(servers, writer, steps);
            accepted = accepted.wrapping_add(u128::from(done));
        }
    }
    accepted
}

// Registers so many boxes, and writes to so many of them, with a counter of their own.
fn all<L: Ledger>(
    blank: Blank,
    servers: &mut Servers,
    writer: &mut Writer,
    boxes: u32,
    times: u32,
) -> u128
    requires name { blank.name ≡ L.name }
    requires parts { blank.parts ≡ L.parts }
    requires shared { 0 < blank.parts }
{
    let mut steps = Steps::<L>::new(blank);
    register_all(servers, writer, boxes, &mut steps);
    write_all(servers, writer, times, &mut steps)
}

/// How many of so many whole writes to so many boxes are accepted.
pub fn by_writes(alloc: Global, boxes: u32, times: u32) -> Result<u128, NoMemory> {
    let Some(settings) = Settings::new(WIDTH as u32, boxes, 1, 1) else {
        return Ok(0);
    };
    let mut servers = Servers::open(alloc, &settings)?;
    let mut writer = Writer::open(alloc)?;
    Ok(all::<Brand>(Blank::new(1), &mut servers, &mut writer, boxes, times))
}

/// Opens a leader of the largest settings.
pub fn leader(alloc: Global) -> Result<u128, NoMemory> {
    let Some(settings) = Settings::new(4096, 4096, 256, 32) else {
        return Ok(0);
    };
    let leader = Leader::open(alloc, &settings, &[1; 32])?;
    Ok(u128::from(leader.count()))
}

/// Opens a helper of the largest settings.
pub fn helper(alloc: Global) -> Result<u128, NoMemory> {
    let Some(settings) = Settings::new(4096, 4096, 256, 32) else {
        return Ok(0);
    };
    let helper = Helper::open(alloc, &settings, &[2; 32])?;
    Ok(u128::from(helper.count()))
}
