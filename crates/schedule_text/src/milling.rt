//! The schedule of a mill: 20 clients register 64 boxes, write so many messages, and read all boxes.
ghost use Rattle.std.specs.Prelude.{◌≡◌, ◌≤◌, ◌<◌, ◌++◌, IfOk, OnOk};
ghost use Rattle.schedule_text.specs.Mill.{mill_seed, mill_address, mill_message, asked_and_finished};
ghost use Rattle.schedule_text.specs.Mill.{mill_registers, mill_writes, mill_reads, mill_schedule};
ghost use Rattle.schedule_text.specs.Rules.{KeepsRules};

use crate::schedule::{Asked, Event, Header, Schedule};
use chacha_expand::draw32;
use express_words::{List, NoMemory, Settings};
use std::alloc::Global;

const BOXES: u16 = 64;

const CLIENTS: u16 = 20;

// A draw of 32 bytes stands so often in a message.
const COPIES: usize = 32;

const SETTINGS: Settings = Settings {
    width: 1024,
    boxes: BOXES as u32,
    lanes: CLIENTS,
    window: 1,
};

// The number as 8 bytes, the lowest first, and 24 zero bytes.
#[tactic(auto, unfolding(crate::specs::Mill::mill_seed))]
fn mill_seed(number: u16) -> [u8; 32]
    ensures { result ≡ mill_seed number }
{
    let mut seed = [0u8; 32];
    seed[..8].copy_from_slice(&u64::from(number).to_le_bytes());
    seed
}

// Address i: six bits of i above 121 drawn ones.
#[tactic(auto, unfolding(crate::specs::Mill::mill_address))]
fn mill_address(seed: &[u8; 32], i: u16) -> u128
    requires { i < 64 }
    ensures { result ≡ mill_address seed.now i }
{
    let drawn = draw32(seed, (1 << 32) + u64::from(i));
    let mut front = [0u8; 16];
    front.copy_from_slice(&drawn[..16]);
    u128::from(i) * (1 << 121) + u128::from_be_bytes(front) / 128
}

// Message j: a draw of 32 bytes, 32 times.
#[tactic(auto, unfolding(crate::specs::Mill::mill_message))]
fn mill_message(alloc: Global, seed: &[u8; 32], j: u16) -> Result<Vec<u8>, NoMemory>
    ensures { IfOk result (λ message. message.items ≡ mill_message seed.now j) }
{
    let drawn = draw32(seed, (1 << 33) + u64::from(j));
    let mut message = Vec::new(alloc);
    for _copies in 0..COPIES {
        message.extend_from_slice(&drawn)?;
    }
    Ok(message)
}

// A client is asked, and its requests are worked off.
#[tactic(auto, unfolding(crate::specs::Mill::asked_and_finished))]
fn ask_and_finish(events: &mut Vec<Event>, client: u16, asked: Asked) -> Result<(), NoMemory>
    ensures { OnOk result (events.new.items ≡ events.old.items ++ asked_and_finished client asked) }
{
    events.push(Event::Ask(client, asked))?;
    events.push(Event::Finish(client))?;
    Ok(())
}

#[tactic(auto, unfolding(crate::specs::Mill::mill_registers))]
fn add_registers(events: &mut Vec<Event>, seed: &[u8; 32]) -> Result<(), NoMemory>
    ensures { OnOk result (events.new.items ≡ events.old.items ++ mill_registers seed.now 64) }
{
    for i in 0..BOXES {
        let address = mill_address(seed, i);
        ask_and_finish(events, i % CLIENTS, Asked::Register(address))?;
    }
    Ok(())
}

#[tactic(auto, unfolding(crate::specs::Mill::mill_writes))]
fn add_writes(
    alloc: Global,
    events: &mut Vec<Event>,
    seed: &[u8; 32],
    number: u16,
) -> Result<(), NoMemory>
    requires { number ≤ 5000 }
    ensures { OnOk result (events.new.items ≡ events.old.items ++ mill_writes seed.now number) }
{
    for j in 0..number {
        let target = mill_address(seed, 11 * j % BOXES);
        let message = mill_message(alloc, seed, j)?;
        ask_and_finish(
            events,
            (7 * j + 3) % CLIENTS,
            Asked::Write(target, List::from_vec(message)),
        )?;
    }
    Ok(())
}

#[tactic(auto, unfolding(crate::specs::Mill::mill_reads))]
fn add_reads(events: &mut Vec<Event>) -> Result<(), NoMemory>
    ensures { OnOk result (events.new.items ≡ events.old.items ++ mill_reads 64) }
{
    for i in 0..BOXES {
        ask_and_finish(events, i % CLIENTS, Asked::Read(u32::from(i / CLIENTS)))?;
    }
    Ok(())
}

#[tactic(auto, unfolding(crate::specs::Mill::mill_schedule))]
fn milled(alloc: Global, number: u16) -> Result<Schedule, NoMemory>
    requires { number ≤ 5000 }
    ensures { IfOk result (λ schedule. schedule ≡ mill_schedule number) }
{
    let seed = mill_seed(number);
    let mut events = Vec::new(alloc);
    add_registers(&mut events, &seed)?;
    add_writes(alloc, &mut events, &seed, number)?;
    add_reads(&mut events)?;
    Ok(Schedule {
        header: Header {
            settings: SETTINGS,
            seed,
        },
        events: List::from_vec(events),
    })
}

/// The mill's schedule of a number up to 5,000: so many writes, between the registers and the reads of 64
/// boxes.
pub fn mill(alloc: Global, number: u16) -> Result<Schedule, NoMemory>
    requires { number ≤ 5000 }
    ensures schedule { IfOk result (λ schedule. schedule ≡ mill_schedule number) }
    ensures rules { IfOk result (λ schedule. KeepsRules schedule) }
{
    milled(alloc, number)
}
