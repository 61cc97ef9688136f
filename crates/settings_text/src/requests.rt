//! The requests that a client is to make.
ghost use Rattle.std.specs.Prelude.{◌≡◌, ◌≤◌, All, codes, length, map, IfOk, IfSome};
ghost use Rattle.toml.specs.View.{view, table_view};
ghost use Rattle.settings_text.specs.Requests.{IsAsking, kind_of, write_of};
ghost use Rattle.settings_text.specs.Requests.{asking_of, asking_in, requests_in};
ghost use Rattle.settings_text.specs.Judging.{Gives};
ghost use Rattle.settings_text.specs.Keys.{needed};
ghost use Rattle.settings_text.specs.Values.{at_key, message_in, every};

use crate::digits::message_of;
use crate::faults::wrong_key;
use crate::values::{address_at, list_within, number_at, text_at, value_at};
use express_texts::{MOST_OWN, TextFault};
use express_words::{List, NoMemory};
use std::alloc::Global;
use toml::{Table, Value};

/// A client makes at most so many requests.
pub const MOST_REQUESTS: usize = 1000;

/// One request of a client.
#[derive(Drop)]
pub enum Asking {
    /// To register an address.
    Register(u128),
    /// To write a message, as long as the width, to an address.
    Write(u128, List<u8>),
    /// To read one of its own boxes, counted from 0 as it got them.
    Read(u32),
    /// To read one of its own boxes for the last time.
    Retire(u32),
}

/// Which of the four requests a table of the text asks.
#[derive(Clone, Copy, Debug, PartialEq, Eq)]
pub enum Kind {
    Register,
    Write,
    Read,
    Retire,
}

fn kind_of(name: &str) -> Option<Kind>
    ensures { result ≡ kind_of name.now }
{
    match name {
        "register" => Some(Kind::Register),
        "write" => Some(Kind::Write),
        "read" => Some(Kind::Read),
        "retire" => Some(Kind::Retire),
        _ => None,
    }
}

#[tactic(auto, unfolding(crate::specs::Values::message_in))]
fn message_in(alloc: Global, width: u32, value: &Value) -> Result<Option<List<u8>>, NoMemory>
    ensures value { IfOk result (λ message. message ≡ message_in width (view value.now)) }
    ensures width { IfOk result (λ message. IfSome message (λ bytes. length bytes ≡ width)) }
{
    match value.as_str() {
        Some(digits) => message_of(alloc, width, digits),
        None => Ok(None),
    }
}

// The message of a width under `message`.
fn message(alloc: Global, width: u32, table: &Table) -> Result<Option<List<u8>>, NoMemory>
    ensures value { IfOk result (λ message.
        message ≡ at_key (codes "message") (message_in width) (table_view table.now)) }
    ensures width { IfOk result (λ message. IfSome message (λ bytes. length bytes ≡ width)) }
{
    match value_at(table, "message") {
        Some(value) => message_in(alloc, width, value),
        None => Ok(None),
    }
}

#[tactic(auto, unfolding(crate::specs::Requests::write_of))]
fn write_of(alloc: Global, width: u32, table: &Table) -> Result<Option<Asking>, NoMemory>
    ensures value { IfOk result (λ asking. asking ≡ write_of width (table_view table.now)) }
    ensures limits { IfOk result (λ asking. IfSome asking (IsAsking width)) }
{
    let Some(address) = address_at(table, "address") else {
        return Ok(None);
    };
    match message(alloc, width, table)? {
        Some(message) => Ok(Some(Asking::Write(address, message))),
        None => Ok(None),
    }
}

#[tactic(auto, unfolding(crate::specs::Requests::asking_of))]
fn asking_of(
    alloc: Global,
    width: u32,
    kind: Kind,
    table: &Table,
) -> Result<Option<Asking>, NoMemory>
    ensures value { IfOk result (λ asking. asking ≡ asking_of width kind (table_view table.now)) }
    ensures limits { IfOk result (λ asking. IfSome asking (IsAsking width)) }
{
    match kind {
        Kind::Register => Ok(address_at(table, "address").map(Asking::Register)),
        Kind::Write => write_of(alloc, width, table),
        Kind::Read => Ok(number_at(table, "own", 0, MOST_OWN).map(Asking::Read)),
        Kind::Retire => Ok(number_at(table, "own", 0, MOST_OWN).map(Asking::Retire)),
    }
}

#[tactic(auto, unfolding(crate::specs::Requests::asking_in))]
fn asking_in(alloc: Global, width: u32, value: &Value) -> Result<Option<Asking>, NoMemory>
    ensures value { IfOk result (λ asking. asking ≡ asking_in width (view value.now)) }
    ensures limits { IfOk result (λ asking. IfSome asking (IsAsking width)) }
{
    let Some(table) = value.as_table() else {
        return Ok(None);
    };
    let Some(name) = text_at(table, "kind") else {
        return Ok(None);
    };
    match kind_of(name) {
        Some(kind) => asking_of(alloc, width, kind, table),
        None => Ok(None),
    }
}

fn askings(alloc: Global, width: u32, values: &[Value]) -> Result<Option<List<Asking>>, NoMemory>
    ensures value { IfOk result (λ requests. requests ≡ every (asking_in width) (map view values.now)) }
    ensures limits { IfOk result (λ requests. IfSome requests (All (IsAsking width))) }
    ensures as_many { IfOk result (λ requests. IfSome requests (λ all. length all ≡ length values.now)) }
{
    let mut requests = Vec::new(alloc);
    for value in values {
        let Some(one) = asking_in(alloc, width, value)? else {
            return Ok(None);
        };
        requests.push(one)?;
    }
    Ok(Some(List::from_vec(requests)))
}

#[tactic(auto, unfolding(crate::specs::Requests::requests_in))]
fn requests_in(alloc: Global, width: u32, value: &Value) -> Result<Option<List<Asking>>, NoMemory>
    ensures value { IfOk result (λ requests. requests ≡ requests_in width (view value.now)) }
    ensures limits { IfOk result (λ requests. IfSome requests (All (IsAsking width))) }
    ensures some { IfOk result (λ requests. IfSome requests (λ all. 1 ≤ length all)) }
    ensures few { IfOk result (λ requests. IfSome requests (λ all. length all ≤ MOST_REQUESTS)) }
{
    match list_within(1, MOST_REQUESTS, value) {
        Some(values) => askings(alloc, width, values),
        None => Ok(None),
    }
}

/// The requests under `request`, whose messages have this width.
pub fn requests(alloc: Global, width: u32, table: &Table) -> Result<List<Asking>, TextFault>
    ensures value { Gives (λ requests. requests) result
        (needed (codes "request") (requests_in width) (table_view table.now)) }
    ensures limits { IfOk result (All (IsAsking width)) }
    ensures some { IfOk result (λ requests. 1 ≤ length requests) }
    ensures few { IfOk result (λ requests. length requests ≤ MOST_REQUESTS) }
{
    let found = match value_at(table, "request") {
        Some(value) => requests_in(alloc, width, value)?,
        None => None,
    };
    match found {
        Some(requests) => Ok(requests),
        None => Err(wrong_key(alloc, "request")),
    }
}
