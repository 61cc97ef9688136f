//! A client at work.
ghost use Rattle.std.specs.Prelude.{◌≡◌, ◌≤◌, ◌⊎◌, length, IfOk, OnOk, string_bytes};
ghost use Rattle.express_words.specs.Limits.{IsWidth};
ghost use Rattle.client_core.specs.Requests.{plain_request};
ghost use Rattle.node_exchange.specs.Exchanging.{EarlyAtEnd};
ghost use Rattle.node_client.specs.Work.{Fits, line};
ghost use Rattle.client_run.specs.Accounts.{account_in, opened};
ghost use Rattle.client_run.specs.Texts.{outcome_line};
ghost use Rattle.client_run.specs.Telling.{moment, IsReady, PutsLine, TellsNext, CutFault, CutSink, PutSink};

use crate::account::{Account, open};
use crate::cut::{Cut, Untold};
use crate::texts::outcome_line;
use client_core::{Client, Request};
use express_words::NoMemory;
use express_words::outside::{Net, Sink};
use node_client::{Peers, Told, line, one_request};
use std::alloc::Global;

/// A client with its servers, and room for a message.
#[derive(Drop)]
pub struct Worker<'a> {
    pub client: Client,
    pub peers: Peers<'a>,
    pub message: Vec<u8>,
}

// The line of the request of this number.
fn told_line(alloc: Global, number: usize, told: Told, message: &[u8]) -> Result<String, NoMemory>
    ensures { IfOk result (λ text. string_bytes text ≡ outcome_line (line number message.now told)) }
{
    let finished = line(alloc, number, told, message)?;
    Ok(outcome_line(alloc, &finished)?)
}

// Puts the line of the request of this number.
fn put_told<K: Sink>(
    alloc: Global,
    number: usize,
    told: Told,
    message: &[u8],
    out: &mut K,
) -> Result<(), Untold>
    ensures puts { PutsLine (outcome_line (line number message.now told)) result (K.seen out.old).written (K.seen out.new).written }
    ensures sink { PutSink result (K.seen out.old).faults (K.seen out.new).faults }
{
    let text = told_line(alloc, number, told, message)?;
    match out.put(text.as_bytes()) {
        Ok(()) => Ok(()),
        Err(_) => Err(Untold::Unwritten),
    }
}

/// The client of an account at these servers, with the boxes of its earlier runs.
pub fn start<'a>(
    alloc: Global,
    account: &Account<'_>,
    peers: Peers<'a>,
) -> Result<Worker<'a>, NoMemory>
    requires width { IsWidth account.now.width }
    requires boxes { account.now.boxes ≤ 4096 }
    requires serial { 1 ≤ account.now.serial }
    requires owned { length account.now.owned.now ≤ account.now.boxes }
    ensures opened { IfOk result (λ w. w.client ≡ opened (account_in account.now)) }
    ensures peers { IfOk result (λ w. w.peers ≡ peers.entry) }
    ensures width { IfOk result (λ w. w.client.width ≡ account.now.width) }
    ensures ready { IfOk result (λ w. IsReady w) }
{
    let client = open(alloc, account)?;
    let message = vec![in alloc; 0u8; account.width as usize]?;
    Ok(Worker {
        client,
        peers,
        message,
    })
}

impl<'a> Worker<'a> {
    /// Works off the request of this number, and puts its line where it came to its end.
    pub fn tell_one<K: Sink, N: Net>(
        &mut self,
        alloc: Global,
        number: usize,
        request: &Request<'_>,
        out: &mut K,
        net: &mut N,
    ) -> Result<Told, Cut>
        requires ready { IsReady self.old }
        requires fits { Fits self.old.client.width (plain_request request.now) }
        ensures tells { TellsNext self.old self.new number request.now result
            (moment (N.seen net.old) (K.seen out.old)) (moment (N.seen net.new) (K.seen out.new)) }
        ensures ready { OnOk result (IsReady self.new) }
        ensures peers { self.new.peers ≡ self.old.peers }
        ensures width { self.new.client.width ≡ self.old.client.width }
        ensures fault { CutFault result (N.seen net.old).faults (N.seen net.new).faults }
        ensures sink { CutSink result (K.seen out.old).faults (K.seen out.new).faults }
        ensures early { (net.new ≡ net.old) ⊎ EarlyAtEnd (N.seen net.new).calls N.Conn.seen }
        ensures door { (N.seen net.new).doors ≡ (N.seen net.old).doors }
    {
        let message = self.message.as_mut_slice();
        let told = match one_request(&mut self.client, request, &self.peers, net, message) {
            Ok(told) => told,
            Err(why) => return Err(Cut::Stopped(why)),
        };
        match put_told(alloc, number, told, message, out) {
            Ok(()) => Ok(told),
            Err(why) => Err(Cut::Untold(why)),
        }
    }
}
