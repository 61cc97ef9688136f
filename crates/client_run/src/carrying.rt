//! A carrier's requests, worked off up to the first that doesn't carry.
ghost use Rattle.std.specs.Prelude.{◌≡◌, ◌≤◌, ◌⊎◌, None, length, map, All, IfOk, OnErr};
ghost use Rattle.node_exchange.specs.Exchanging.{EarlyAtEnd};
ghost use Rattle.client_core.specs.Requests.{plain_request};
ghost use Rattle.node_client.specs.Work.{Fits};
ghost use Rattle.client_run.specs.Carrying.{AllCarry, CarriesOn, CarriesPart, carry_end};
ghost use Rattle.client_run.specs.Carries.{AreWhole};
ghost use Rattle.client_run.specs.Runs.{RunFault};

use crate::telling::carries;
use client_core::{Client, Request};
use express_words::NoMemory;
use express_words::outside::Net;
use node_client::{Finished, Peers, Stop, line, one_request};
use std::alloc::Global;

/// Why a carrier doesn't go on.
#[derive(Drop)]
pub enum CarryHalt {
    /// A request came to another end than an accepted write or a message.
    Broken(Finished),
    /// What stops any client's work.
    Stopped(Stop),
}

/// What was told of the requests that carried, in order, and how the work on them ended: with the last, or
/// halted at the one behind those.
#[derive(Drop)]
pub struct CarriedOff {
    pub finished: Vec<Finished>,
    pub end: Result<(), CarryHalt>,
}

/// Works off a client's requests in order, up to the first that comes to another end than an accepted write
/// or a message. `message` is room for a message.
pub fn carry_off<N: Net>(
    alloc: Global,
    client: &mut Client,
    requests: &[Request<'_>],
    peers: &Peers<'_>,
    net: &mut N,
    message: &mut [u8],
) -> Result<CarriedOff, NoMemory>
    requires idle { client.old.current ≡ None }
    requires width { length message.old ≡ client.old.width }
    requires fits { All (λ r. Fits client.old.width (plain_request r)) requests.now }
    ensures works { IfOk result (CarriesOn peers.now client.old (map plain_request requests.now) client.new
        (N.seen net.old).calls (N.seen net.new).calls) }
    // Where memory was wanting a part of them was worked off, and nothing else was done.
    ensures wants { OnErr result (CarriesPart peers.now client.old (map plain_request requests.now)
        (N.seen net.old).calls (N.seen net.new).calls) }
    ensures carried { IfOk result (λ c. AllCarry c.finished.items) }
    ensures whole { IfOk result (λ c. AreWhole client.old.width c.finished.items) }
    ensures few { IfOk result (λ c. length c.finished.items ≤ length requests.now) }
    ensures fault { IfOk result (λ c. RunFault (carry_end c.end) (N.seen net.old).faults
        (N.seen net.new).faults) }
    ensures early { (net.new ≡ net.old) ⊎ EarlyAtEnd (N.seen net.new).calls N.Conn.seen }
    ensures door { (N.seen net.new).doors ≡ (N.seen net.old).doors }
{
    let mut finished = Vec::new(alloc);
    for (number, request) in requests.iter().enumerate() {
        let told = match one_request(client, request, peers, net, message) {
            Ok(told) => told,
            Err(why) => {
                return Ok(CarriedOff {
                    finished,
                    end: Err(CarryHalt::Stopped(why)),
                });
            }
        };
        let one = line(alloc, number, told, message)?;
        if !carries(told) {
            return Ok(CarriedOff {
                finished,
                end: Err(CarryHalt::Broken(one)),
            });
        }
        finished.push(one)?;
    }
    Ok(CarriedOff {
        finished,
        end: Ok(()),
    })
}
