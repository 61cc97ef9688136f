//! The way of a connection's bytes.
use crate::fault::Result;
use crate::hidden::Hidden;
use crate::served::failure::{Failure, Place};
use crate::served::step::Exchange;
use express_words::outside::{MemoryConn, MemoryNet};
use frame_rules::FRAME_MAX;
use std::alloc::Global;

/// The leader's net, whose connections to the helper give answers in order, and which call of the client's connection
/// fails, 0 for none.
#[derive(Drop)]
pub struct Wires {
    pub net: MemoryNet,
    pub failing: u64,
}

pub type Link = Hidden<Wires>;

// Whether these connections took the commands of these exchanges, in order, and no other one.
fn took_all(conns: &[MemoryConn], exchanges: &[Exchange]) -> bool {
    let mut all = conns.len() == exchanges.len();
    for (conn, exchange) in conns.iter().zip(exchanges.iter()) {
        all = all && conn.written() == exchange.command.as_slice();
    }
    all
}

impl Link {
    /// The helper gives the answers of these exchanges.
    pub fn new(alloc: Global, exchanges: &[Exchange], failure: &Failure) -> Result<Link> {
        let mut conns = Vec::new(alloc);
        for (place, exchange) in exchanges.iter().enumerate() {
            let failing = [failure.at(Place::Exchange(place))];
            conns.push(MemoryConn::new(alloc, &exchange.answer, FRAME_MAX, &failing)?)?;
        }
        let net = MemoryNet::new(alloc, conns, 16, 64, &[failure.at(Place::Net)])?;
        let failing = failure.at(Place::Client);
        Ok(Hidden {
            inside: Wires { net, failing },
        })
    }

    /// A client's connection that gives this frame.
    pub fn conn(&self, alloc: Global, frame: &[u8]) -> Result<MemoryConn> {
        let failing = [self.inside.failing];
        Ok(MemoryConn::new(alloc, frame, FRAME_MAX, &failing)?)
    }

    /// Whether the helper took the commands of these exchanges and no other one, in words.
    pub fn sent(&self, exchanges: &[Exchange]) -> &'static str {
        if took_all(self.inside.net.closed(), exchanges) {
            "the commands are as recorded"
        } else {
            "the commands are other ones"
        }
    }
}
