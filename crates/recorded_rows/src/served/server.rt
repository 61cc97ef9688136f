//! A server that serves connections.
ghost use Rattle.frame_rules.specs.Room.{HasRoom};

use crate::beginning::Beginning;
use crate::fault::Result;
use crate::hidden::Hidden;
use crate::plain::Plain;
use crate::served::link::Link;
use crate::served::step::Step;
use crate::texts::front_of;
use express_words::outside::MemoryConn;
use frame_rules::FRAME_MAX;
use node_serve::{Node, Served, serve_one};
use std::alloc::Global;
use wire_frames::Gather;

/// A server, and the room for one frame.
#[derive(Drop)]
pub struct Server {
    plain: Plain,
    gather: Hidden<Gather>,
}

// Serves one connection.
fn serve_conn(
    plain: &mut Plain,
    gather: &mut Hidden<Gather>,
    conn: &mut MemoryConn,
    link: &mut Link,
) -> Served {
    serve_one(
        &mut plain.inside,
        &mut gather.inside,
        conn,
        &mut link.inside.net,
    )
}

fn resend(plain: &Plain, out: &mut [u8]) -> usize
    requires room { HasRoom out.old }
{
    match &plain.inside {
        Node::Help(_) => 0,
        Node::Lead(leader, _) => match leader.resend(out) {
            None => 0,
            Some((_, length)) => length,
        },
    }
}

impl Server {
    /// A server with no boxes.
    pub fn open(alloc: Global, beginning: &Beginning) -> Result<Server> {
        let inside = Gather::open(alloc)?;
        Ok(Server {
            plain: Plain::open(alloc, beginning)?,
            gather: Hidden { inside },
        })
    }

    /// The leader's oldest command that waits for its reply; no bytes where none waits.
    pub fn waiting(&self, alloc: Global) -> Result<Vec<u8>> {
        let mut out = [0u8; FRAME_MAX];
        let length = resend(&self.plain, &mut out);
        Ok(Vec::from_slice(alloc, front_of(&out, length))?)
    }

    /// Serves a connection that gives the step's frame: the answer, what the client got, and which command waits.
    pub fn serve(&mut self, alloc: Global, step: &Step, link: &mut Link) -> Result<String> {
        let mut conn = link.conn(alloc, &step.frame)?;
        let served = serve_conn(&mut self.plain, &mut self.gather, &mut conn, link);
        let waiting = self.waiting(alloc)?;
        step.told(alloc, served, conn.written(), &waiting)
    }
}
