//! The talk with a proxy before a connection through it.
ghost use Rattle.std.specs.Prelude.{◌≡◌, ◌≤◌, ◌++◌, OnOk, OnErr, IfErr};
ghost use Rattle.express_words.specs.Streams.{TookPrefix};
ghost use Rattle.socks_proxy.specs.Forms.{greeting, choice, status, IsReply};
ghost use Rattle.socks_proxy.specs.Talks.{Talked, Answered, BreaksOff, Refuses, IsYes};
ghost use Rattle.socks_proxy.specs.Talks.{IsChoiceCause, IsStatusCause, IsReplyCause, IsTalkCause};

use crate::answers::{judge_choice, judge_reply, judge_status};
use crate::fault::ProxyFault;
use crate::forms::GREETING;
use crate::hearing::{hear, hear_some};
use express_words::outside::Conn;

/// A reply is at most 262 bytes, of which the first five say how many follow.
const REPLY_REST: usize = 257;

// Says a message, and fills `answer` with what comes.
fn ask<C: Conn>(conn: &mut C, message: &[u8], answer: &mut [u8]) -> Result<(), ProxyFault>
    ensures whole { OnOk result (Talked (C.seen conn.old) (C.seen conn.new) message.now answer.new) }
    ensures said { OnErr result (TookPrefix (C.seen conn.old).written (C.seen conn.new).written message.now) }
    ensures refused { IfErr result (BreaksOff (C.seen conn.old) (C.seen conn.new)) }
    ensures unfailed { OnOk result ((C.seen conn.new).faults ≡ (C.seen conn.old).faults) }
    ensures later { (C.seen conn.old).faults ≤ (C.seen conn.new).faults }
{
    if conn.put(message).is_err() {
        return Err(ProxyFault::Failed);
    }
    hear(conn, answer)
}

// The proxy is greeted, and wants a user name.
fn greet<C: Conn>(conn: &mut C) -> Result<(), ProxyFault>
    ensures yes { OnOk result (Talked (C.seen conn.old) (C.seen conn.new) greeting (choice 2)) }
    ensures said { OnErr result (TookPrefix (C.seen conn.old).written (C.seen conn.new).written greeting) }
    ensures refused { IfErr result (Refuses IsChoiceCause (C.seen conn.old) (C.seen conn.new)) }
    ensures unfailed { OnOk result ((C.seen conn.new).faults ≡ (C.seen conn.old).faults) }
    ensures later { (C.seen conn.old).faults ≤ (C.seen conn.new).faults }
{
    let mut answer = [0; 2];
    match ask(conn, &GREETING, &mut answer) {
        Ok(()) => judge_choice(&answer),
        Err(why) => Err(why),
    }
}

// The proxy takes the user name.
fn log_in<C: Conn>(conn: &mut C, credentials: &[u8]) -> Result<(), ProxyFault>
    ensures yes { OnOk result (Talked (C.seen conn.old) (C.seen conn.new) credentials.now (status 0)) }
    ensures said { OnErr result (TookPrefix (C.seen conn.old).written (C.seen conn.new).written credentials.now) }
    ensures refused { IfErr result (Refuses IsStatusCause (C.seen conn.old) (C.seen conn.new)) }
    ensures unfailed { OnOk result ((C.seen conn.new).faults ≡ (C.seen conn.old).faults) }
    ensures later { (C.seen conn.old).faults ≤ (C.seen conn.new).faults }
{
    let mut answer = [0; 2];
    match ask(conn, credentials, &mut answer) {
        Ok(()) => judge_status(&answer),
        Err(why) => Err(why),
    }
}

// The proxy grants the request, and its reply is taken to the last byte.
fn connect<C: Conn>(conn: &mut C, request: &[u8]) -> Result<(), ProxyFault>
    ensures yes { OnOk result (Answered (IsReply 0) (C.seen conn.old) (C.seen conn.new) request.now) }
    ensures said { OnErr result (TookPrefix (C.seen conn.old).written (C.seen conn.new).written request.now) }
    ensures refused { IfErr result (Refuses IsReplyCause (C.seen conn.old) (C.seen conn.new)) }
    ensures unfailed { OnOk result ((C.seen conn.new).faults ≡ (C.seen conn.old).faults) }
    ensures later { (C.seen conn.old).faults ≤ (C.seen conn.new).faults }
{
    let mut front = [0; 5];
    let mut rest = [0; REPLY_REST];
    match ask(conn, request, &mut front) {
        Ok(()) => {}
        Err(why) => return Err(why),
    }
    match judge_reply(&front) {
        Ok(count) => match hear_some(conn, &mut rest, count) {
            Ok(()) => Ok(()),
            Err(why) => Err(why),
        },
        Err(why) => Err(why),
    }
}

/// Greets a proxy that was dialled, gives it a user name and its password, and asks for a connection. After Ok it has said
/// yes and not a byte behind that was taken; from then on the connection is one to what was asked for. After Err it is of
/// no use.
pub fn talk<C: Conn>(conn: &mut C, credentials: &[u8], request: &[u8]) -> Result<(), ProxyFault>
    ensures yes { OnOk result (Answered IsYes (C.seen conn.old) (C.seen conn.new)
        (greeting ++ (credentials.now ++ request.now))) }
    ensures said { OnErr result (TookPrefix (C.seen conn.old).written (C.seen conn.new).written
        (greeting ++ (credentials.now ++ request.now))) }
    ensures refused { IfErr result (Refuses IsTalkCause (C.seen conn.old) (C.seen conn.new)) }
    ensures unfailed { OnOk result ((C.seen conn.new).faults ≡ (C.seen conn.old).faults) }
    ensures later { (C.seen conn.old).faults ≤ (C.seen conn.new).faults }
{
    match greet(conn) {
        Ok(()) => {}
        Err(why) => return Err(why),
    }
    match log_in(conn, credentials) {
        Ok(()) => {}
        Err(why) => return Err(why),
    }
    match connect(conn, request) {
        Ok(()) => Ok(()),
        Err(why) => Err(why),
    }
}
