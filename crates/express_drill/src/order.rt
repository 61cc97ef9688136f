//! The words of the command line.
ghost use Rattle.std.specs.Prelude.{◌≡◌, ◌<◌, ◌≤◌, string_bytes, IfOk};
ghost use Rattle.express_drill.specs.Ports.{IsPort};

use crate::fault::Fault;
use std::alloc::{AllocError, Global};
use std::env;
use std::io::ErrorKind;
use std::rt::Env;

/// What is to be drilled, and where.
#[derive(Drop)]
pub struct Order {
    /// The program: a path, or a name that is looked for in PATH.
    pub program: String,
    /// The helper's port; the leader's is the one behind it.
    pub port: u16,
    ghost room: { port < 65535 },
}

/// The last port that leaves room for the one behind it.
const LAST_PORT: u16 = 65534;

// The port whose decimal digits these are, which isn't the first and leaves room for one behind it.
fn port_in(alloc: Global, text: &str) -> Result<Option<u16>, AllocError>
    ensures { IfOk result (IsPort text.now) }
{
    let port = match text.parse::<u16>() {
        Ok(port) => port,
        Err(_) => return Ok(None),
    };
    if port == 0 {
        return Ok(None);
    }
    if port > LAST_PORT {
        return Ok(None);
    }
    let digits = format!(in alloc; "{port}")?;
    if digits.as_str() == text {
        Ok(Some(port))
    } else {
        Ok(None)
    }
}

/// The order that the words give, if they give one.
pub fn order_of<R: Env + AllocGlobal>(rt: &R) -> Result<Option<Order>, Fault> {
    let all = match env::args(rt) {
        Ok(all) => all,
        Err(error) if error.kind() == ErrorKind::OutOfMemory => return Err(Fault::NoMemory),
        Err(_) => return Ok(None),
    };
    let mut words = all.skip(1);
    let (Some(program), Some(port), None) = (words.next(), words.next(), words.next()) else {
        return Ok(None);
    };
    match port_in(rt.alloc(), port.as_str())? {
        Some(port) => Ok(Some(Order { program, port })),
        None => Ok(None),
    }
}
