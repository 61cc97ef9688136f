//! What is said to a proxy, written as SOCKS 5 has it.
ghost use Rattle.std.specs.Prelude.{◌≡◌, ◌≤◌, ◌++◌, length, IfOk, OnOk};
ghost use Rattle.socks_proxy.specs.Circuits.{name_of, password};
ghost use Rattle.socks_proxy.specs.Forms.{sized, credentials, request};

use crate::circuits::{Login, PASSWORD};
use crate::targets::Target;
use express_words::NoMemory;
use std::alloc::Global;

/// Version 5, and one way to be known: a user name with a password.
pub const GREETING: [u8; 3] = [5, 1, 2];

// Adds a length and so many bytes.
fn put_sized(out: &mut Vec<u8>, bytes: &[u8]) -> Result<(), NoMemory>
    requires { length bytes.now ≤ 255 }
    ensures { OnOk result (out.new.items ≡ out.old.items ++ sized bytes.now) }
{
    out.push(bytes.len() as u8)?;
    out.extend_from_slice(bytes)?;
    Ok(())
}

/// A user name of 24 bytes and its password (RFC 1929).
pub fn credentials(alloc: Global, login: &Login) -> Result<Vec<u8>, NoMemory>
    ensures { IfOk result (λ v. v.items ≡ credentials (name_of login.now.drawn login.now.number) password) }
{
    let mut out = Vec::from_slice(alloc, &[1, 24])?;
    out.extend_from_slice(&login.drawn)?;
    out.extend_from_slice(&login.number.to_be_bytes())?;
    put_sized(&mut out, PASSWORD)?;
    Ok(out)
}

/// The request for a connection to a port of a host, which is named (RFC 1928, section 4).
pub fn request(alloc: Global, target: &Target<'_>) -> Result<Vec<u8>, NoMemory>
    requires { length target.now.host.now ≤ 255 }
    ensures { IfOk result (λ v. v.items ≡ request target.now.host.now target.now.port) }
{
    let mut out = Vec::from_slice(alloc, &[5, 1, 0, 3])?;
    put_sized(&mut out, target.host)?;
    out.extend_from_slice(&target.port.to_be_bytes())?;
    Ok(out)
}
