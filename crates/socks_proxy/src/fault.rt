//! Why a proxy gives no connection.
ghost use Rattle.std.specs.Prelude.{◌≡◌, Some};
ghost use Rattle.socks_proxy.specs.Texts.{fault_text, refusal_text};

use express_words::NoMemory;
use std::fmt;

/// Why a proxy gives no connection.
#[derive(Clone, Copy, Debug, PartialEq, Eq)]
pub enum ProxyFault {
    /// Nobody listens where Tor does, nor where Tor Browser's does.
    NoTor,
    /// Nobody listens at the proxy's place.
    NoProxy,
    /// The place to be reached is none that a proxy takes, or no address of an onion service.
    Place,
    /// What answers isn't SOCKS 5.
    NotSocks,
    /// The proxy takes no user names.
    NoNames,
    /// The proxy refuses the user name.
    NeedsPassword,
    /// The proxy refuses the connection, by a code that isn't 0.
    Refused(u8),
    /// The proxy ended the connection before it had answered.
    Ended,
    /// The connection to the proxy failed, or its time was over.
    Failed,
    /// Each number of a dial was used.
    Spent,
    /// No memory was found for what is said to the proxy.
    NoMemory,
}

// Why the proxy refuses, by the code of its reply (RFC 1928, section 6; from 240 on Tor's, proposal 304).
fn refusal_text(code: u8) -> &'static str
    ensures { result.now ≡ refusal_text code }
{
    match code {
        2 => "the proxy's rules forbid this connection",
        3 | 4 | 6 => "the server isn't reached: it is down, or the network is",
        5 => "the server is reached, but refuses the connection",
        240 | 242 | 243 | 247 => "nobody serves the card's onion address now",
        244 | 245 => "the onion service lets in only those who have its key",
        241 | 246 => "the card's address is no onion address: a letter of it is wrong",
        _ => "the proxy couldn't reach the server: it is down, or its address is wrong",
    }
}

impl fmt::Display for ProxyFault {
    ghost output = { λ why. Some (fault_text why) };

    fn fmt<W: fmt::Write>(&self, f: &mut fmt::Formatter<W>) -> fmt::Result {
        match *self {
            ProxyFault::NoTor => f.write_str(
                "Tor isn't running: nobody listens at 127.0.0.1:9050, nor at 127.0.0.1:9150",
            ),
            ProxyFault::NoProxy => f.write_str("nobody listens at the proxy's place"),
            ProxyFault::Place => {
                f.write_str("the server's place is no onion address, or none that a proxy takes")
            }
            ProxyFault::NotSocks => f.write_str("what answers at the proxy's place isn't Tor"),
            ProxyFault::NoNames => {
                f.write_str("the proxy takes no user names, by which Tor keeps letters apart")
            }
            ProxyFault::NeedsPassword => {
                f.write_str("the proxy wants a user name and a password of its own")
            }
            ProxyFault::Refused(code) => f.write_str(refusal_text(code)),
            ProxyFault::Ended => {
                f.write_str("the proxy ended the connection before it had answered")
            }
            ProxyFault::Failed => {
                f.write_str("the proxy didn't answer in time, or its connection broke")
            }
            ProxyFault::Spent => f.write_str("this run has used up its names for connections"),
            ProxyFault::NoMemory => f.write_str("there is no memory left"),
        }
    }
}

impl From<NoMemory> for ProxyFault {
    ghost use Rattle.std.specs.Prelude.{◌≡◌};
    ghost use Rattle.socks_proxy.specs.declared.fault.ProxyFault.TheVariants.{NoMemory};

    ghost from_gives = { λ _ why. why ≡ NoMemory };

    fn from(_: NoMemory) -> Self {
        ProxyFault::NoMemory
    }
}
