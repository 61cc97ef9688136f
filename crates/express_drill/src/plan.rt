//! What each program of a drill is run with, and what it must print.
ghost use Rattle.std.specs.Prelude.{◌<◌};

use crate::step::Step;
use std::alloc::{AllocError, Global};

/// What a server prints once it listens.
pub const LISTENING: &str = "listening\n";

const HELPER: &str = r#"role = "helper"
width = 16
boxes = 4
lanes = 2
window = 1
connections = 9
"#;

const LEADER: &str = r#"role = "leader"
width = 16
boxes = 4
lanes = 2
window = 1
connections = 4
"#;

const REGISTER: &str = r#"width = 16
boxes = 4
lane = 0
serial = 1
seed = "5f0e8a7d2c4b96135f0e8a7d2c4b96135f0e8a7d2c4b96135f0e8a7d2c4b9613"

[[request]]
kind = "register"
address = "00112233445566778899aabbccddeeff"
"#;

const WRITE: &str = r#"width = 16
boxes = 4
lane = 1
serial = 1

[[request]]
kind = "write"
address = "00112233445566778899aabbccddeeff"
message = "6d6565742061742074686520706f6e64"
"#;

const READ: &str = r#"width = 16
boxes = 4
lane = 0
serial = 2
seed = "5f0e8a7d2c4b96135f0e8a7d2c4b96135f0e8a7d2c4b96135f0e8a7d2c4b9613"

[[owned]]
box = 0
serial = 1

[[request]]
kind = "read"
own = 0
"#;

// The settings of a client of the helper at `port` and the leader at the port behind it.
fn client_settings(alloc: Global, port: u16, request: &str) -> Result<String, AllocError>
    requires { port < 65535 }
{
    let leader = port + 1;
    format!(in alloc; "leader = \"127.0.0.1:{leader}\"\nhelper = \"127.0.0.1:{port}\"\n{request}")
}

impl Step {
    /// The word that the program is run with.
    pub fn word(self) -> &'static str {
        match self {
            Step::Helper | Step::Leader => "serve",
            Step::Register | Step::Write | Step::Read => "client",
        }
    }

    /// All that it must print.
    pub fn wanted(self) -> &'static str {
        match self {
            Step::Helper => {
                "listening\nserved 9 answered 9 ended 0 connfaults 0 linkfaults 0 linkbad 0\n"
            }
            Step::Leader => {
                "listening\nserved 4 answered 4 ended 0 connfaults 0 linkfaults 0 linkbad 0\n"
            }
            Step::Register => "outcome 0 registered 0\nend\n",
            Step::Write => "outcome 0 accepted\nend\n",
            Step::Read => "outcome 0 message 6d6565742061742074686520706f6e64\nend\n",
        }
    }

    /// The settings on its standard input, where the helper listens at `port` and the leader at the port behind it.
    pub fn settings(self, alloc: Global, port: u16) -> Result<String, AllocError>
        requires { port < 65535 }
    {
        let leader = port + 1;
        match self {
            Step::Helper => format!(in alloc; "listen = \"127.0.0.1:{port}\"\n{HELPER}"),
            Step::Leader => {
                format!(in alloc;
                    "listen = \"127.0.0.1:{leader}\"\npeer = \"127.0.0.1:{port}\"\n{LEADER}"
                )
            }
            Step::Register => client_settings(alloc, port, REGISTER),
            Step::Write => client_settings(alloc, port, WRITE),
            Step::Read => client_settings(alloc, port, READ),
        }
    }
}
