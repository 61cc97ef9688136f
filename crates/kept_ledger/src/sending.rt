//! What a ledger sends.
ghost use Rattle.std.specs.Prelude.{◌≡◌, ◌↔◌, None, length, take};
ghost use Rattle.frame_rules.specs.Room.{HasRoom};
ghost use Rattle.step_rules.specs.ClientAsks.{sends};
ghost use Rattle.client_core.specs.Answers.{bytes_of};
ghost use Rattle.kept_ledger.specs.Sends.{key_at, role_of, sending_of};

use crate::ledger::Ledger;
use desk_sheets::Pair;
use express_words::Role;
use lane_gate::Ticket;

/// A frame that goes out.
#[derive(Clone, Copy)]
pub struct Sending {
    /// The server that it goes to.
    pub to: Role,
    /// The key of the owner's lane there, which is the frame's ticket.
    pub ticket: Ticket,
    /// How many bytes it has.
    pub len: usize,
}

fn role_of(server: u8) -> Role
    ensures { result ≡ role_of server }
{
    if server == 0 {
        Role::Leader
    } else {
        Role::Helper
    }
}

fn key_at(pair: &Pair, role: Role) -> Ticket
    ensures { result ≡ key_at pair.now role }
{
    match role {
        Role::Leader => pair.leader.key,
        Role::Helper => pair.helper.key,
    }
}

impl Ledger {
    /// The frame of the client's present step, at the front of `out`, the same each time. None exactly where
    /// no request is current.
    pub fn send(&self, out: &mut [u8]) -> Option<Sending>
        requires room { HasRoom out.old }
        ensures none { (result ≡ None) ↔ (self.now.state.client.current ≡ None) }
        ensures sending { result ≡ sending_of self.now.state.pair (sends self.now.state.client) }
        ensures written { let frame = bytes_of (sends self.now.state.client) in
            take (length frame) out.new ≡ frame }
    {
        match self.client.send(out) {
            None => None,
            Some((server, len)) => {
                let to = role_of(server);
                let ticket = key_at(&self.pair, to);
                Some(Sending { to, ticket, len })
            }
        }
    }
}
