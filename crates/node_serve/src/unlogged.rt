//! The servers whose frames go nowhere.
ghost use Rattle.std.specs.Prelude.{Some, None};

use crate::logged::Logged;
use crate::never::Never;
use crate::node::Node;
use helper_core::Helper;
use leader_core::Leader;
use node_restart::{Did, Role, Sender, help_client, help_peer, lead_client, lead_peer};
use wire_frames::Received;

impl Logged for Leader {
    ghost use Rattle.node_restart.specs.declared.server.Core.TheVariants.{Lead};
    ghost use Rattle.node_serve.specs.NoLog.{no_log};

    type Fault = Never;

    ghost log = { no_log Lead };

    ghost failures = { λ s. 0 };

    ghost rises = { λ why before now. ⊥ };

    fn role(&self) -> Role {
        Role::Leader
    }

    fn hand(
        &mut self,
        sender: Sender,
        received: &Received<'_>,
        out: &mut [u8],
    ) -> Result<Did, Never> {
        match sender {
            Sender::Client => Ok(lead_client(self, received, out)),
            Sender::Peer => Ok(lead_peer(self, received, out)),
        }
    }

    fn oldest(&self, out: &mut [u8]) -> Option<usize> {
        match self.resend(out) {
            Some((_, length)) => Some(length),
            None => None,
        }
    }

    ghost none = { λ s. tt };

    ghost both = { λ a b c xs ys one two. tt };

    ghost halts = { λ a b c xs ys h why one two. two };
}

impl Logged for Helper {
    ghost use Rattle.node_restart.specs.declared.server.Core.TheVariants.{Help};
    ghost use Rattle.node_serve.specs.NoLog.{no_log};

    type Fault = Never;

    ghost log = { no_log Help };

    ghost failures = { λ s. 0 };

    ghost rises = { λ why before now. ⊥ };

    fn role(&self) -> Role {
        Role::Helper
    }

    fn hand(
        &mut self,
        sender: Sender,
        received: &Received<'_>,
        out: &mut [u8],
    ) -> Result<Did, Never> {
        match sender {
            Sender::Client => Ok(help_client(self, received, out)),
            Sender::Peer => Ok(help_peer(self, received, out)),
        }
    }

    fn oldest(&self, _out: &mut [u8]) -> Option<usize> {
        None
    }

    ghost none = { λ s. tt };

    ghost both = { λ a b c xs ys one two. tt };

    ghost halts = { λ a b c xs ys h why one two. two };
}

impl Logged for Node {
    ghost use Rattle.std.proofs.Common.{refl, ◌∙◌};
    ghost use Rattle.node_serve.specs.NoLog.{node_log};

    type Fault = Never;

    ghost log = { node_log };

    ghost failures = { λ s. 0 };

    ghost rises = { λ why before now. ⊥ };

    fn role(&self) -> Role {
        match self {
            Node::Lead(_, _) => Role::Leader,
            Node::Help(_) => Role::Helper,
        }
    }

    fn hand(
        &mut self,
        sender: Sender,
        received: &Received<'_>,
        out: &mut [u8],
    ) -> Result<Did, Never> {
        match self {
            Node::Lead(leader, _) => leader.hand(sender, received, out),
            Node::Help(helper) => helper.hand(sender, received, out),
        }
    }

    fn oldest(&self, out: &mut [u8]) -> Option<usize> {
        match self {
            Node::Lead(leader, _) => leader.oldest(out),
            Node::Help(helper) => helper.oldest(out),
        }
    }

    ghost none = { λ s. refl };

    ghost both = { λ a b c xs ys one two. two ∙ one };

    ghost halts = { λ a b c xs ys h why one two. two };
}
