//! What an operator is told of each server's state.
use crate::helper::HelperServer;
use crate::leader::LeaderServer;
use server_status::{Figured, Figures, figures_of};

impl Figured for HelperServer {
    ghost use Rattle.many_servers.specs.Figures.{helper_figures};

    ghost figures_in = { helper_figures };

    fn figures(&self) -> Figures {
        figures_of(&self.gated.gate, self.gated.helper.count(), 0)
    }
}

impl Figured for LeaderServer {
    ghost use Rattle.many_servers.specs.Figures.{leader_figures};

    ghost figures_in = { leader_figures };

    fn figures(&self) -> Figures {
        let leader = &self.gated.leader;
        let gate = self.gated.leases.gate();
        figures_of(gate, leader.count(), leader.outstanding())
    }
}
