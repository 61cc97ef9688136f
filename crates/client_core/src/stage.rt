//! The request that is current, and how far it has come.
ghost use Rattle.std.specs.Prelude.{◌≡◌, ℕ, List};
ghost use Rattle.step_rules.specs.ClientAsks.{server_of};
ghost use Rattle.client_core.specs.LastProof.{is_last_proof};
ghost use Rattle.client_core.specs.Stages.{current_in, request_in};

/// A request without its message.
#[derive(Clone, Copy)]
pub(crate) enum BareRequest {
    Register(u128),
    Write(u128),
    Read(u32),
    Retire(u32),
}

/// The present step of the current request. Only a write comes to the last two, with its target and the audit's key.
#[derive(Clone, Copy)]
pub(crate) enum CurrentStep {
    Deposits(BareRequest),
    Submits(BareRequest),
    ProvesToHelper(u128, [u8; 32]),
    ProvesToLeader(u128, [u8; 32]),
}

impl CurrentStep {
    /// The server that the step's frame goes to: the leader is 0, the helper 1.
    pub(crate) fn server(&self) -> u8
        ensures { (message : List ℕ) → server_of (current_in self.now message).step ≡ result }
    {
        match self {
            CurrentStep::Deposits(_) => 1,
            CurrentStep::Submits(_) => 0,
            CurrentStep::ProvesToHelper(_, _) => 1,
            CurrentStep::ProvesToLeader(_, _) => 0,
        }
    }

    /// Whether it is a write's last proof, the one to the leader.
    pub(crate) fn is_last_proof(&self) -> bool
        ensures { (message : List ℕ) → is_last_proof (current_in self.now message).step ≡ result }
    {
        match self {
            CurrentStep::ProvesToLeader(_, _) => true,
            CurrentStep::Deposits(_)
            | CurrentStep::Submits(_)
            | CurrentStep::ProvesToHelper(_, _) => false,
        }
    }

    /// The request, without its message.
    pub(crate) fn task(&self) -> BareRequest
        ensures { (message : List ℕ) → request_in result message ≡ (current_in self.now message).request }
    {
        match *self {
            CurrentStep::Deposits(task) => task,
            CurrentStep::Submits(task) => task,
            CurrentStep::ProvesToHelper(target, _) => BareRequest::Write(target),
            CurrentStep::ProvesToLeader(target, _) => BareRequest::Write(target),
        }
    }
}
