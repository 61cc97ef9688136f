//! The frame of each step.
ghost use Rattle.std.specs.Prelude.{◌≡◌, ◌<◌, ◌≤◌, ◌^◌, ℕ, length, slice_get, Some, true};
ghost use Rattle.frame_rules.specs.Frames.{plain, plain_body, Deposit, Proof, Read, Register, Retire};
ghost use Rattle.frame_rules.specs.Spelling.{IsBody, IsFrame};
ghost use Rattle.frame_rules.specs.Whole.{is_from_client};
ghost use Rattle.step_rules.specs.ClientAsks.{deposit_of, submission_of, body_of, sends};
ghost use Rattle.client_core.specs.Answers.{sent_to};
ghost use Rattle.client_core.specs.Stages.{request_in, IsTask, IsStage};
ghost use Rattle.client_core.specs.States.{client_in, current_at, owned_in, server_at, IsState, IsCurrent, held_in};

use crate::stage::{BareRequest, CurrentStep};
use crate::state::{ClientState, KeyedBox};
use audit_rules::read_share;
use chacha_expand::{owner_keys, token};
use express_words::ProofShare;
use frame_rules::{Body, DepositBody, Frame};

// A frame to a server.
fn to_server<'a>(lane: u16, serial: u32, body: &Body<'a>) -> Frame<'a>
    requires first { 1 ≤ serial }
    requires sent { is_from_client (plain_body body.now) ≡ true }
    requires right { IsBody (plain_body body.now) }
    ensures frame { plain result
        ≡ record { lane = lane; serial = serial; link = 0; body = plain_body body.now } }
    ensures is_frame { IsFrame (plain result) }
{
    Frame {
        lane,
        serial,
        link: 0,
        body: *body,
    }
}

// A server's share of a proof.
fn proof_body(share: ProofShare) -> Body<'static>
    ensures body { plain_body result ≡ Proof share }
    ensures right { IsBody (plain_body result) }
{
    read_share(&share);
    Body::Proof(share)
}

// Asks for a box.
fn registration(address: u128, key: [u8; 32]) -> Body<'static>
    ensures body { plain_body result ≡ Register address key }
    ensures right { IsBody (plain_body result) }
{
    Body::Register { address, key }
}

// Asks for what a box holds.
fn reading(box_number: u32, token: u128) -> Body<'static>
    ensures body { plain_body result ≡ Read box_number token }
    ensures right { IsBody (plain_body result) }
{
    Body::Read { box_number, token }
}

// Asks for it for the last time.
fn retirement(box_number: u32, token: u128) -> Body<'static>
    ensures body { plain_body result ≡ Retire box_number token }
    ensures right { IsBody (plain_body result) }
{
    Body::Retire { box_number, token }
}

impl ClientState {
    // The serial of the current request.
    pub(crate) fn current_serial(&self) -> u32
        requires unspent { self.now.serial < 2 ^ 32 }
        ensures { result ≡ self.now.serial }
    {
        self.serial as u32
    }

    // An own box.
    pub(crate) fn own_box(&self, own: u32) -> &KeyedBox
        requires { own < length self.now.owned.items }
        ensures { slice_get (client_in self.now).owned own ≡ Some (owned_in result.now) }
    {
        &self.owned[own as usize]
    }

    #[tactic(auto, unfolding(step_rules::specs::ClientAsks::deposit_of, step_rules::specs::ClientAsks::read_deposit))]
    fn deposit(&self, task: &BareRequest) -> DepositBody
        requires unspent { self.now.serial < 2 ^ 32 }
        requires task { IsTask (held_in self.now) task.now }
        ensures { deposit_of (client_in self.now) (request_in task.now self.now.message.items)
            ≡ Some (Deposit result) }
    {
        let serial = self.current_serial();
        match *task {
            BareRequest::Register(_) => DepositBody::Register(owner_keys(&self.seed, serial).1),
            BareRequest::Write(_) => DepositBody::Write(self.words()[1]),
            BareRequest::Read(own) => DepositBody::Read(token(
                &self.own_box(own).key1,
                self.lane,
                serial,
            )),
            BareRequest::Retire(own) => DepositBody::Read(token(
                &self.own_box(own).key1,
                self.lane,
                serial,
            )),
        }
    }

    #[tactic(auto, unfolding(step_rules::specs::ClientAsks::submission_of, step_rules::specs::ClientAsks::read_submission, step_rules::specs::ClientAsks::public_part))]
    fn submission(&self, task: &BareRequest) -> Body<'_>
        requires is { IsState self.now }
        requires unspent { self.now.serial < 2 ^ 32 }
        requires task { IsTask (held_in self.now) task.now }
        ensures body { submission_of (client_in self.now) (request_in task.now self.now.message.items)
            ≡ Some (plain_body result) }
        ensures sent { is_from_client (plain_body result) ≡ true }
        ensures right { IsBody (plain_body result) }
    {
        let serial = self.current_serial();
        match *task {
            BareRequest::Register(address) => {
                let (key, _) = owner_keys(&self.seed, serial);
                registration(address, key)
            }
            BareRequest::Write(_) => Body::Write {
                root: self.words()[0],
                part: &self.part,
            },
            BareRequest::Read(own) => {
                let own = self.own_box(own);
                reading(own.number, token(&own.key0, self.lane, serial))
            }
            BareRequest::Retire(own) => {
                let own = self.own_box(own);
                retirement(own.number, token(&own.key0, self.lane, serial))
            }
        }
    }

    #[tactic(auto, unfolding(step_rules::specs::ClientAsks::proof_of))]
    fn body(&self, stage: &CurrentStep) -> Body<'_>
        requires is { IsState self.now }
        requires current { IsCurrent self.now stage.now }
        ensures body { let current = current_at self.now stage.now in
            body_of (client_in self.now) current.request current.step ≡ Some (plain_body result) }
        ensures sent { is_from_client (plain_body result) ≡ true }
        ensures right { IsBody (plain_body result) }
    {
        match *stage {
            CurrentStep::Deposits(task) => Body::Deposit(self.deposit(&task)),
            CurrentStep::Submits(task) => self.submission(&task),
            CurrentStep::ProvesToHelper(target, ckey) => proof_body(self.proof(target, &ckey).1),
            CurrentStep::ProvesToLeader(target, ckey) => proof_body(self.proof(target, &ckey).0),
        }
    }

    /// The frame of the present step.
    #[tactic(auto, unfolding(step_rules::specs::ClientAsks::sends))]
    pub(crate) fn frame(&self, stage: &CurrentStep) -> Frame<'_>
        requires is { IsState self.now }
        requires current { self.now.stage ≡ Some stage.now }
        ensures frame { (server : ℕ) → server ≡ server_at self.now stage.now →
            sends (client_in self.now) ≡ Some (sent_to server (plain result)) }
        ensures is_frame { IsFrame (plain result) }
    {
        to_server(self.lane, self.current_serial(), &self.body(stage))
    }
}
