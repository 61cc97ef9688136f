//! How a request comes to a client.
ghost use Rattle.std.specs.Prelude.{◌≡◌, ◌<◌, ◌^◌, if◌then◌else◌, nat_le, length, IfOk, IfErr, OnErr, Some, None, Ok, Err, option_map};
ghost use Rattle.step_rules.specs.Client.{NoBox};
ghost use Rattle.step_rules.specs.ClientAsks.{own_fault, fault_at, asked, with_request};
ghost use Rattle.client_core.specs.Requests.{plain_request, fault_in};
ghost use Rattle.client_core.specs.Stages.{request_in, IsTask, IsKeyed};
ghost use Rattle.client_core.specs.States.{client_in, IsState, held_in};

use crate::request::{AskFault, Request};
use crate::stage::{BareRequest, CurrentStep};
use crate::state::ClientState;
use dpf_keys::generate;

impl ClientState {
    // What of the boxes and the width is against a request.
    fn own_fault(&self, request: &Request<'_>) -> Option<AskFault>
        requires is { IsState self.now }
        ensures { option_map fault_in result ≡ own_fault (client_in self.now) (plain_request request.now) }
    {
        match *request {
            Request::Register { .. } => {
                if self.is_full() {
                    Some(AskFault::OwnFull(self.capacity))
                } else {
                    None
                }
            }
            Request::Write { message, .. } => {
                if message.len() == self.width as usize {
                    None
                } else {
                    Some(AskFault::Width(self.width))
                }
            }
            Request::Read { own } => self.box_fault(own),
            Request::Retire { own } => self.box_fault(own),
        }
    }

    fn box_fault(&self, own: u32) -> Option<AskFault>
        ensures { option_map fault_in result
            ≡ (if nat_le (length self.now.owned.items) own then Some (NoBox own) else None) }
    {
        if own as usize >= self.owned.len() {
            Some(AskFault::NoBox(own))
        } else {
            None
        }
    }

    /// What is against a request.
    pub(crate) fn fault(&self, request: &Request<'_>) -> Option<AskFault>
        requires is { IsState self.now }
        ensures fault { let client = client_in self.now in
            option_map fault_in result ≡ fault_at client (plain_request request.now) client.current }
        ensures idle { result ≡ None → self.now.stage ≡ None }
        ensures unspent { result ≡ None → self.now.serial < 2 ^ 32 }
        ensures own { result ≡ None → own_fault (client_in self.now) (plain_request request.now) ≡ None }
    {
        if self.stage.is_some() {
            return Some(AskFault::Busy);
        }
        if self.serial > u64::from(u32::MAX) {
            return Some(AskFault::Spent);
        }
        self.own_fault(request)
    }

    // Takes the message of a write, and makes its public part.
    fn make_keys(&mut self, target: u128, message: &[u8])
        requires is { IsState self.old }
        requires idle { self.old.stage ≡ None }
        requires unspent { self.old.serial < 2 ^ 32 }
        requires width { length message.now ≡ self.old.width }
        ensures keyed { IsKeyed (held_in self.new) target }
        ensures message { self.new.message.items ≡ message.now }
        ensures rest { record self.new { message = self.old.message; part = self.old.part } ≡ self.old }
        ensures is { IsState self.new }
    {
        let words = self.words();
        self.message.copy_from_slice(message);
        generate(target, message, words[0], words[1], &mut self.part);
    }

    // The request without its message, which is kept.
    fn task(&mut self, request: &Request<'_>) -> BareRequest
        requires is { IsState self.old }
        requires idle { self.old.stage ≡ None }
        requires unspent { self.old.serial < 2 ^ 32 }
        requires own { own_fault (client_in self.old) (plain_request request.now) ≡ None }
        ensures request { request_in result self.new.message.items ≡ plain_request request.now }
        ensures task { IsTask (held_in self.new) result }
        ensures rest { record self.new { message = self.old.message; part = self.old.part } ≡ self.old }
        ensures is { IsState self.new }
    {
        match *request {
            Request::Register { address } => BareRequest::Register(address),
            Request::Write { target, message } => {
                self.make_keys(target, message);
                BareRequest::Write(target)
            }
            Request::Read { own } => BareRequest::Read(own),
            Request::Retire { own } => BareRequest::Retire(own),
        }
    }

    pub(crate) fn ask(&mut self, request: &Request<'_>) -> Result<(), AskFault>
        requires is { IsState self.old }
        ensures asked { IfOk result (λ _.
            asked (client_in self.old) (plain_request request.now) ≡ Ok (client_in self.new)) }
        ensures refused { IfErr result (λ fault.
            asked (client_in self.old) (plain_request request.now) ≡ Err (fault_in fault)) }
        ensures same { OnErr result (self.new ≡ self.old) }
        ensures width { self.new.width ≡ self.old.width }
        ensures is { IsState self.new }
    {
        match self.fault(request) {
            Some(fault) => Err(fault),
            None => {
                let task = self.task(request);
                self.stage = Some(CurrentStep::Deposits(task));
                Ok(())
            }
        }
    }
}
