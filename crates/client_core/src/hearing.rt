//! What a reply says to the current request.
ghost use Rattle.std.specs.Prelude.{◌≡◌, ◌<◌, slice_get};
ghost use Rattle.frame_rules.specs.Frames.{plain, plain_body};
ghost use Rattle.frame_rules.specs.Spelling.{IsBody};
ghost use Rattle.mailbox_rules.specs.Requests.{Write};
ghost use Rattle.step_rules.specs.Client.{Client};
ghost use Rattle.step_rules.specs.ClientReplies as replies;
ghost use Rattle.step_rules.specs.ClientReplies.{by_refusal, by_step, refusal_in};
ghost use Rattle.client_core.specs.Stages.{current_in, request_in, Basis, IsKeyed, IsStage, IsTask};
ghost use Rattle.client_core.specs.Heard.{Hears, HearsAt, IsHeard};

use crate::stage::{BareRequest, CurrentStep};
use express_words::Refusal;
use frame_rules::{Body, Frame};

/// What a reply says.
#[derive(Clone, Copy)]
pub(crate) enum Meaning<'a> {
    /// Nothing to the present step.
    Nothing,
    /// To send the same frame later.
    Later(Refusal),
    /// To go on.
    Next(CurrentStep),
    /// That the box of this number is registered.
    Registered(u32),
    /// What the own box of this place held, as both servers' masked shares.
    Message(u32, &'a [u8], &'a [u8]),
    /// That the write is accepted.
    Accepted,
    /// That the request is refused.
    Refused(Refusal),
}

#[tactic(auto, unfolding(step_rules::specs::ClientReplies::on_deposit))]
fn on_deposit(task: &BareRequest, body: &Body<'_>) -> Meaning<'static>
    ensures turn { Hears
        (λ c message. replies.on_deposit c (request_in task.now message) (plain_body body.now)) result }
    ensures heard { (h : Basis) → IsTask h task.now → IsHeard h result }
{
    match *body {
        Body::Held { proof: false } => Meaning::Next(CurrentStep::Submits(*task)),
        _ => Meaning::Nothing,
    }
}

#[tactic(auto, unfolding(step_rules::specs::ClientReplies::on_registered))]
fn on_registered(body: &Body<'_>) -> Meaning<'static>
    ensures turn { Hears (λ c message. replies.on_registered c (plain_body body.now)) result }
    ensures heard { (h : Basis) → h.owned < h.capacity → IsHeard h result }
{
    match *body {
        Body::Registered { box_number } => Meaning::Registered(box_number),
        _ => Meaning::Nothing,
    }
}

#[tactic(auto, unfolding(step_rules::specs::ClientReplies::on_challenge))]
fn on_challenge(target: u128, body: &Body<'_>) -> Meaning<'static>
    ensures turn { Hears
        (λ c message. replies.on_challenge c (Write target message) (plain_body body.now)) result }
    ensures heard { (h : Basis) → IsKeyed h target → IsHeard h result }
{
    match *body {
        Body::Challenge { ckey } => Meaning::Next(CurrentStep::ProvesToHelper(target, ckey)),
        _ => Meaning::Nothing,
    }
}

#[tactic(auto, unfolding(step_rules::specs::ClientReplies::on_message))]
fn on_message<'a>(own: u32, body: &Body<'a>) -> Meaning<'a>
    requires is_body { IsBody (plain_body body.now) }
    ensures turn { Hears
        (λ c message. replies.on_message c (slice_get c.owned own) (plain_body body.now)) result }
    ensures heard { (h : Basis) → own < h.owned → IsHeard h result }
{
    match *body {
        Body::Message { zero, one } => Meaning::Message(own, zero, one),
        _ => Meaning::Nothing,
    }
}

#[tactic(auto, unfolding(step_rules::specs::ClientReplies::on_submission))]
fn on_submission<'a>(task: &BareRequest, body: &Body<'a>) -> Meaning<'a>
    requires is_body { IsBody (plain_body body.now) }
    ensures turn { Hears
        (λ c message. replies.on_submission c (request_in task.now message) (plain_body body.now)) result }
    ensures heard { (h : Basis) → IsTask h task.now → IsHeard h result }
{
    match *task {
        BareRequest::Register(_) => on_registered(body),
        BareRequest::Write(target) => on_challenge(target, body),
        BareRequest::Read(own) => on_message(own, body),
        BareRequest::Retire(own) => on_message(own, body),
    }
}

#[tactic(auto, unfolding(step_rules::specs::ClientReplies::on_helper_proof))]
fn on_helper_proof(target: u128, ckey: &[u8; 32], body: &Body<'_>) -> Meaning<'static>
    ensures turn { Hears
        (λ c message. replies.on_helper_proof c (Write target message) ckey.now (plain_body body.now)) result }
    ensures heard { (h : Basis) → IsKeyed h target → IsHeard h result }
{
    match *body {
        Body::Held { proof: true } => Meaning::Next(CurrentStep::ProvesToLeader(target, *ckey)),
        _ => Meaning::Nothing,
    }
}

#[tactic(auto, unfolding(step_rules::specs::ClientReplies::on_leader_proof))]
fn on_leader_proof(body: &Body<'_>) -> Meaning<'static>
    ensures turn { Hears (λ c message. replies.on_leader_proof c (plain_body body.now)) result }
    ensures heard { (h : Basis) → IsHeard h result }
{
    match *body {
        Body::Accepted => Meaning::Accepted,
        _ => Meaning::Nothing,
    }
}

// What a reply to the present step says that is no refusal.
fn on_step<'a>(stage: &CurrentStep, body: &Body<'a>) -> Meaning<'a>
    requires is_body { IsBody (plain_body body.now) }
    ensures turn { Hears (λ c message. let current = current_in stage.now message in
        by_step c current.request current.step (plain_body body.now)) result }
    ensures heard { (h : Basis) → IsStage h stage.now → IsHeard h result }
{
    match *stage {
        CurrentStep::Deposits(task) => on_deposit(&task, body),
        CurrentStep::Submits(task) => on_submission(&task, body),
        CurrentStep::ProvesToHelper(target, ckey) => on_helper_proof(target, &ckey, body),
        CurrentStep::ProvesToLeader(_, _) => on_leader_proof(body),
    }
}

// Refusals of what was asked end a request where the leader was asked.
fn on_end(stage: &CurrentStep, refusal: Refusal) -> Meaning<'static>
    ensures turn { Hears (λ c message. replies.ended c (current_in stage.now message).step refusal) result }
    ensures heard { (h : Basis) → IsHeard h result }
{
    match *stage {
        CurrentStep::Submits(_) => Meaning::Refused(refusal),
        CurrentStep::ProvesToLeader(_, _) => Meaning::Refused(refusal),
        CurrentStep::Deposits(_) => Meaning::Nothing,
        CurrentStep::ProvesToHelper(_, _) => Meaning::Nothing,
    }
}

#[tactic(auto, unfolding(step_rules::specs::ClientReplies::on_refusal))]
fn on_refusal(stage: &CurrentStep, refusal: Refusal) -> Meaning<'static>
    ensures turn { Hears
        (λ c message. replies.on_refusal c (current_in stage.now message).step refusal) result }
    ensures heard { (h : Basis) → IsHeard h result }
{
    match refusal {
        Refusal::Malformed(_) => Meaning::Nothing,
        Refusal::Version(_) => Meaning::Nothing,
        Refusal::Lane(_) => Meaning::Refused(refusal),
        Refusal::Stale(_) => Meaning::Later(refusal),
        Refusal::Phase(_) => Meaning::Later(refusal),
        Refusal::Again(_) => Meaning::Later(refusal),
        Refusal::LinkDown(_) => Meaning::Later(refusal),
        Refusal::Taken(_) => on_end(stage, refusal),
        Refusal::Full(_) => on_end(stage, refusal),
        Refusal::NoBox(_) => on_end(stage, refusal),
        Refusal::BadToken(_) => on_end(stage, refusal),
        Refusal::NoDeposit => on_end(stage, refusal),
        Refusal::NotProved => on_end(stage, refusal),
        Refusal::Rejected(_, _, _, _) => on_end(stage, refusal),
    }
}

// Whether a refusal is one of bytes that are no frame, which names no lane.
fn of_no_frame(refusal: &Refusal) -> bool
    ensures { result ≡ replies.of_no_frame refusal.now }
{
    matches!(refusal, Refusal::Malformed(_) | Refusal::Version(_))
}

fn is_mine(frame: &Frame<'_>, lane: u16, serial: u64) -> bool
    ensures { (c : Client) → c.lane ≡ lane → c.serial ≡ serial → replies.is_mine c (plain frame.now) ≡ result }
{
    frame.link == 0 && frame.lane == lane && u64::from(frame.serial) == serial
}

/// What a frame says to the request of this lane and serial at this stage.
#[tactic(auto, unfolding(step_rules::specs::ClientReplies::by_refusal))]
pub(crate) fn hear<'a>(
    stage: &CurrentStep,
    lane: u16,
    serial: u64,
    frame: &Frame<'a>,
) -> Meaning<'a>
    requires is_body { IsBody (plain_body frame.now.body) }
    ensures turn { let f = plain frame.now in HearsAt lane serial
        (λ c message. by_refusal c (current_in stage.now message) f (refusal_in f.body)) result }
    ensures heard { (h : Basis) → IsStage h stage.now → IsHeard h result }
{
    let mine = is_mine(frame, lane, serial);
    match frame.body {
        Body::Refused(refusal) => {
            if of_no_frame(&refusal) {
                Meaning::Later(refusal)
            } else if mine {
                on_refusal(stage, refusal)
            } else {
                Meaning::Nothing
            }
        }
        _ => {
            if mine {
                on_step(stage, &frame.body)
            } else {
                Meaning::Nothing
            }
        }
    }
}
