//! The frames that a server is handed, and the records of them.
ghost use Rattle.std.specs.Prelude.{◌≡◌, ◌≤◌, ◌+◌, ◌↔◌, IsTrue, IsNone, IfSome, length};
ghost use Rattle.node_restart.specs.Frames.{IsOneFrame, IsNoFrame, handed, frame_record, sender_tag};

use node_journal::RECORD_MAX;
use wire_frames::Received;

/// Who handed a frame to a server.
#[derive(Clone, Copy, Debug, PartialEq, Eq)]
pub enum Sender {
    Client,
    /// The other server.
    Peer,
}

fn tag_of(sender: Sender) -> u8
    ensures { result ≡ sender_tag sender }
{
    match sender {
        Sender::Client => 1,
        Sender::Peer => 2,
    }
}

fn sender_tagged(tag: u8) -> Option<Sender>
    ensures some { IfSome result (λ sender. sender_tag sender ≡ tag) }
    ensures none { IsNone result → (sender : Sender) → sender_tag sender ≡ tag → ⊥ }
{
    match tag {
        1 => Some(Sender::Client),
        2 => Some(Sender::Peer),
        _ => None,
    }
}

/// Whether the bytes are exactly one frame.
#[tactic(auto, using(frame_rules::proofs::GrammarLaws::spelling_limit))]
pub(crate) fn is_one_frame(received: &Received<'_>) -> bool
    ensures exact { IsTrue result ↔ IsOneFrame received.now }
    ensures some { IsTrue result → 1 ≤ length received.now }
    ensures few { IsTrue result → length received.now ≤ 8213 }
{
    received.frame().is_ok()
}

/// The record of a frame.
pub fn put_record<'a>(sender: Sender, frame: &[u8], room: &'a mut [u8; RECORD_MAX]) -> &'a [u8]
    requires { length frame.now ≤ 8213 }
    ensures { result.now ≡ frame_record (handed sender frame.now) }
{
    let end = 1 + frame.len();
    room[..1].copy_from_slice(&[tag_of(sender)]);
    room[1..end].copy_from_slice(frame);
    &room[..end]
}

/// The frame of a record, and who handed it, if it is one.
pub fn frame_in(bytes: &[u8]) -> Option<(Sender, Received<'_>)>
    ensures some { IfSome result (λ x. IsOneFrame x.1) }
    ensures is { IfSome result (λ x. bytes.now ≡ frame_record (handed x.0 x.1)) }
    ensures none { IsNone result → IsNoFrame bytes.now }
{
    let (tag, frame) = bytes.split_first()?;
    let sender = sender_tagged(*tag)?;
    let received = Received::of(frame);
    if is_one_frame(&received) {
        Some((sender, received))
    } else {
        None
    }
}
