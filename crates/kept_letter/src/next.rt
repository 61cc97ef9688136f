//! What is asked of the servers next.
ghost use Rattle.std.specs.Prelude.{◌≡◌, Some, length, take};
ghost use Rattle.express_words.specs.Limits.{IsWidth};
ghost use Rattle.frame_rules.specs.Room.{HasRoom};
ghost use Rattle.mailbox_rules.specs.Requests.{Write};
ghost use Rattle.step_rules.specs.ClientAsks.{sends};
ghost use Rattle.client_core.specs.Answers.{bytes_of};
ghost use Rattle.letter_copies.specs.Copies.{end_of};
ghost use Rattle.kept_letter.specs.Inside.{IsClientFor};
ghost use Rattle.kept_letter.specs.Nexts.{end_or_begin, hash_of, next_of, role_of, send_at, sent_at};
ghost use Rattle.kept_letter.specs.Nexts.{statement_of, ticket_for};

use crate::letter::LetterOnItsWay;
use chacha_expand::choices;
use client_core::Client;
use dpf_keys::generate;
use express_words::Role;
use express_words::limits::{LEVELS_LEN, MOST_WIDTH};
use lane_gate::{StatementHash, Ticket, TicketHash};
use letter_copies::LetterEnd;

/// A frame that goes out.
#[derive(Clone, Copy)]
pub struct Sending {
    /// The server that it goes to.
    pub to: Role,
    /// The ticket of its lane and serial there.
    pub ticket: Ticket,
    /// Of a proof, the hash of its statement.
    pub statement: Option<StatementHash>,
    /// How many bytes it has.
    pub len: usize,
}

/// What a letter needs next.
#[derive(Clone, Copy)]
pub enum LetterNext {
    /// The rest of its text, or a card that takes it.
    Text,
    /// Nothing: this became of it.
    Ended(LetterEnd),
    /// That a try begins.
    Begin,
    /// A lease for the present try, asked at the leader.
    Lease { ticket: Ticket, helper: TicketHash },
    /// That the last proof of the present try is noted.
    NoteProof,
    /// That a frame is sent.
    Send(Sending),
}

fn role_of(server: u8) -> Role
    ensures { result ≡ role_of server }
{
    if server == 0 {
        Role::Leader
    } else {
        Role::Helper
    }
}

// The hash of the statement of a write, made of its challenges' key and its public part.
fn hash_of(
    seed: &[u8; 32],
    serial: u32,
    key: &[u8; 32],
    target: u128,
    message: &[u8],
) -> StatementHash
    requires { IsWidth (length message.now) }
    ensures { Some result ≡ hash_of seed.now serial key.now (Write target message.now) }
{
    let words = choices(seed, serial);
    let mut room = [0; LEVELS_LEN + MOST_WIDTH as usize];
    let part = &mut room[..LEVELS_LEN + message.len()];
    generate(target, message, words[0], words[1], part);
    StatementHash::of(key, part)
}

impl LetterOnItsWay {
    // The hash of the statement of a copy's write, once the key of its challenges came.
    #[tactic(auto, unfolding(crate::specs::Nexts::statement_of))]
    fn statement_of(&self, copy: u8, serial: u32) -> Option<StatementHash>
        ensures { result ≡ statement_of self.now copy serial }
    {
        let key = self.key?;
        let mut room = [0; MOST_WIDTH as usize];
        let message = &mut room[..self.plan.card.width as usize];
        let target = self.write_into(copy, message)?;
        Some(hash_of(&self.present_draws().seed, serial, &key, target, message))
    }

    fn ticket_for(&self, role: Role) -> Ticket
        ensures { result ≡ ticket_for self.now role }
    {
        let draws = self.present_draws();
        match role {
            Role::Leader => draws.leader,
            Role::Helper => draws.helper,
        }
    }

    fn end_or_begin(&self) -> LetterNext
        ensures { result ≡ end_or_begin (end_of self.now.copies) }
    {
        match self.copies.end() {
            None => LetterNext::Begin,
            Some(end) => LetterNext::Ended(end),
        }
    }

    // The frame of the client's step.
    fn send(&self, client: &Client, copy: u8, out: &mut [u8]) -> LetterNext
        requires room { HasRoom out.old }
        requires client { IsClientFor self.now.plan client.now }
        ensures next { result ≡ send_at self.now copy client.now (sends client.now) }
        ensures written { take (length (bytes_of (sends client.now))) out.new ≡ bytes_of (sends client.now) }
    {
        match client.send(out) {
            None => LetterNext::Begin,
            Some((server, len)) => {
                let to = role_of(server);
                LetterNext::Send(Sending {
                    to,
                    ticket: self.ticket_for(to),
                    statement: self.statement_of(copy, client.serial() as u32),
                    len,
                })
            }
        }
    }

    /// What it needs next. A frame is at the front of `out`.
    #[tactic(auto, unfolding(crate::specs::Nexts::next_of))]
    pub fn next(&self, out: &mut [u8]) -> LetterNext
        requires room { HasRoom out.old }
        ensures next { result ≡ next_of self.now }
        ensures written { let frame = bytes_of (sent_at result self.now.client) in
            take (length frame) out.new ≡ frame }
    {
        if !self.is_text_whole() {
            return LetterNext::Text;
        }
        let Some(tried) = self.copies.present() else {
            return self.end_or_begin();
        };
        let Some(client) = &self.client else {
            let draws = self.present_draws();
            return LetterNext::Lease {
                ticket: draws.leader,
                helper: draws.helper.hash(),
            };
        };
        if client.is_at_last_proof() && !tried.proof_out {
            return LetterNext::NoteProof;
        }
        self.send(client, tried.copy, out)
    }
}
