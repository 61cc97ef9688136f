//! What a client holds between two frames, and how a request comes into it.
ghost use Rattle.std.specs.Prelude.{◌≡◌, ◌<◌, ◌≤◌, ◌++◌, ◌∷◌, [], nat_le, length, IfOk, None};
ghost use Rattle.express_words.specs.Limits.{IsWidth};
ghost use Rattle.step_rules.specs.Client.{opened_client};
ghost use Rattle.step_rules.specs.ClientAsks.{owned_by};
ghost use Rattle.client_core.specs.States.{client_in, IsState};

use crate::stage::CurrentStep;
use chacha_expand::owner_keys;
use express_words::NoMemory;
use express_words::limits::LEVELS_LEN;
use std::alloc::Global;

/// A box of the client's own: its number, and its keys at server 0 and server 1.
#[derive(Clone, Copy)]
pub(crate) struct KeyedBox {
    pub(crate) number: u32,
    pub(crate) key0: [u8; 32],
    pub(crate) key1: [u8; 32],
}

/// A client, with room for a message, for a public part, and for all of its boxes.
#[derive(Drop)]
pub(crate) struct ClientState {
    pub(crate) lane: u16,
    pub(crate) seed: [u8; 32],
    pub(crate) width: u32,
    pub(crate) capacity: u32,
    pub(crate) owned: Vec<KeyedBox>,
    /// Of the current request, or else of the next one; 2^32 where all are spent.
    pub(crate) serial: u64,
    pub(crate) stage: Option<CurrentStep>,
    /// The message of the current request, if that is a write.
    pub(crate) message: Vec<u8>,
    /// Its public part.
    pub(crate) part: Vec<u8>,
}

fn zeros(alloc: Global, count: usize) -> Result<Vec<u8>, NoMemory>
    ensures { IfOk result (λ bytes. length bytes.items ≡ count) }
{
    match vec![in alloc; 0u8; count] {
        Ok(bytes) => Ok(bytes),
        Err(_) => Err(NoMemory),
    }
}

impl ClientState {
    #[tactic(auto, unfolding(step_rules::specs::Client::opened_client))]
    pub(crate) fn open(
        alloc: Global,
        lane: u16,
        seed: &[u8; 32],
        width: u32,
        capacity: u32,
        first_serial: u32,
    ) -> Result<ClientState, NoMemory>
        requires width { IsWidth width }
        requires serial { 1 ≤ first_serial }
        ensures opened { IfOk result (λ s.
            client_in s ≡ opened_client lane seed.now width capacity first_serial) }
        ensures width { IfOk result (λ s. s.width ≡ width) }
        ensures idle { IfOk result (λ s. s.stage ≡ None) }
        ensures is { IfOk result IsState }
    {
        let Ok(owned) = Vec::with_capacity(alloc, capacity as usize) else {
            return Err(NoMemory);
        };
        let message = zeros(alloc, width as usize)?;
        let part = zeros(alloc, LEVELS_LEN + width as usize)?;
        Ok(ClientState {
            lane,
            seed: *seed,
            width,
            capacity,
            owned,
            serial: u64::from(first_serial),
            stage: None,
            message,
            part,
        })
    }

    /// Whether there is no room for another box.
    pub(crate) fn is_full(&self) -> bool
        requires is { IsState self.now }
        ensures { result ≡ nat_le self.now.capacity (length self.now.owned.items) }
    {
        self.owned.len() >= self.capacity as usize
    }

    /// A box of this number, registered with this serial, is the client's own.
    pub(crate) fn add_box(&mut self, number: u32, serial: u32)
        requires is { IsState self.old }
        requires room { length self.old.owned.items < self.old.capacity }
        ensures added { let client = client_in self.old in
            client_in self.new ≡ record client { owned = client.owned ++ owned_by client number serial ∷ [] } }
        ensures rest { record self.new { owned = self.old.owned } ≡ self.old }
        ensures is { self.old.stage ≡ None → IsState self.new }
    {
        let (key0, key1) = owner_keys(&self.seed, serial);
        self.owned.push_reserved(KeyedBox { number, key0, key1 });
    }
}
