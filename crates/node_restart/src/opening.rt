//! How a server is opened, and the record of it.
ghost use Rattle.std.specs.Prelude.{◌≡◌, ◌∷◌, [], IsNone, IfSome, IsSome, length};
ghost use Rattle.std.specs.Int.{w16, w32, to_be_bytes, from_be_bytes};
ghost use Rattle.node_restart.specs.Openings.{IsOpening, opening_record, role_number};

use express_words::{Role, Settings};

/// How many bytes the record of an opening has.
pub const OPENING_LEN: usize = 45;

/// How a server is opened: which of the two it is, the settings, and the seed of its draws.
#[derive(Clone, Copy, Debug, PartialEq, Eq)]
pub struct Opening {
    pub role: Role,
    pub settings: Settings,
    pub seed: [u8; 32],
}

fn role_number(role: Role) -> u8
    ensures { result ≡ role_number role }
{
    match role {
        Role::Leader => 0,
        Role::Helper => 1,
    }
}

#[tactic(auto, using(crate::proofs::OpeningLaws::no_role))]
fn role_numbered(number: u8) -> Option<Role>
    ensures some { IfSome result (λ role. role_number role ≡ number) }
    ensures none { IsNone result → (role : Role) → role_number role ≡ number → ⊥ }
{
    match number {
        0 => Some(Role::Leader),
        1 => Some(Role::Helper),
        _ => None,
    }
}

fn wide(a: u8, b: u8, c: u8, d: u8) -> u32
    ensures number { result ≡ from_be_bytes w32 (a ∷ b ∷ c ∷ d ∷ []) }
    ensures spelled { to_be_bytes w32 result ≡ a ∷ b ∷ c ∷ d ∷ [] }
{
    u32::from_be_bytes([a, b, c, d])
}

fn short(a: u8, b: u8) -> u16
    ensures number { result ≡ from_be_bytes w16 (a ∷ b ∷ []) }
    ensures spelled { to_be_bytes w16 result ≡ a ∷ b ∷ [] }
{
    u16::from_be_bytes([a, b])
}

impl Opening {
    /// The record: tag, role, width, boxes, lanes, window and seed.
    pub fn record(&self) -> [u8; OPENING_LEN]
        ensures { result ≡ opening_record self.now }
    {
        let [w0, w1, w2, w3] = self.settings.width.to_be_bytes();
        let [b0, b1, b2, b3] = self.settings.boxes.to_be_bytes();
        let [l0, l1] = self.settings.lanes.to_be_bytes();
        let window = self.settings.window;
        let role = role_number(self.role);
        let head = [0, role, w0, w1, w2, w3, b0, b1, b2, b3, l0, l1, window];
        let mut bytes = [0; OPENING_LEN];
        bytes[..13].copy_from_slice(&head);
        bytes[13..].copy_from_slice(&self.seed);
        bytes
    }

    /// The opening that a record is, if it is one.
    pub fn of(bytes: &[u8]) -> Option<Opening>
        ensures some { IfSome result IsOpening }
        ensures is { IfSome result (λ o. bytes.now ≡ opening_record o) }
        ensures none { IsNone result → (o : Opening) → IsOpening o → bytes.now ≡ opening_record o → ⊥ }
    {
        let [
            0,
            role,
            w0,
            w1,
            w2,
            w3,
            b0,
            b1,
            b2,
            b3,
            l0,
            l1,
            window,
            seed @ ..,
        ] = bytes
        else {
            return None;
        };
        let role = role_numbered(*role)?;
        let width = wide(*w0, *w1, *w2, *w3);
        let boxes = wide(*b0, *b1, *b2, *b3);
        let settings = Settings::new(width, boxes, short(*l0, *l1), *window)?;
        if seed.len() != 32 {
            return None;
        }
        let mut key = [0; 32];
        key.copy_from_slice(seed);
        Some(Opening {
            role,
            settings,
            seed: key,
        })
    }
}
