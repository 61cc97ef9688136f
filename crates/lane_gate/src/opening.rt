//! How a gate is opened, and the record of it.
ghost use Rattle.std.specs.Prelude.{◌≡◌, ◌∷◌, [], IsNone, IfSome};
ghost use Rattle.std.specs.Int.{w16, to_be_bytes, from_be_bytes};
ghost use Rattle.lane_gate.specs.Openings.{IsGateOpening, opening_record};

use express_words::limits::MOST_LANES;

/// How many bytes the record of an opening has.
pub const OPENING_LEN: usize = 5;

/// How many lanes are owners', from lane 0 on, and how many behind them are the strangers': at most 256 in
/// all.
#[derive(Clone, Copy, Debug, PartialEq, Eq)]
pub struct GateOpening {
    pub owners: u16,
    pub strangers: u16,
}

/// Two bytes, big-endian.
pub(crate) fn short(a: u8, b: u8) -> u16
    ensures number { result ≡ from_be_bytes w16 (a ∷ b ∷ []) }
    ensures spelled { to_be_bytes w16 result ≡ a ∷ b ∷ [] }
{
    u16::from_be_bytes([a, b])
}

impl GateOpening {
    /// The record: the tag 16, and both numbers, big-endian.
    pub fn record(&self) -> [u8; OPENING_LEN]
        ensures { result ≡ opening_record self.now }
    {
        let [o0, o1] = self.owners.to_be_bytes();
        let [s0, s1] = self.strangers.to_be_bytes();
        [16, o0, o1, s0, s1]
    }

    /// The opening that a record is, if it is one.
    pub fn of(bytes: &[u8]) -> Option<GateOpening>
        ensures some { IfSome result IsGateOpening }
        ensures is { IfSome result (λ o. bytes.now ≡ opening_record o) }
        ensures none { IsNone result → (o : GateOpening) → IsGateOpening o
            → bytes.now ≡ opening_record o → ⊥ }
    {
        let [16, o0, o1, s0, s1] = bytes else {
            return None;
        };
        let owners = short(*o0, *o1);
        let strangers = short(*s0, *s1);
        if u32::from(owners) + u32::from(strangers) > u32::from(MOST_LANES) {
            return None;
        }
        Some(GateOpening { owners, strangers })
    }
}
