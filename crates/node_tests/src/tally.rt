//! The least machine that is worth keeping.
ghost use Rattle.std.specs.Prelude.{◌≡◌, ◌∷◌, [], ℕ, IfSome, IsNone};

use express_words::NoMemory;
use kept_machine::{Machine, Takes};
use node_journal::RECORD_MAX;
use std::alloc::Global;

/// A sum of bytes, past 255 from 0 on.
#[derive(Drop)]
pub struct Tally {
    pub total: u8,
}

// The number that a record adds, if it is one of a tally's.
fn number_in(bytes: &[u8]) -> Option<u8>
    ensures some { IfSome result (λ number. bytes.now ≡ 1 ∷ number ∷ []) }
    ensures none { IsNone result → (number : ℕ) → bytes.now ≡ 1 ∷ number ∷ [] → ⊥ }
{
    let [1, number] = bytes else {
        return None;
    };
    Some(*number)
}

impl Machine for Tally {
    ghost use Rattle.node_tests.specs.Tally.{tally_rules, tally_rules_hold};

    ghost rules = { tally_rules };

    fn is_opening(first: &[u8]) -> bool {
        match first {
            [0] => true,
            _ => false,
        }
    }

    fn is_record(bytes: &[u8]) -> bool {
        match number_in(bytes) {
            Some(_) => true,
            None => false,
        }
    }

    fn open(_alloc: Global, _first: &[u8]) -> Result<Tally, NoMemory> {
        Ok(Tally { total: 0 })
    }

    fn take_memory(&mut self, _alloc: Global, _bytes: &[u8]) -> Result<(), NoMemory> {
        Ok(())
    }

    fn step(&mut self, bytes: &[u8]) {
        let [1, number] = bytes else { unreachable!() };
        self.total = self.total.wrapping_add(*number);
    }

    ghost rules_hold = { tally_rules_hold };
}

impl Takes<u8> for Tally {
    type Told = u8;

    ghost use Rattle.std.specs.Prelude.{◌≡◌, ◌∷◌, [], Some};

    ghost is_input = { λ number. Unit {0} };

    ghost record_of = { λ number. Some (1 ∷ number ∷ []) };

    ghost tells = { λ number before now told out out_new. told ≡ now.total };

    ghost most = { 0 };

    fn record<'r>(input: &u8, room: &'r mut [u8; RECORD_MAX]) -> Option<&'r [u8]> {
        room[..2].copy_from_slice(&[1, *input]);
        Some(&room[..2])
    }

    fn take(&mut self, input: &u8, _out: &mut [u8]) -> u8 {
        self.total = self.total.wrapping_add(*input);
        self.total
    }

    ghost tells_of_same = { λ number a b now told out out_new same tells. tells };
}
