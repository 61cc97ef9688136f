//! All levels of the tree, from the root to the leaves.
ghost use Rattle.std.specs.Prelude.{◌≡◌, ◌+◌, ◌==◌, ◌^◌, ◌<◌, ◌≤◌, IfOk, length, map};
ghost use Rattle.std.specs.List.Sorted.{IsStrictlyIncreasing};
ghost use Rattle.std.specs.Set.{distinct_count};
ghost use Rattle.dpf_rules.specs.Walk.{leaf_of};
ghost use Rattle.dpf_rules.specs.Evaluation.{prefix, prefix_count};
ghost use Rattle.dpf_eval.specs.Groups.{IsSplit, AreGrouped, HaveDescended};
ghost use Rattle.dpf_eval.specs.Order.{GivesEach};

use crate::entries::Entries;
use crate::expansion::expand;
use crate::key::ServerKey;
use crate::levels::{correction_at, descend, gather, start};
use crate::steps::Steps;
use dpf_keys::PublicPart;
use dpf_keys::levels::with_bit;
use std::alloc::{AllocError, Global};
use std::marker::Model;
use std::sync::ledger::Ledger;

/// How far the entries have come: their states; and room for the nodes of one level, their states and raw
/// children.
#[derive(Drop)]
pub(crate) struct Descent {
    states: Vec<u128>,
    nodes: Vec<u128>,
    pairs: Vec<(u128, u128)>,
}

impl Model for Descent {
    ghost use Rattle.std.specs.Prelude.{List, ℕ, vec_len};
    ghost use Rattle.dpf_eval.specs.Room.{AreAsLong};

    ghost Value = { List ℕ };

    ghost view = { λ d. d.states.items };

    ghost invariant = { λ d. AreAsLong (vec_len d.states) (vec_len d.nodes) (vec_len d.pairs) };
}

impl Descent {
    /// Takes room for `size` entries.
    pub(crate) fn open(alloc: Global, size: usize) -> Result<Descent, AllocError>
        ensures { IfOk result (λ states. length states ≡ size) }
    {
        Ok(Descent {
            states: vec![in alloc; 0u128; size]?,
            nodes: vec![in alloc; 0u128; size]?,
            pairs: vec![in alloc; (0u128, 0u128); size]?,
        })
    }

    /// The states, those of the entries first.
    pub(crate) fn states(&self) -> &[u128]
        ensures { result.now ≡ self.now }
    {
        &self.states
    }

    /// Takes every entry one level down, with one step for each different prefix.
    fn descend_level<L: Ledger>(
        &mut self,
        part: &PublicPart,
        entries: &Entries,
        level: u8,
        steps: &mut Steps<L>,
    )
        requires level { level < 128 }
        requires size { length entries.now.addresses.items < 2 ^ 32 }
        requires room { length entries.now.addresses.items ≤ length self.old }
        requires splits { length entries.now.splits.items ≡ length entries.now.addresses.items }
        requires split { IsSplit entries.now.addresses.items entries.now.splits.items }
        requires rising { IsStrictlyIncreasing entries.now.addresses.items }
        requires grouped { AreGrouped level entries.now.addresses.items self.old }
        ensures states { HaveDescended part.now level entries.now.addresses.items self.old self.new }
        ensures room { length self.new ≡ length self.old }
        ensures steps { steps.new
            ≡ steps.old + distinct_count ◌==◌ (map (prefix level) entries.now.addresses.items) }
    {
        let groups = gather(&self.states, &entries.splits, level, &mut self.nodes);
        expand(&self.nodes[..groups], &mut self.pairs, steps);
        let correction = correction_at(part, level);
        descend(
            &entries.addresses,
            &entries.splits,
            level,
            &correction,
            &self.pairs,
            &mut self.states,
        );
    }

    /// Takes every entry from the root to its leaf, with one step for each different proper prefix.
    pub(crate) fn descend_all<L: Ledger>(
        &mut self,
        key: ServerKey,
        entries: &Entries,
        steps: &mut Steps<L>,
    )
        requires server { key.server < 2 }
        requires size { length entries.now.addresses.items < 2 ^ 32 }
        requires room { length entries.now.addresses.items ≤ length self.old }
        requires splits { length entries.now.splits.items ≡ length entries.now.addresses.items }
        requires split { IsSplit entries.now.addresses.items entries.now.splits.items }
        requires rising { IsStrictlyIncreasing entries.now.addresses.items }
        ensures leaves { GivesEach (leaf_of key.entry.part.now key.entry.server key.entry.root)
            entries.now.addresses.items self.new }
        ensures room { length self.new ≡ length self.old }
        ensures steps { steps.new ≡ steps.old + prefix_count entries.now.addresses.items }
    {
        let root = with_bit(key.root, u128::from(key.server));
        start(&mut self.states, entries.addresses.len(), root);
        for level in 0..128u8 {
            self.descend_level(key.part, entries, level, steps);
        }
    }
}
