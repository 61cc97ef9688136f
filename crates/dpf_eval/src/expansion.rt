//! The expansion of nodes into their raw children: eight at once where eight stand ready, and one step each.
ghost use Rattle.std.specs.Prelude.{◌≡◌, ◌+◌, ◌*◌, ◌/◌, ◌≤◌, length, map, take};
ghost use Rattle.dpf_rules.specs.Keys.{raw_pair};

use crate::steps::Steps;
use chacha_expand::{children, children8};
use std::sync::ledger::Ledger;

// Expands one node.
fn expand_one<L: Ledger>(node: u128, steps: &mut Steps<L>) -> (u128, u128)
    ensures pair { result ≡ raw_pair node }
    ensures steps { steps.new ≡ steps.old + 1 }
{
    steps.tick();
    children(node)
}

// Expands eight nodes.
fn expand_eight<L: Ledger>(nodes: &[u128; 8], steps: &mut Steps<L>) -> [(u128, u128); 8]
    ensures pairs { result ≡ map raw_pair nodes.now }
    ensures steps { steps.new ≡ steps.old + 8 }
{
    for _lane in 0..8u32 {
        steps.tick();
    }
    children8(nodes)
}

// Expands eight nodes at a time, as long as eight stand ready, and gives the number of those that were
// expanded.
fn expand_eights<L: Ledger>(
    nodes: &[u128],
    pairs: &mut [(u128, u128)],
    steps: &mut Steps<L>,
) -> usize
    requires { length nodes.now ≤ length pairs.old }
    ensures within { result ≤ length nodes.now }
    ensures pairs { take result pairs.new ≡ map raw_pair (take result nodes.now) }
    ensures steps { steps.new ≡ steps.old + result }
{
    let mut at = 0;
    while nodes.len() - at >= 8 {
        let mut eight = [0; 8];
        eight.copy_from_slice(&nodes[at..at + 8]);
        pairs[at..at + 8].copy_from_slice(&expand_eight(&eight, steps));
        at += 8;
    }
    at
}

/// Expands each node once.
pub(crate) fn expand<L: Ledger>(nodes: &[u128], pairs: &mut [(u128, u128)], steps: &mut Steps<L>)
    requires { length nodes.now ≤ length pairs.old }
    ensures pairs { take (length nodes.now) pairs.new ≡ map raw_pair nodes.now }
    ensures steps { steps.new ≡ steps.old + length nodes.now }
{
    let start = expand_eights(nodes, pairs, steps);
    for k in start..nodes.len() {
        pairs[k] = expand_one(nodes[k], steps);
    }
}
