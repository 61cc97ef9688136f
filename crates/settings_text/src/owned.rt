//! The boxes that a client got in an earlier run.
ghost use Rattle.std.specs.Prelude.{◌≡◌, ◌≤◌, [], All, codes, length, map, IfOk, IfSome};
ghost use Rattle.toml.specs.View.{view, table_view};
ghost use Rattle.settings_text.specs.Owned.{IsOwned, owned_box_in, owned_in};
ghost use Rattle.settings_text.specs.Judging.{Gives};
ghost use Rattle.settings_text.specs.Keys.{optional};
ghost use Rattle.settings_text.specs.Values.{every};

use crate::faults::wrong_key;
use crate::values::{list_within, number_at, value_at};
use express_texts::TextFault;
use express_words::{List, NoMemory};
use std::alloc::Global;
use toml::{Table, Value};

/// A box's number is at most this.
pub const LAST_BOX: u32 = 4095;

/// A box of an earlier run, and the serial of the request by which it was registered.
#[derive(Clone, Copy, Debug, PartialEq, Eq)]
pub struct OwnedBox {
    /// At most 4,095.
    pub box_number: u32,
    /// At least 1.
    pub serial: u32,
}

#[tactic(auto, unfolding(crate::specs::Owned::owned_box_in))]
fn owned_box_in(value: &Value) -> Option<OwnedBox>
    ensures value { result ≡ owned_box_in (view value.now) }
    ensures limits { IfSome result IsOwned }
{
    let table = value.as_table()?;
    let box_number = number_at(table, "box", 0, LAST_BOX)?;
    let serial = number_at(table, "serial", 1, u32::MAX)?;
    Some(OwnedBox { box_number, serial })
}

fn owned_boxes(alloc: Global, values: &[Value]) -> Result<Option<List<OwnedBox>>, NoMemory>
    ensures value { IfOk result (λ owned. owned ≡ every owned_box_in (map view values.now)) }
    ensures limits { IfOk result (λ owned. IfSome owned (All IsOwned)) }
    ensures as_many { IfOk result (λ owned. IfSome owned (λ boxes. length boxes ≡ length values.now)) }
{
    let mut owned = Vec::new(alloc);
    for value in values {
        let Some(one) = owned_box_in(value) else {
            return Ok(None);
        };
        owned.push(one)?;
    }
    Ok(Some(List::from_vec(owned)))
}

#[tactic(auto, unfolding(crate::specs::Owned::owned_in))]
fn owned_in(alloc: Global, most: u32, value: &Value) -> Result<Option<List<OwnedBox>>, NoMemory>
    ensures value { IfOk result (λ owned. owned ≡ owned_in most (view value.now)) }
    ensures limits { IfOk result (λ owned. IfSome owned (All IsOwned)) }
    ensures few { IfOk result (λ owned. IfSome owned (λ boxes. length boxes ≤ most)) }
{
    match list_within(0, most as usize, value) {
        Some(values) => owned_boxes(alloc, values),
        None => Ok(None),
    }
}

/// The boxes under `owned`, none where it is missing, and at most so many.
pub fn owned(alloc: Global, most: u32, table: &Table) -> Result<List<OwnedBox>, TextFault>
    ensures value { Gives (λ owned. owned) result
        (optional [] (codes "owned") (owned_in most) (table_view table.now)) }
    ensures limits { IfOk result (All IsOwned) }
    ensures few { IfOk result (λ owned. length owned ≤ most) }
{
    let Some(value) = value_at(table, "owned") else {
        return Ok(List::from_vec(Vec::new(alloc)));
    };
    match owned_in(alloc, most, value)? {
        Some(owned) => Ok(owned),
        None => Err(wrong_key(alloc, "owned")),
    }
}
