//! Boxes by the order of their addresses.
ghost use Rattle.std.specs.Prelude.{◌≡◌, ℕ, ◌<◌, ◌≤◌, ◌==◌, nat_lt, false, IfSome, IfNone, unwrap_or};
ghost use Rattle.std.specs.Prelude.{length, vec_len, vec_capacity, slice_get, slice_index, filter, map};
ghost use Rattle.std.specs.Prelude.{position, Contains};
ghost use Rattle.dpf_eval.specs.Order.{IsOrder, has_box, StandAtBoxes};

/// Addresses by box, and the boxes by rising address.
#[derive(Clone, Copy)]
pub(crate) struct Sorted<'a> {
    pub(crate) addresses: &'a [u128],
    pub(crate) order: &'a [u32],
}

/// How many boxes have an address below this one.
pub(crate) fn place_of(addresses: &[u128], order: &[u32], address: u128) -> usize
    requires { IsOrder addresses.now order.now }
    ensures within { result ≤ length order.now }
    ensures below { (k : ℕ) → k < result → slice_index addresses.now (slice_index order.now k) < address }
    ensures above { (k : ℕ) → result ≤ k → k < length order.now
        → address ≤ slice_index addresses.now (slice_index order.now k) }
{
    order.partition_point(|b| is_below(addresses, *b, address))
}

// Whether a box has an address below this one.
fn is_below(addresses: &[u128], box_number: u32, address: u128) -> bool
    ensures { result ≡ nat_lt (unwrap_or (slice_get addresses.now box_number) address) address }
{
    match addresses.get(box_number as usize) {
        Some(other) => *other < address,
        None => false,
    }
}

/// The box of an address.
pub(crate) fn find(addresses: &[u128], order: &[u32], address: u128) -> Option<u32>
    requires { IsOrder addresses.now order.now }
    ensures place { result ≡ position (λ other. other == address) addresses.now }
    ensures there { IfSome result (λ b. b < length addresses.now) }
    ensures absent { IfNone result (¬ (Contains addresses.now address)) }
{
    let place = place_of(addresses, order, address);
    if place < order.len() && addresses[order[place] as usize] == address {
        Some(order[place])
    } else {
        None
    }
}

/// Lists the boxes below `count` in the same order.
pub(crate) fn choose(order: &[u32], count: u32, boxes: &mut Vec<u32>)
    requires { length order.now ≤ vec_capacity boxes.old }
    ensures chosen { boxes.new.items ≡ filter (λ b. nat_lt b count) order.now }
    ensures within { vec_len boxes.new ≤ length order.now }
    ensures room { vec_capacity boxes.new ≡ vec_capacity boxes.old }
{
    boxes.clear();
    for b in order {
        if *b < count {
            boxes.push_reserved(*b);
        }
    }
}

/// Lists the addresses of the boxes.
pub(crate) fn addresses_into(addresses: &[u128], boxes: &[u32], out: &mut Vec<u128>)
    requires inside { (k : ℕ) → k < length boxes.now → slice_index boxes.now k < length addresses.now }
    requires room { length boxes.now ≤ vec_capacity out.old }
    ensures addresses { out.new.items ≡ map (slice_index addresses.now) boxes.now }
    ensures room { vec_capacity out.new ≡ vec_capacity out.old }
{
    out.clear();
    for b in boxes {
        out.push_reserved(addresses[*b as usize]);
    }
}

/// Writes each value to the place of its box.
pub(crate) fn write_at(boxes: &[u32], values: &[u128], out: &mut [u128])
    requires inside { (k : ℕ) → k < length boxes.now → slice_index boxes.now k < length out.old }
    requires values { length boxes.now ≤ length values.now }
    ensures written { StandAtBoxes boxes.now values.now out.new }
    ensures others { (b : ℕ) → has_box boxes.now b ≡ false → slice_index out.new b ≡ slice_index out.old b }
{
    for k in 0..boxes.len() {
        out[boxes[k] as usize] = values[k];
    }
}
