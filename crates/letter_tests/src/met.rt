//! Boxes that met, taken apart by a search; the laws of what is told of them.
ghost use Rattle.std.specs.Prelude.{◌≡◌, ◌<◌, ◌↔◌, length, All, IsTrue};

use known_pieces::laws;
use std::test::Fail;
use subset_search::{Target, find_subset};

// A sum that is one box.
#[derive(Drop)]
struct Alone<'a> {
    bytes: &'a [u8],
}

impl Target for Alone<'_> {
    ghost IsMet = { λ alone sum. sum ≡ alone.bytes.now };

    fn is_met(&self, sum: &[u8]) -> bool {
        sum == self.bytes
    }
}

fn are_wide(boxes: &[&[u8]], width: usize) -> bool
    ensures { IsTrue result ↔ All (λ box. length box.now ≡ width) boxes.now }
{
    boxes.iter().all(|box_bytes| box_bytes.len() == width)
}

fn are_below(indices: &[usize], count: usize) -> bool
    ensures { IsTrue result ↔ All (λ i. i < count) indices.now }
{
    indices.iter().all(|i| *i < count)
}

#[test]
fn one_of_three_is_left(rt: HostRuntime) -> Result<(), Fail> {
    let boxes: [&[u8]; 3] = [&[1, 3], &[2, 5], &[4, 8]];
    let candidates = [0, 1, 2];
    let mut chosen = [false; 3];
    let mut sum = [7u8, 14];
    assert!(rt; are_wide(&boxes, sum.len()));
    assert!(rt; are_below(&candidates, boxes.len()));
    let target = Alone { bytes: &[4, 8] };
    assert!(rt; find_subset(&target, &mut sum, &boxes, &candidates, &mut chosen));
    assert_eq!(rt; sum, [4, 8]);
    assert_eq!(rt; chosen, [true, true, false]);
    Ok(())
}

#[test]
fn none_is_left_alone(rt: HostRuntime) -> Result<(), Fail> {
    let boxes: [&[u8]; 2] = [&[1, 3], &[2, 5]];
    let candidates = [0, 1];
    let mut chosen = [false; 2];
    let mut sum = [7u8, 14];
    assert!(rt; are_wide(&boxes, sum.len()));
    assert!(rt; are_below(&candidates, boxes.len()));
    let target = Alone { bytes: &[9, 9] };
    assert!(rt; !find_subset(&target, &mut sum, &boxes, &candidates, &mut chosen));
    assert_eq!(rt; sum, [7, 14]);
    Ok(())
}

#[test]
fn laws_are_called() {
    laws::told_is_known();
    laws::told_was_put();
    laws::peeled_is_told();
    laws::readings_are_told();
    laws::none_opens();
}
