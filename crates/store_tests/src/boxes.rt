//! The registry in arrays beside the plain one, and one of the largest settings.
use crate::plain::PlainRegistry;
use box_registry::*;
use std::test::Fail;

// Addresses to register, with a limit of three, and the answers: new ones, one that stands, more than fit,
// one that stands among them.
const CALLS: [(u128, Result<u32, RegFault>); 7] = [
    (5, Ok(0)),
    (u128::MAX, Ok(1)),
    (5, Err(RegFault::Taken(0))),
    (0, Ok(2)),
    (7, Err(RegFault::Full(3))),
    (u128::MAX, Err(RegFault::Taken(1))),
    (1 << 127, Err(RegFault::Full(3))),
];

fn array_adds(
    boxes: &mut Registry,
    address: u128,
    key: &[u8; 32],
    answer: Result<u32, RegFault>,
) -> bool {
    boxes.add(address, key) == answer
}

fn plain_adds(
    boxes: &mut PlainRegistry,
    address: u128,
    key: &[u8; 32],
    answer: Result<u32, RegFault>,
) -> bool {
    match boxes.add(address, key) {
        Ok(plain) => plain == answer,
        Err(_) => false,
    }
}

fn same_place(arrays: &Registry, plain: &PlainRegistry, address: u128) -> bool {
    arrays.box_of(address) == plain.box_of(address)
}

fn same_box(arrays: &Registry, plain: &PlainRegistry, b: u32) -> bool {
    b < arrays.count()
        && b < plain.count()
        && arrays.address_of(b) == plain.address_of(b)
        && *arrays.key_of(b) == *plain.key_of(b)
}

fn same_addresses(arrays: &Registry, plain: &PlainRegistry) -> bool {
    let count = arrays.count();
    count == plain.count() && *arrays.first(count) == *plain.first(count)
}

type Call = (u128, Result<u32, RegFault>);

// Whether both answer each call so, and find the address in the same place.
fn answer_alike(arrays: &mut Registry, plain: &mut PlainRegistry, calls: &[Call]) -> bool {
    let mut alike = true;
    let mut key = [0u8; 32];
    for (address, answer) in calls {
        alike = plain_adds(plain, *address, &key, *answer) & alike;
        alike = array_adds(arrays, *address, &key, *answer) & alike;
        alike = same_place(arrays, plain, *address) & alike;
        key[0] = key[0].wrapping_add(1);
    }
    alike
}

fn hold_the_same(arrays: &Registry, plain: &PlainRegistry) -> [bool; 4] {
    [
        same_box(arrays, plain, 0),
        same_box(arrays, plain, 1),
        same_box(arrays, plain, 2),
        same_addresses(arrays, plain),
    ]
}

// Both answer each call alike, and hold the same boxes then.
#[test]
fn both_registries_answer_alike(rt: HostRuntime) -> Result<(), Fail> {
    let mut arrays = Registry::open(rt.alloc(), 3)?;
    let mut plain = PlainRegistry::open(rt.alloc(), 3);
    let alike = answer_alike(&mut arrays, &mut plain, &CALLS);
    assert!(rt; alike && hold_the_same(&arrays, &plain) == [true; 4]);
    Ok(())
}

fn is_filled(boxes: &mut Registry) -> bool {
    let mut filled = true;
    for address in 0..4096u32 {
        filled = array_adds(boxes, u128::from(address), &[7; 32], Ok(address)) & filled;
    }
    filled
}

// As many boxes as may stand: the last one has its address and key.
#[test]
fn the_last_of_4096_boxes_stands_and_one_more_is_full(rt: HostRuntime) -> Result<(), Fail> {
    let mut boxes = Registry::open(rt.alloc(), 4096)?;
    let told = [
        is_filled(&mut boxes),
        array_adds(&mut boxes, u128::MAX, &[7; 32], Err(RegFault::Full(4096))),
        boxes.count() == 4096,
        boxes.box_of(4095) == Some(4095),
    ];
    assert!(rt; told == [true; 4]);
    Ok(())
}
