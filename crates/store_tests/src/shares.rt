//! Shares through a write, a read and a retirement.
//! What the helpers say of a store is what the next call on it requires, and no more.
ghost use Rattle.std.specs.Prelude.{◌≡◌, ◌<◌, ◌≤◌, length};

use dpf_keys::{PublicPart, generate, walk};
use share_store::*;
use std::test::Fail;

const TARGET: u128 = 0x855a777d484fc8789311ece17c0ad3c5;

const OTHER: u128 = 0x610466a53feda77af2135fa6f3ca652c;

const MESSAGE: [u8; 16] = *b"\xef\xc0\x45\x3f\x0b\x8f\xb8\xbe\xbb\x96\x98\x2b\xb6\x86\x54\x97";

const ROOTS: [u128; 2] = [
    0xd7ec74e643da718b32a068d002101fe6,
    0x3ef5615c9c144550d7c820396a443a32,
];

// Server 0's write bytes at both addresses, by an independent program written from the protocol's
// description.
const BYTES: [[u8; 16]; 2] = [
    *b"\xd2\x36\x06\x44\x6a\x4d\xa1\xdf\xeb\x45\x35\xb7\x3b\xc2\xd8\x03",
    *b"\x47\xf5\xf2\x0a\x8a\xa1\x38\xfe\xca\xeb\x9d\xa9\x03\xb3\xa3\xc0",
];

fn write_keys(message: &[u8; 16], root0: u128, root1: u128, out: &mut [u8; 2080]) {
    generate(TARGET, message, root0, root1, out);
}

fn leaf_at(part: &PublicPart, root: u128, address: u128) -> u128 {
    walk(part, 0, root, address)
}

fn add(store: &mut ShareStore, count: u32, part: &PublicPart, leaves: &[u128; 3])
    requires width { store.old.width ≡ 16 }
    requires boxes { length store.old.boxes ≡ 3 }
    requires count { count ≤ 3 }
    ensures width { store.new.width ≡ 16 }
    ensures boxes { length store.new.boxes ≡ 3 }
{
    if part.last().len() == 16 {
        store.add_write(count, part, leaves);
    }
}

// Reads one box, and retires the next one.
fn read_two(store: &mut ShareStore, out: &mut [u8; 16])
    requires width { store.old.width ≡ 16 }
    requires boxes { length store.old.boxes ≡ 3 }
    ensures width { store.new.width ≡ 16 }
    ensures boxes { length store.new.boxes ≡ 3 }
{
    store.take(0, out);
    store.retire(1, out);
}

fn has_share(store: &ShareStore, box_number: u32, bytes: &[u8; 16]) -> bool
    requires { box_number < length store.now.boxes }
{
    store.share(box_number) == bytes.as_slice()
}

fn is_retired(store: &ShareStore, box_number: u32) -> bool
    requires { box_number < length store.now.boxes }
{
    store.retired(box_number)
}

fn is_sum(sum: &[u8; 16], left: &[u8; 16], right: &[u8; 16]) -> bool {
    let mut same = true;
    for k in 0..16 {
        same = same && sum[k] == left[k] ^ right[k];
    }
    same
}

// Both boxes below the count have their shares, and the third has none.
fn has_two(store: &ShareStore) -> [bool; 3]
    requires { length store.now.boxes ≡ 3 }
{
    [
        has_share(store, 0, &BYTES[0]),
        has_share(store, 1, &BYTES[1]),
        has_share(store, 2, &[0; 16]),
    ]
}

// The box that was read takes the next write, and the retired one takes none.
fn has_one_again(store: &ShareStore) -> [bool; 4]
    requires { length store.now.boxes ≡ 3 }
{
    [
        !is_retired(store, 0),
        is_retired(store, 1),
        has_share(store, 0, &BYTES[0]),
        has_share(store, 1, &[0; 16]),
    ]
}

fn written_twice(
    store: &mut ShareStore,
    part: &PublicPart,
    leaves: &[u128; 3],
) -> ([bool; 3], [bool; 4], bool)
    requires width { store.old.width ≡ 16 }
    requires boxes { length store.old.boxes ≡ 3 }
{
    let mut out = [0; 16];
    add(store, 2, part, leaves);
    let two = has_two(store);
    read_two(store, &mut out);
    add(store, 3, part, leaves);
    (
        two,
        has_one_again(store),
        is_sum(&out, &BYTES[0], &BYTES[1]),
    )
}

#[test]
fn a_write_reaches_the_live_boxes_below_its_count(rt: HostRuntime) -> Result<(), Fail> {
    let mut public = [0; 2080];
    write_keys(&MESSAGE, ROOTS[0], ROOTS[1], &mut public);
    let part = PublicPart::of(&public).ok_or("length")?;
    let leaves = [
        leaf_at(&part, ROOTS[0], TARGET),
        leaf_at(&part, ROOTS[0], OTHER),
        0,
    ];
    let mut store = ShareStore::open(rt.alloc(), 3, 16)?;
    let (two, again, sum) = written_twice(&mut store, &part, &leaves);
    assert!(rt; two == [true; 3] && again == [true; 4] && sum);
    Ok(())
}

// Of the last box of the most boxes, each of the greatest width, the share can be taken.
fn retire_last(store: &mut ShareStore, out: &mut [u8; 4096])
    requires width { store.old.width ≡ 4096 }
    requires boxes { length store.old.boxes ≡ 4096 }
    ensures boxes { length store.new.boxes ≡ 4096 }
{
    store.retire(4095, out);
}

fn is_clear(store: &ShareStore, box_number: u32) -> bool
    requires { box_number < length store.now.boxes }
{
    store.share(box_number) == [0; 4096].as_slice()
}

#[test]
fn the_last_of_4096_widest_boxes_is_retired(rt: HostRuntime) -> Result<(), Fail> {
    let mut store = ShareStore::open(rt.alloc(), 4096, 4096)?;
    let mut out = [7; 4096];
    retire_last(&mut store, &mut out);
    let told = [
        is_retired(&store, 4095),
        !is_retired(&store, 4094),
        is_clear(&store, 4095),
        out == [7; 4096],
    ];
    assert!(rt; told == [true; 4]);
    Ok(())
}
