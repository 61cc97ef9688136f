//! Leaves against an independent program written from the protocol's description, and against walks.
ghost use Rattle.std.specs.Prelude.{◌≡◌, ◌<◌, ◌≤◌, length};

use crate::keys::writes_keys;
use dpf_eval::*;
use dpf_keys::{PublicPart, walk};
use std::alloc::Global;
use std::marker::Brand;
use std::sync::ledger::{Blank, Ledger};
use std::test::Fail;

const TARGET: u128 = 0x855a777d484fc8789311ece17c0ad3c5;

const MESSAGE: [u8; 16] = *b"\xef\xc0\x45\x3f\x0b\x8f\xb8\xbe\xbb\x96\x98\x2b\xb6\x86\x54\x97";

const ROOTS: [u128; 2] = [
    0xd7ec74e643da718b32a068d002101fe6,
    0x3ef5615c9c144550d7c820396a443a32,
];

// An address and both leaves there: where the first bit of the target differs, elsewhere, at the target, at
// its neighbour.
const LEAVES: [(u128, u128, u128); 4] = [
    (
        0x055a777d484fc8789311ece17c0ad3c5,
        0xd4396813466eb0e1a1a597256a44d7c2,
        0xd4396813466eb0e1a1a597256a44d7c2,
    ),
    (
        0x610466a53feda77af2135fa6f3ca652c,
        0xc0c076736540eb8259735ed65dfb6a94,
        0xc0c076736540eb8259735ed65dfb6a94,
    ),
    (
        TARGET,
        0xabdd206344302e625b916db950a47778,
        0x2da2e3d2c10e78c7497024a120f82de5,
    ),
    (
        0x855a777d484fc8789311ece17c0ad3c4,
        0x5f8d2bc89f09d2fa11fee20bf5694b3a,
        0x5f8d2bc89f09d2fa11fee20bf5694b3a,
    ),
];

// Inserts an address that isn't there yet, where there is room.
fn add(frontier: &mut Frontier, address: u128) {
    if frontier.box_of(address).is_none() && !frontier.is_full() {
        frontier.insert(address);
    }
}

// The leaves of the first addresses, where so many are there, with a counter of this call's own.
fn leaves_into<L: Ledger>(
    blank: Blank,
    frontier: &mut Frontier,
    part: &PublicPart,
    server: u8,
    count: u32,
    out: &mut [u128],
)
    requires name { blank.name ≡ L.name }
    requires parts { blank.parts ≡ L.parts }
    requires shared { 0 < blank.parts }
    requires server { server < 2 }
    requires room { count ≤ length out.old }
{
    let mut steps = Steps::<L>::new(blank);
    let root = ROOTS[server as usize];
    if count <= frontier.count() {
        frontier.run(part, server, root, count, out, &mut steps);
    }
}

fn has_place(frontier: &Frontier, address: u128, place: Option<u32>) -> bool {
    frontier.box_of(address) == place
}

fn is_walk(part: &PublicPart, server: u8, address: u128, leaf: u128) -> bool
    requires { server < 2 }
{
    walk(part, server, ROOTS[server as usize], address) == leaf
}

// The addresses of the outside program, and more of them, enough for eight nodes at once.
fn fourteen_addresses(alloc: Global) -> Result<Frontier, Fail> {
    let mut frontier = Frontier::open(alloc, 14)?;
    for (address, _, _) in LEAVES {
        add(&mut frontier, address);
    }
    for k in 0..10u32 {
        add(&mut frontier, u128::from(10 - k) << 100);
    }
    Ok(frontier)
}

fn are_outside(leaves: &[u128; 14], server: u8) -> bool {
    let mut same = true;
    for k in 0..4 {
        let (_, zero, one) = LEAVES[k];
        same = same && leaves[k] == if server == 0 { zero } else { one };
    }
    same
}

fn are_walks(part: &PublicPart, leaves: &[u128; 14], server: u8) -> bool
    requires { server < 2 }
{
    let mut same = true;
    for k in 4..13u32 {
        same = same && is_walk(part, server, u128::from(14 - k) << 100, leaves[k as usize]);
    }
    same
}

// Whether the server's leaves are right by box, and what comes after the count stays.
fn are_leaves(frontier: &mut Frontier, part: &PublicPart, server: u8) -> bool
    requires { server < 2 }
{
    let mut out = [7; 14];
    leaves_into::<Brand>(Blank::new(1), frontier, part, server, 13, &mut out);
    are_outside(&out, server) && are_walks(part, &out, server) && out[13] == 7
}

fn has_places(frontier: &Frontier) -> [bool; 4] {
    [
        frontier.count() == 14,
        frontier.is_full(),
        has_place(frontier, TARGET, Some(2)),
        has_place(frontier, 1, None),
    ]
}

#[test]
fn leaves_by_box(rt: HostRuntime) -> Result<(), Fail> {
    let mut bytes = [0; 2080];
    assert!(rt; writes_keys(TARGET, &MESSAGE, ROOTS, &mut bytes));
    let part = PublicPart::of(&bytes).ok_or("length")?;
    let mut frontier = fourteen_addresses(rt.alloc())?;
    let placed = has_places(&frontier);
    let leaves = [
        are_leaves(&mut frontier, &part, 0),
        are_leaves(&mut frontier, &part, 1),
    ];
    assert!(rt; placed == [true; 4] && leaves == [true; 2]);
    Ok(())
}
