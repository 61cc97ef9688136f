//! A file of two parts over answers of both servers, recorded: by the cores of the leader and the helper, opened
//! for four boxes of 32 bytes and one lane with seeds of bytes 1 and of bytes 2. The client had registered both
//! boxes before, by its serials 1 and 2.
use crate::runs::carrier_told;
use crate::told::is_told;
use std::test::Fail;

const SEND: [&str; 3] = [
    "width = 32\nserial = 3\nmode = 'send'\nid = 7\nfile = '000102030405060708090a0b0c0d0e0f10'\n",
    "addresses = ['000102030405060708090a0b0c0d0e0f',\n",
    "'f0e0d0c0b0a090807060504030201000']\n",
];

const FETCH: [&str; 2] = [
    "width = 32\nserial = 5\nmode = 'fetch'\n",
    "owned = [{ box = 0, serial = 1 }, { box = 1, serial = 2 }]\n",
];

// A write's four answers, twice.
const SENT: [&str; 8] = [
    "000000110106000000000003000000000000000001",
    "0000003001070000000000030000000000000000f49e1b88c5e77ca2ef72aad0b72a0fc9605a27ad59ade1e4d421783122d2b9f6",
    "000000110106000000000003000000000000000002",
    "000000110108000000000003000000000000000002",
    "000000110106000000000004000000000000000001",
    "00000030010700000000000400000000000000007375cd3d3e9065d239a2d741f2259e111bb2c1f2dbee5850a514575ad9521003",
    "000000110106000000000004000000000000000002",
    "000000110108000000000004000000000000000002",
];

// A read's two answers, twice.
const FETCHED: [&str; 4] = [
    "000000110106000000000005000000000000000001",
    "00000051010800000000000500000000000000000375883d065f415fbf979856af98a46bae102645ccfc4453a0043490c12e8cf18d125baf046170cc6962fa1f7fd38485b5d35b0ba4ffed42214932ab81760e3d4c",
    "000000110106000000000006000000000000000001",
    "000000510108000000000006000000000000000003bcd7852692cd02f9fa13e49368912e76fbf65bde330dc830450ba003f8029738cada4c0e4b54911ebb3446da60cdaf0bb2a932ab3dc5238edc212bcacfc32ad9",
];

#[test]
fn two_parts(rt: HostRuntime) -> Result<(), Fail> {
    let sent = "outcome 0 accepted\noutcome 1 accepted\nsent 2\nend\nDone 8\n";
    is_told(carrier_told(rt.alloc(), &SEND, &SENT), sent)?;
    let fetched = "file 000102030405060708090a0b0c0d0e0f10\nend\nDone 4\n";
    is_told(carrier_told(rt.alloc(), &FETCH, &FETCHED), fetched)
}
