//! Cards and a pair file of the second version that `bench/desk_vectors` made, and what of such isn't taken.
use crate::told::is_told;
use desk_sheets::{Card, Pair, check_digits, print_card, print_pair, read_card, read_pair};
use std::alloc::Global;
use std::test::Fail;

const CARD: &[u8] = b"express card 2 1024 2 87204\n\
    leader leader.example.org:7000 16190\n\
    helper [2001:db8::7]:7001 67997\n\
    address 00112233445566778899aabbccddeeff 62473\n\
    address ffffffffffffffffffffffffffffffff 57941\n";

const DATED: &[u8] = b"express card 2 1024 1 2027-03-01 04024\n\
    leader leader.example.org:7000 29367\n\
    helper [2001:db8::7]:7001 02153\n\
    address 00112233445566778899aabbccddeeff 25170\n";

const PAIR: &[u8] = b"express pair 2 64 4096 15 45549\n\
    leader 10.0.0.1:7000 000102030405060708090a0b0c0d0e0f 63704\n\
    helper 10.0.0.2:65535 f0f1f2f3f4f5f6f7f8f9fafbfcfdfeff 71089\n";

#[test]
fn cards_are_printed_as_they_were_read(rt: HostRuntime) -> Result<(), Fail> {
    for text in [CARD, DATED] {
        let card = read_card(rt.alloc(), text)?;
        let again = print_card(rt.alloc(), &card)?;
        assert!(rt; again.as_slice() == text);
    }
    Ok(())
}

#[test]
fn a_pair_file_is_printed_as_it_was_read(rt: HostRuntime) -> Result<(), Fail> {
    let pair = read_pair(rt.alloc(), PAIR)?;
    let again = print_pair(rt.alloc(), &pair)?;
    assert!(rt; again.as_slice() == PAIR);
    Ok(())
}

fn tell_card(alloc: Global, card: &Card, told: &mut String) -> Result<(), Fail> {
    let (leader, helper) = (card.leader.as_str(), card.helper.as_str());
    let addresses = card.addresses.as_slice();
    let digits = check_digits(alloc, card)?;
    write!(
        told,
        "{digits}: {} {:?} {leader} {helper} {addresses:?}\n",
        card.width, card.until
    )?;
    Ok(())
}

// What each text says as a card, or its fault.
fn cards_told(alloc: Global, texts: &[&[u8]]) -> Result<String, Fail> {
    let mut told = String::new(alloc);
    for text in texts {
        match read_card(alloc, text) {
            Ok(card) => tell_card(alloc, &card, &mut told)?,
            Err(fault) => write!(told, "{fault}\n")?,
        }
    }
    Ok(told)
}

// A card of each form, one in a letter, one with an address twice, one that lacks its last line, one until 29
// February 2027, those of earlier versions with and without a fault, a pair file, and no text.
const CARDS: [&[u8]; 11] = [
    CARD,
    DATED,
    b"Dear friend,\r\n\r\nexpress card 2 1024 1 2027-03-01 04024 \r\nleader leader.example.org:7000 29367\r\n\
    helper [2001:db8::7]:7001 02153\r\naddress 00112233445566778899aabbccddeeff 25170\r\nAs ever\r\n",
    b"express card 2 1024 2 87204\nleader leader.example.org:7000 16190\nhelper [2001:db8::7]:7001 67997\n\
    address 00112233445566778899aabbccddeeff 62473\naddress 00112233445566778899aabbccddeeff 16997\n",
    b"\nexpress card 2 1024 2 87204\nleader leader.example.org:7000 16190\n",
    b"express card 2 1024 1 2027-02-29 97456\n",
    b"express card 1 1024 16 79 2 94258\nleader leader.example.org:7000 34599\n",
    b"Dear friend,\nexpress card 2 1024 16 79 1 2027-03-01 65800\nleader leader.example.org:7000 32685\n",
    b"express pair 1 64 4096 15 16 255 98163\n",
    PAIR,
    b"",
];

const CARDS_TOLD: &str =
    "57941: 1024 None leader.example.org:7000 [2001:db8::7]:7001 [88962710306127702866241727433142015, \
    340282366920938463463374607431768211455]\n\
    25170: 1024 Some(Day { year: 2027, month: 3, day: 1 }) leader.example.org:7000 [2001:db8::7]:7001 \
    [88962710306127702866241727433142015]\n\
    25170: 1024 Some(Day { year: 2027, month: 3, day: 1 }) leader.example.org:7000 [2001:db8::7]:7001 \
    [88962710306127702866241727433142015]\n\
    bad line 5\nbad line 4\nbad line 1\nof an earlier version\nof an earlier version\nof an earlier version\n\
    of the other kind\nbad line 1\n";

#[test]
fn cards(rt: HostRuntime) -> Result<(), Fail> {
    is_told(cards_told(rt.alloc(), &CARDS), CARDS_TOLD)
}

fn tell_pair(pair: &Pair, told: &mut String) -> Result<(), Fail> {
    let (leader, helper) = (&pair.leader, &pair.helper);
    write!(told, "{} {} {} ", pair.width, pair.boxes, pair.lane)?;
    write!(told, "{} {:?} ", leader.place.as_str(), leader.key.0)?;
    write!(told, "{} {:?}\n", helper.place.as_str(), helper.key.0)?;
    Ok(())
}

// What each text says as a pair file, or its fault.
fn pairs_told(alloc: Global, texts: &[&[u8]]) -> Result<String, Fail> {
    let mut told = String::new(alloc);
    for text in texts {
        match read_pair(alloc, text) {
            Ok(pair) => tell_pair(&pair, &mut told)?,
            Err(fault) => write!(told, "{fault}\n")?,
        }
    }
    Ok(told)
}

// A pair file, one whose key has capital letters, one without its helper, one of the earlier version, and a
// card.
const PAIRS: [&[u8]; 5] = [
    PAIR,
    b"express pair 2 64 4096 15 45549\nleader 10.0.0.1:7000 000102030405060708090A0B0C0D0E0F 52025\n",
    b"express pair 2 64 4096 15 45549\nleader 10.0.0.1:7000 000102030405060708090a0b0c0d0e0f 63704\n",
    b"express pair 1 64 4096 15 16 255 98163\nleader 10.0.0.1:7000 30607\nhelper 10.0.0.2:65535 71202\n",
    CARD,
];

const PAIRS_TOLD: &str = "64 4096 15 \
    10.0.0.1:7000 [0, 1, 2, 3, 4, 5, 6, 7, 8, 9, 10, 11, 12, 13, 14, 15] \
    10.0.0.2:65535 [240, 241, 242, 243, 244, 245, 246, 247, 248, 249, 250, 251, 252, 253, 254, 255]\n\
    bad line 2\nbad line 3\nof an earlier version\nof the other kind\n";

#[test]
fn pairs(rt: HostRuntime) -> Result<(), Fail> {
    is_told(pairs_told(rt.alloc(), &PAIRS), PAIRS_TOLD)
}
