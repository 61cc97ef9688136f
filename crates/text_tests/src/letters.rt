//! Letters, cards and pair files that `bench/desk_vectors` made, and what of such isn't taken; a stranger's tries.
use crate::told::is_told;
use desk_letters::{SealFault, open, room, seal};
use desk_texts::{is_place, print, read_sheet};
use desk_tries::{Answer, Sending, fate_by, highest_named, lane_among, next_lane, serial_above};
use express_words::Refusal;
use std::alloc::{AllocError, Global};
use std::test::Fail;

const TEXT: &[u8] = b"At nine,\0 by the side door.\n";

const ID: u64 = 0x0102_0304_0506_0708;

const LETTER: [u8; 64] = [
    0, 28, 1, 2, 3, 4, 5, 6, 7, 8, 165, 76, 138, 200, 139, 142, 98, 51, 252, 42, 176, 177, 72, 156,
    115, 22, 65, 116, 32, 110, 105, 110, 101, 44, 0, 32, 98, 121, 32, 116, 104, 101, 32, 115, 105,
    100, 101, 32, 100, 111, 111, 114, 46, 10, 0, 0, 0, 0, 0, 0, 0, 0, 0, 0,
];

const CARD: &[u8] = b"express card 1 1024 16 79 2 94258\n\
    leader leader.example.org:7000 34599\n\
    helper [2001:db8::7]:7001 56416\n\
    address 00112233445566778899aabbccddeeff 17718\n\
    address ffffffffffffffffffffffffffffffff 93222\n";

const PAIR: &[u8] = b"express pair 1 64 4096 15 16 255 98163\n\
    leader 10.0.0.1:7000 30607\n\
    helper 10.0.0.2:65535 71202\n";

fn are_same(bytes: &[u8], wanted: &[u8]) -> bool {
    bytes == wanted
}

// Seals a text, and tells the answer and whether the box is the letter, or else as it was.
fn sealed_told(text: &[u8], told: &mut String) -> Result<(), AllocError> {
    let mut bytes = [7u8; 64];
    let answer = seal(text, ID, &mut bytes);
    let (is_letter, is_same) = (are_same(&bytes, &LETTER), are_same(&bytes, &[7; 64]));
    write!(told, "{answer:?} {is_letter} {is_same}\n")
}

fn opened_told(bytes: &[u8; 64], told: &mut String) -> Result<(), AllocError> {
    write!(told, "{:?}\n", open(bytes))
}

fn letters_told(alloc: Global, met: &[u8; 64]) -> Result<String, Fail> {
    let mut told = String::new(alloc);
    sealed_told(TEXT, &mut told)?;
    sealed_told(&[1; 39], &mut told)?;
    sealed_told(&[], &mut told)?;
    opened_told(&LETTER, &mut told)?;
    opened_told(&[0; 64], &mut told)?;
    opened_told(met, &mut told)?;
    write!(told, "{} {}\n", room(16), SealFault::TooLong(38))?;
    Ok(told)
}

const LETTERS: &str = "Ok(()) true false\nErr(TooLong(38)) false true\nErr(NoText) false true\n\
    Letter { id: 72623859790382856, text: [65, 116, 32, 110, 105, 110, 101, 44, 0, 32, 98, 121, 32, 116, 104, 101, \
    32, 115, 105, 100, 101, 32, 100, 111, 111, 114, 46, 10] }\nEmpty\nMet\n\
    0 the letter is too long: at most 38 bytes fit\n";

#[test]
fn letters(rt: HostRuntime) -> Result<(), Fail> {
    let mut met = LETTER;
    met[63] = 1;
    is_told(letters_told(rt.alloc(), &met), LETTERS)
}

// Whether a sheet is read, and printed as it was.
fn is_read(alloc: Global, text: &[u8]) -> Result<bool, Fail> {
    let sheet = read_sheet(alloc, text)?;
    let again = print(alloc, &sheet)?;
    Ok(again.as_slice() == text)
}

// What a sheet says, or its fault.
fn sheet_told(alloc: Global, text: &[u8], told: &mut String) -> Result<(), AllocError> {
    match read_sheet(alloc, text) {
        Ok(sheet) => {
            let (leader, helper) = (sheet.leader.as_str(), sheet.helper.as_str());
            let addresses = sheet.addresses.as_slice();
            write!(told, "{:?} {leader} {helper} {addresses:?}\n", sheet.head)
        }
        Err(fault) => write!(told, "{fault}\n"),
    }
}

fn sheets_told(alloc: Global, texts: &[&[u8]]) -> Result<String, Fail> {
    let mut told = String::new(alloc);
    for text in texts {
        sheet_told(alloc, text, &mut told)?;
    }
    Ok(told)
}

// A card, a pair file with other ends of its lines, one with a wrong line and one that lacks its last, and no text.
const SHEETS: [&[u8]; 5] = [
    CARD,
    b"express pair 1 64 4096 15 16 255 98163\r\nleader 10.0.0.1:7000 30607 \nhelper 10.0.0.2:65535 71202",
    b"express pair 1 64 4096 15 16 255 98163\nleader 10.0.0.2:7000 30607\nhelper 10.0.0.2:65535 71202\n",
    b"express pair 1 64 4096 15 16 255 98163\nleader 10.0.0.1:7000 30607\n",
    b"",
];

const READ: &str =
    "Card(CardHead { width: 1024, from: 16, to: 79, addresses: 2, until: None }) leader.example.org:7000 \
    [2001:db8::7]:7001 [88962710306127702866241727433142015, \
    340282366920938463463374607431768211455]\n\
    Pair(PairHead { width: 64, boxes: 4096, lane: 15, from: 16, to: 255 }) 10.0.0.1:7000 10.0.0.2:65535 []\n\
    bad line 2\nbad line 3\nbad line 1\n";

#[test]
fn sheets(rt: HostRuntime) -> Result<(), Fail> {
    assert!(rt; is_read(rt.alloc(), CARD)? && is_read(rt.alloc(), PAIR)?);
    is_told(sheets_told(rt.alloc(), &SHEETS), READ)
}

#[test]
fn places(rt: HostRuntime) {
    assert!(rt; is_place(b"a:1") && !is_place(b"a:0") && !is_place(b"A:1") && !is_place(b":1"));
}

const STALE: Answer = Answer::Refused(Refusal::Stale(7));

// Hears these answers, `None` for a last proof that goes out, and tells what is to be done after each.
fn heard_told(
    sending: &mut Sending,
    answers: &[Option<Answer>],
    told: &mut String,
) -> Result<(), AllocError> {
    for answer in answers {
        match answer {
            Some(answer) => write!(told, "{:?}\n", sending.hear(*answer))?,
            None => sending.proof_goes(),
        }
    }
    write!(
        told,
        "{} {} {}\n",
        sending.address(),
        sending.is_proof_out(),
        sending.further()
    )
}

fn tries_told(alloc: Global) -> Result<String, Fail> {
    let mut told = String::new(alloc);
    let mut sending = Sending::start(2);
    let first = [Some(STALE), None, Some(Answer::Lost), Some(STALE)];
    heard_told(&mut sending, &first, &mut told)?;
    heard_told(&mut sending, &[None, Some(STALE)], &mut told)?;
    let mut kept = Sending::kept(1, 0, 0, true);
    heard_told(
        &mut kept,
        &[Some(Answer::Refused(Refusal::NoDeposit))],
        &mut told,
    )?;
    Ok(told)
}

const TRIES: &str = "NewTry\nSameAgain\nNextAddress\n1 false 3\nStop(MaybeWritten)\n1 true 3\n\
    Stop(NotWritten)\n0 true 0\n";

fn draws_told(alloc: Global) -> Result<String, Fail> {
    let fate = fate_by(true, Answer::Accepted);
    let lanes = [
        lane_among(16, 79, 65),
        next_lane(16, 79, 20, STALE, 4),
        next_lane(16, 79, 20, Answer::Other, 4),
    ];
    let serial = serial_above(highest_named(0, STALE), 2);
    Ok(format!(in alloc; "{fate:?} {lanes:?} {serial:?}")?)
}

#[test]
fn tries(rt: HostRuntime) -> Result<(), Fail> {
    is_told(tries_told(rt.alloc()), TRIES)?;
    is_told(draws_told(rt.alloc()), "Written [17, 20, 21] Some(10)")
}
