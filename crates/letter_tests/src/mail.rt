//! Letters that readings tell, which `bench/letter_vectors` made. A line of a reading is, in hexadecimal
//! digits, the box's address and its bytes.
ghost use Rattle.std.specs.Prelude.{◌≡◌, ◌↔◌, IsTrue};
ghost use Rattle.letter_reader.specs.Reader.{AreBoxes};

use crate::told::is_told;
use letter_reader::{Card, Reading};
use std::alloc::{AllocError, Global};
use std::test::Fail;
use told_letters::{Mail, laws, letters};

const WIDTH: usize = 32;

// Letters of one, two and ten parts, put into the boxes of one card.
const MET: &str = "000004000000000000002102097148d4f0175c28fc36b9547b959ec87979657334\n\
    0100010000000000000020090a302e1276a62466f34bbfa28b5c06a8492e000000\n\
    0200040000000000000020000a1bcff4121d9d7591d5c29f441d1421eb5765206d\n\
    0300010000000000000020090a302e1276a62466f34bbfa28b5c06a8492e000000\n\
    040005000000000000003f090886b2a4b70123638f7d7ad0dfc71179606f74206e\n\
    0500040000000000000020070aa995277a687a12688d8c8d7f096fecff72696e67\n\
    0600040000000000000020040aabc99c7137a5fe6df188685c3ea4539d6c642062\n\
    0700040000000000000020060aedd703e939a73d5565ff8afaa149a765652c2062\n\
    0800040000000000000020080adae9bd9f9661be27e296ccdad019fe032053616d\n\
    0900040000000000000020000a1bcff4121d9d7591d5c29f441d1421eb5765206d\n\
    0a00040000000000000020010ae1c9ae2f26e2de707033ce1ce866a56565657420\n\
    0b00040000000000000020080adae9bd9f9661be27e296ccdad019fe032053616d\n\
    0c00040000000000000020070aa995277a687a12688d8c8d7f096fecff72696e67\n\
    0d00040000000000000020050a1577c71f023ac4edb82de12c226f1bf172696467\n\
    0e00040000000000000020020a728b227c95030add5c3b7934783a45b661742074\n\
    0f00040000000000000020030a84887e46551bb50742ace537f3302d4c6865206f\n\
    1100040000000000000020040aabc99c7137a5fe6df188685c3ea4539d6c642062\n\
    1200040000000000000020050a1577c71f023ac4edb82de12c226f1bf172696467\n\
    1300040000000000000020070aa995277a687a12688d8c8d7f096fecff72696e67\n\
    1400040000000000000020000a1bcff4121d9d7591d5c29f441d1421eb5765206d\n\
    1500040000000000000020060aedd703e939a73d5565ff8afaa149a765652c2062\n\
    1600040000000000000020030a84887e46551bb50742ace537f3302d4c6865206f\n\
    1700040000000000000020060aedd703e939a73d5565ff8afaa149a765652c2062\n\
    1800040000000000000020020a728b227c95030add5c3b7934783a45b661742074\n\
    190007000000000000003f0208f033ff091c5705fcbd4517e56379f85e010b456f\n\
    1a0003000000000000001f010274bb814f494cb0fbffe9f2d29049d512696e6500\n\
    1b00040000000000000020040aabc99c7137a5fe6df188685c3ea4539d6c642062\n\
    1c00040000000000000020010ae1c9ae2f26e2de707033ce1ce866a56565657420\n\
    1d0003000000000000002109091b0d7c9dfa7529814138611336e377f710587743\n\
    1e00040000000000000021050916b431938065e6ccd2afcc63cfcb963e6a783727\n\
    1f00040000000000000020010ae1c9ae2f26e2de707033ce1ce866a56565657420";

const MET_TOLD: &str = "32 of 10: We meet at the old bridge, bring Sam.\n\
    31 of 2: At nine\n\
    30 of 1: Yes.\n";

// One part of a letter of two; and boxes of two letters each that came nowhere else.
const MISSING: &str = "00000300000000000000210102e29733b712008a53d0d6dc4b73612633696e6500\n\
    0c000300000000000000210102e29733b712008a53d0d6dc4b73612633696e6500\n\
    0e000300000000000000210102e29733b712008a53d0d6dc4b73612633696e6500\n\
    010000000000000000000100009bc93a405010292193e98b12b4dff63e00000000\n\
    00000000000000000000010000e9ed2b8d2dc52162d303abd629606da400000000\n\
    010000000000000000000100009bc93a405010292193e98b12b4dff63e00000000";

const MISSING_TOLD: &str = "33 of 2: 1 known, 1 missing\n\
    at 0: 1\n\
    at 1: 2\n";

// Two letters that met wherever they had come when the card was read first.
const FIRST: &str = "00000600000000000000010000680da907de8093c9114591f11fdd08b01d1a7265\n\
    01000600000000000000010000680da907de8093c9114591f11fdd08b01d1a7265";

const FIRST_TOLD: &str = "at 0: 1\n\
    at 1: 1\n";

const SECOND: &str = "02000200000000000000290001ff534a4f82f135f3ff5c19fea7a0a94d4e6f0000\n\
    04000400000000000000280001975ee3485c71a63aee19880fb87da1fd53757265";

const BOTH_TOLD: &str = "41 of 1: No\n\
    40 of 1: Sure\n";

// A letter of one part, one of two with its id, and a forged part of the first, read one after another.
const ONE_ID: &str = "000004000000000000000700019afef45d932bc0185ffada3f27f7543e4e6f772e\n\
    0c0004000000000000000700019afef45d932bc0185ffada3f27f7543e4e6f772e\n\
    0f0004000000000000000700019afef45d932bc0185ffada3f27f7543e4e6f772e\n\
    00000400000000000000070002e71386741098275226470fb110e831154174206e\n\
    04000300000000000000070102eb02f2d838fa00bfa9c03ddbb26b5a2c696e6500\n\
    07000300000000000000070102eb02f2d838fa00bfa9c03ddbb26b5a2c696e6500\n\
    0a000300000000000000070102eb02f2d838fa00bfa9c03ddbb26b5a2c696e6500\n\
    0c000400000000000000070002e71386741098275226470fb110e831154174206e\n\
    0f000400000000000000070002e71386741098275226470fb110e831154174206e\n\
    000004000000000000000700016b08b64bc281e38ff2f94c28e58da12b4c617465\n\
    0c0004000000000000000700016b08b64bc281e38ff2f94c28e58da12b4c617465\n\
    0f0004000000000000000700016b08b64bc281e38ff2f94c28e58da12b4c617465";

const ONE_ID_TOLD: &str = "7 of 1: Now.\n\
    7 of 2: At nine\n";

fn are_wide(readings: &[Reading], width: usize) -> bool
    ensures { IsTrue result ↔ AreBoxes width readings.now }
{
    readings.iter().all(|reading| reading.bytes.len() == width)
}

// The boxes that were read, each behind its address.
fn boxes_of(alloc: Global, texts: &[&str]) -> Result<Vec<Vec<u8>>, Fail> {
    let mut boxes = Vec::new(alloc);
    for text in texts {
        for line in text.lines() {
            boxes.push(hex::decode(alloc, line)?)?;
        }
    }
    Ok(boxes)
}

fn readings_of(alloc: Global, boxes: &[Vec<u8>]) -> Result<Vec<Reading<'_>>, AllocError> {
    let mut readings = Vec::new(alloc);
    for bytes in boxes {
        if let Some((address, bytes)) = bytes.as_slice().split_first() {
            readings.push(Reading {
                address: *address,
                bytes,
            })?;
        }
    }
    Ok(readings)
}

fn show_letters(mail: &Mail, told: &mut String) -> Result<(), Fail> {
    for letter in &mail.letters {
        let text = std::str::from_utf8(letter.text.as_slice())?;
        write!(
            told,
            "{} of {}: {text}\n",
            letter.heading.letter.0, letter.heading.parts
        )?;
    }
    Ok(())
}

fn show_partial(mail: &Mail, told: &mut String) -> Result<(), Fail> {
    for letter in &mail.partial {
        let (known, missing) = (letter.known, letter.missing());
        write!(
            told,
            "{} of {}: ",
            letter.heading.letter.0, letter.heading.parts
        )?;
        write!(told, "{known} known, {missing} missing\n")?;
    }
    Ok(())
}

fn show_unopened(mail: &Mail, addresses: u8, told: &mut String) -> Result<(), Fail> {
    for address in 0..addresses {
        let unopened = mail.unopened_at(address);
        if unopened > 0 {
            write!(told, "at {address}: {unopened}\n")?;
        }
    }
    Ok(())
}

fn mail_told(alloc: Global, addresses: u8, texts: &[&str]) -> Result<String, Fail> {
    let boxes = boxes_of(alloc, texts)?;
    let readings = readings_of(alloc, boxes.as_slice())?;
    if addresses > 64 || !are_wide(readings.as_slice(), WIDTH) {
        return Err(Fail::new("no card has these boxes"));
    }
    let card = Card {
        addresses,
        width: WIDTH,
    };
    let mail = letters(alloc, card, readings.as_slice())?;
    let mut told = String::new(alloc);
    show_letters(&mail, &mut told)?;
    show_partial(&mail, &mut told)?;
    show_unopened(&mail, addresses, &mut told)?;
    Ok(told)
}

#[test]
fn letters_that_met(rt: HostRuntime) -> Result<(), Fail> {
    is_told(mail_told(rt.alloc(), 32, &[MET]), MET_TOLD)
}

#[test]
fn parts_are_missing(rt: HostRuntime) -> Result<(), Fail> {
    is_told(mail_told(rt.alloc(), 16, &[MISSING]), MISSING_TOLD)
}

#[test]
fn boxes_are_read_again(rt: HostRuntime) -> Result<(), Fail> {
    is_told(mail_told(rt.alloc(), 5, &[FIRST]), FIRST_TOLD)?;
    is_told(mail_told(rt.alloc(), 5, &[FIRST, SECOND]), BOTH_TOLD)
}

#[test]
fn one_id_is_used_again(rt: HostRuntime) -> Result<(), Fail> {
    is_told(mail_told(rt.alloc(), 16, &[ONE_ID]), ONE_ID_TOLD)
}

#[test]
fn law_is_called() {
    laws::peeled_letters_are_told();
}
