//! The pieces of a letter, which `bench/letter_vectors` made, and what holds none.
use crate::told::is_told;
use letter_pieces::{LetterId, cut_into, most_text, parts_for, read_piece};
use std::alloc::{AllocError, Global};
use std::test::Fail;

const TEXT: &[u8] = b"At nine, by the side door.";

const LAST: [u8; 48] = [
    0, 6, 1, 2, 3, 4, 5, 6, 7, 8, 1, 2, 142, 222, 205, 65, 109, 74, 245, 138, 109, 136, 237, 140,
    177, 179, 78, 0, 32, 100, 111, 111, 114, 46, 0, 0, 0, 0, 0, 0, 0, 0, 0, 0, 0, 0, 0, 0,
];

const ID: LetterId = LetterId(0x0102_0304_0506_0708);

const PIECES: &str =
    "[0, 20, 1, 2, 3, 4, 5, 6, 7, 8, 0, 2, 41, 93, 208, 221, 71, 207, 52, 41, 13, 82, 238, 166, 94, \
    190, 168, 165, 65, 116, 32, 110, 105, 110, 101, 44, 32, 98, 121, 32, 116, 104, 101, 32, 115, 105, \
    100, 101]\n\
    Some(Piece { letter: LetterId(72623859790382856), part: 0, parts: 2, text: [65, 116, 32, 110, \
    105, 110, 101, 44, 32, 98, 121, 32, 116, 104, 101, 32, 115, 105, 100, 101] })\n\
    [0, 6, 1, 2, 3, 4, 5, 6, 7, 8, 1, 2, 142, 222, 205, 65, 109, 74, 245, 138, 109, 136, 237, 140, \
    177, 179, 78, 0, 32, 100, 111, 111, 114, 46, 0, 0, 0, 0, 0, 0, 0, 0, 0, 0, 0, 0, 0, 0]\n\
    Some(Piece { letter: LetterId(72623859790382856), part: 1, parts: 2, text: [32, 100, 111, 111, \
    114, 46] })\n\
    NoText: a letter has at least one byte\n\
    TooLong(100): the letter is too long: at most 100 bytes fit\n\
    20916\n";

// Cuts a letter for a card of 16 addresses of 48 bytes: the bytes of each piece, and what is read of them.
fn cut_told(text: &[u8], told: &mut String) -> Result<(), AllocError> {
    match parts_for(16, 48, text.len()) {
        Ok(parts) => {
            for part in 0..parts {
                let mut bytes = [7u8; 48];
                cut_into(text, ID, part, &mut bytes);
                write!(told, "{bytes:?}\n{:?}\n", read_piece(&bytes))?;
            }
            Ok(())
        }
        Err(fault) => write!(told, "{fault:?}: {fault}\n"),
    }
}

fn letters_told(alloc: Global) -> Result<String, Fail> {
    let mut told = String::new(alloc);
    cut_told(TEXT, &mut told)?;
    cut_told(&[], &mut told)?;
    cut_told(&[1; 101], &mut told)?;
    write!(told, "{}\n", most_text(64, 1024))?;
    Ok(told)
}

#[test]
fn letters(rt: HostRuntime) -> Result<(), Fail> {
    is_told(letters_told(rt.alloc()), PIECES)
}

// Boxes that hold no piece: an empty one, a short one, and the letter's last piece with a byte changed.
fn none_told(alloc: Global) -> Result<String, Fail> {
    let mut told = String::new(alloc);
    write!(
        told,
        "{:?} {:?}",
        read_piece(&[0; 48]),
        read_piece(&LAST[..32])
    )?;
    for at in [0, 9, 10, 11, 27, 33, 47] {
        let mut bytes = LAST;
        bytes[at] ^= 1;
        write!(told, " {:?}", read_piece(&bytes))?;
    }
    Ok(told)
}

#[test]
fn none(rt: HostRuntime) -> Result<(), Fail> {
    is_told(
        none_told(rt.alloc()),
        "None None None None None None None None None",
    )
}
