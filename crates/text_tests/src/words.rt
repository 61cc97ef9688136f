//! Settings at the edges of their limits, and printed texts.
use crate::told::is_told;
use express_words::outside::Failed;
use express_words::{NoMemory, Refusal, Settings};
use std::alloc::Global;
use std::test::Fail;

// Whether settings of 4 boxes and a lane are the ones of these numbers, or else none.
fn is_taken(width: u32, window: u8) -> bool {
    match Settings::new(width, 4, 1, window) {
        Some(found) => {
            found.width == width && found.window == window && found.boxes == 4 && found.lanes == 1
        }
        None => false,
    }
}

#[test]
fn settings_at_their_limits(rt: HostRuntime) {
    for (width, window, wanted) in [
        (24, 1, false),
        (16, 33, false),
        (16, 1, true),
        (16, 2, true),
    ] {
        assert!(rt; is_taken(width, window) == wanted);
    }
}

const REFUSALS: [Refusal; 14] = [
    Refusal::Malformed(4_294_967_295),
    Refusal::Version(255),
    Refusal::Lane(256),
    Refusal::Stale(1),
    Refusal::Phase(2),
    Refusal::Taken(3),
    Refusal::Full(4096),
    Refusal::NoBox(0),
    Refusal::BadToken(5),
    Refusal::NoDeposit,
    Refusal::NotProved,
    Refusal::Rejected(0, 0xfedc_ba98_7654_3210, 1 << 127, 0x10 << 64),
    Refusal::Again(18_446_744_073_709_551_615),
    Refusal::LinkDown(6),
];

const PRINTED: &str =
    "malformed 4294967295\nversion 255\nlane 256\nstale 1\nphase 2\ntaken 3\nfull 4096\n\
    nobox 0\nbadtoken 5\nnodeposit\nnotproved\n\
    rejected 00000000000000000000000000000000 0000000000000000fedcba9876543210 \
    80000000000000000000000000000000 00000000000000100000000000000000\n\
    again 18446744073709551615\nlinkdown 6\nout of memory\nthe call failed\n";

fn printed(alloc: Global, refusals: &[Refusal]) -> Result<String, Fail> {
    let mut text = String::new(alloc);
    for refusal in refusals {
        write!(text, "{refusal}\n")?;
    }
    write!(text, "{}\n{}\n", NoMemory, Failed)?;
    Ok(text)
}

#[test]
fn printed_texts(rt: HostRuntime) -> Result<(), Fail> {
    is_told(printed(rt.alloc(), &REFUSALS), PRINTED)
}
