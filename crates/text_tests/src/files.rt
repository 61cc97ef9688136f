//! Parts of known bytes, files of each length that matters, and boxes that are missing or exchanged.
ghost use Rattle.std.specs.Prelude.{◌≤◌, length};

use crate::told::is_told;
use file_carry::{Joiner, Missing, cut_into, parts};
use std::alloc::Global;
use std::test::Fail;

// The parts of files of 3, no and 17 bytes.
const SHORT: [u8; 32] = [
    0, 0, 0, 0, 0, 0, 0, 7, 0, 0, 0, 1, 0, 3, 0, 0, 0, 1, 2, 0, 0, 0, 0, 0, 0, 0, 0, 0, 0, 0, 0, 0,
];

const EMPTY: [u8; 32] = [
    0, 0, 0, 0, 0, 0, 0, 7, 0, 0, 0, 1, 0, 0, 0, 0, 0, 0, 0, 0, 0, 0, 0, 0, 0, 0, 0, 0, 0, 0, 0, 0,
];

const FIRST: [u8; 32] = [
    0, 0, 0, 0, 0, 0, 0, 7, 0, 0, 0, 2, 0, 16, 0, 0, 5, 5, 5, 5, 5, 5, 5, 5, 5, 5, 5, 5, 5, 5, 5, 5,
];

const SECOND: [u8; 32] = [
    0, 0, 0, 0, 0, 0, 0, 7, 0, 1, 0, 2, 0, 1, 0, 0, 5, 0, 0, 0, 0, 0, 0, 0, 0, 0, 0, 0, 0, 0, 0, 0,
];

// Whether these bytes are the part of this index of the file with id 7.
fn is_part(file: &[u8], index: u32, wanted: &[u8]) -> bool {
    let Ok(length) = u32::try_from(file.len()) else {
        return false;
    };
    let Some(count) = parts(length, 32) else {
        return false;
    };
    if index >= count {
        return false;
    }
    let mut out = [9u8; 32];
    cut_into(file, 7, index, &mut out);
    out.as_slice() == wanted
}

fn shown(alloc: Global, found: Result<&[u8], Missing>) -> Result<String, Fail> {
    match found {
        Ok(file) => Ok(format!(in alloc; "{file:?}")?),
        Err(missing) => Ok(format!(in alloc; "{missing}")?),
    }
}

// The file that two boxes join to, or what is told of the first that is missing.
fn joined(alloc: Global, first: &[u8; 32], second: &[u8; 32]) -> Result<String, Fail> {
    let mut joiner = Joiner::open(alloc, 2, 32)?;
    joiner.take(first);
    joiner.take(second);
    shown(alloc, joiner.finish())
}

// The second of two boxes, as it was taken.
fn second_of(alloc: Global, first: &[u8; 32], second: &[u8; 32]) -> Result<String, Fail> {
    let mut joiner = Joiner::open(alloc, 2, 32)?;
    joiner.take(first);
    joiner.take(second);
    shown(alloc, Ok(joiner.box_bytes(1)))
}

#[test]
fn parts_of_files(rt: HostRuntime) {
    assert!(rt; is_part(&[0, 1, 2], 0, &SHORT));
    assert!(rt; is_part(&[], 0, &EMPTY));
    assert!(rt; is_part(&[5; 17], 0, &FIRST));
    assert!(rt; is_part(&[5; 17], 1, &SECOND));
}

#[test]
fn joined_and_missing(rt: HostRuntime) -> Result<(), Fail> {
    let file = "[5, 5, 5, 5, 5, 5, 5, 5, 5, 5, 5, 5, 5, 5, 5, 5, 5]";
    is_told(joined(rt.alloc(), &FIRST, &SECOND), file)?;
    is_told(
        joined(rt.alloc(), &FIRST, &[0; 32]),
        "box 1 has no part of the file",
    )?;
    is_told(
        joined(rt.alloc(), &SECOND, &FIRST),
        "box 0 has no part of the file",
    )?;
    let second =
        "[0, 0, 0, 0, 0, 0, 0, 7, 0, 1, 0, 2, 0, 1, 0, 0, 5, 0, 0, 0, 0, 0, 0, 0, 0, 0, 0, 0, 0, 0, 0, 0]";
    is_told(second_of(rt.alloc(), &FIRST, &SECOND), second)
}

// How many parts a file has, or else 0.
fn part_count(length: u32, width: u32) -> u32 {
    match parts(length, width) {
        Some(count) => count,
        None => 0,
    }
}

fn is_file(found: Result<&[u8], Missing>, file: &[u8]) -> bool {
    match found {
        Ok(bytes) => bytes == file,
        Err(_) => false,
    }
}

// Whether the parts of a file of so many bytes, each as long as `part`, join to it.
fn is_carried(alloc: Global, size: u32, part: &mut [u8]) -> Result<bool, Fail>
    requires { length part.old ≤ 4096 }
{
    let width = part.len() as u32;
    let Some(count) = parts(size, width) else {
        return Ok(false);
    };
    let file: Vec<u8> = vec![in alloc; 7; size as usize]?;
    let mut joiner = Joiner::open(alloc, count, width)?;
    for index in 0..count {
        cut_into(&file, u64::MAX, index, part);
        joiner.take(part);
    }
    Ok(is_file(joiner.finish(), &file))
}

const COUNTS: [(u32, u32, u32); 13] = [
    (0, 32, 1),
    (1, 32, 1),
    (15, 32, 1),
    (16, 32, 1),
    (17, 32, 2),
    (65_536, 32, 4096),
    (65_537, 32, 0),
    (16_711_680, 4096, 4096),
    (16_711_681, 4096, 0),
    (u32::MAX, 4096, 0),
    (3, 16, 0),
    (3, 40, 0),
    (3, 4112, 0),
];

#[test]
fn files_are_carried(rt: HostRuntime) -> Result<(), Fail> {
    for (length, width, wanted) in &COUNTS {
        assert!(rt;
            part_count(*length, *width) == *wanted,
            "{length} at {width}"
        );
    }
    for length in [0, 1, 15, 16, 17, 65_536] {
        assert!(rt;
            is_carried(rt.alloc(), length, &mut [0; 32])?,
            "{length} bytes"
        );
    }
    assert!(rt; is_carried(rt.alloc(), 4081, &mut [0; 4096])?);
    Joiner::open(rt.alloc(), 4096, 4096)?;
    Ok(())
}
