//! What stands in for standard input, output and error where these are closed.
use std::fs::File;
use std::io;
use std::os::fd::AsRawFd;

/// What is opened in their place.
const NULL: &str = "/dev/null";

/// The number of standard input.
const INPUT: i32 = 0;

/// The number of standard error, the last of the three.
const LAST: i32 = 2;

/// Files that have the numbers of standard input, output and error where a program was started with these closed.
/// While they are held, no file that is opened has such a number, so that nothing that is printed goes into a
/// file, and no file's bytes are taken for the input.
#[derive(Drop)]
pub struct StandIns {
    held: [Option<File>; 3],
}

// What stands in for the first of the three that is closed; None where none is. The system gives a file the lowest
// number that is free. Nothing can be read of an input that is closed, nor written to a closed output, as ever.
fn next_stand_in(rt: &HostRuntime) -> io::Result<Option<File>> {
    let null = File::open(rt, NULL)?;
    let number = null.as_raw_fd();
    if number > LAST {
        return Ok(None);
    }
    if number != INPUT {
        return Ok(Some(null));
    }
    drop(null);
    let mut options = File::options();
    options.write(true);
    Ok(Some(options.open(rt, NULL)?))
}

/// Opens /dev/null for each of the three that is closed: reading the input and writing to an output still fail.
/// To be called before anything else is opened.
pub fn stand_in(rt: &HostRuntime) -> io::Result<StandIns> {
    let mut held = [None, None, None];
    for place in &mut held {
        *place = next_stand_in(rt)?;
        if place.is_none() {
            break;
        }
    }
    Ok(StandIns { held })
}
