//! Reads an input to its end.
ghost use Rattle.std.specs.Prelude.{◌≡◌, ◌≢◌, ◌≤◌, IfOk, OnOk, IfErr, Err, Some};
ghost use Rattle.input_reading.specs.Reading.{GaveAll, LastTakeFailed, Stopped};
ghost use Rattle.input_reading.specs.Texts.{input_fault_text};

use express_words::outside::Source;
use std::alloc::Global;
use std::fmt;

/// An input has at most so many bytes.
pub const LONGEST: usize = 67_108_864;

/// Why an input isn't read to its end.
#[derive(Clone, Copy, Debug, PartialEq, Eq)]
pub enum InputFault {
    Failed,
    /// It gave byte 67,108,865.
    TooLong,
    NoMemory,
}

impl fmt::Display for InputFault {
    ghost output = { λ fault. Some (input_fault_text fault) };

    fn fmt<W: fmt::Write>(&self, f: &mut fmt::Formatter<W>) -> fmt::Result {
        match self {
            InputFault::Failed => f.write_str("read fault"),
            InputFault::TooLong => f.write_str("input too long"),
            InputFault::NoMemory => f.write_str("out of memory"),
        }
    }
}

/// The bytes of the input up to its end. Reading stops at the first fault, and at byte 67,108,865.
pub fn read_all<S: Source>(alloc: Global, input: &mut S) -> Result<Vec<u8>, InputFault>
    ensures read { IfOk result (λ text. GaveAll (S.seen input.old).content
        (S.seen input.new).content text.items) }
    ensures stopped { IfErr result (Stopped (S.seen input.old).content (S.seen input.new).content
        (S.seen input.old).faults (S.seen input.new).faults) }
    ensures later { (S.seen input.old).faults ≤ (S.seen input.new).faults }
    // No fault of the input is passed over, or told as another cause.
    ensures unfailed { OnOk result ((S.seen input.new).faults ≡ (S.seen input.old).faults) }
    // Nothing is taken after a fault.
    ensures last_take { result ≡ Err InputFault.Failed
        → (last : S) × LastTakeFailed (S.seen input.old) (S.seen last) (S.seen input.new) }
    ensures told { IfErr result (λ fault. fault ≢ InputFault.Failed
        → (S.seen input.new).faults ≡ (S.seen input.old).faults) }
{
    let mut text = Vec::new(alloc);
    let mut buffer = [0u8; 4096];
    'reading: while text.len() <= LONGEST {
        let room = (LONGEST + 1 - text.len()).min(4096);
        match input.take(&mut buffer[..room]) {
            Err(_) => return Err(InputFault::Failed),
            Ok(0) => return Ok(text),
            Ok(count) => {
                if text.extend_from_slice(&buffer[..count]).is_err() {
                    return Err(InputFault::NoMemory);
                }
            }
        }
    }
    Err(InputFault::TooLong)
}
