//! The adapters over a reader and a writer that fail or are interrupted.
use express_outside::{Adapter, Direct, FileCall, History};
use express_words::outside::{Counted, Failed, Sink, Source};
use std::io::{self, ErrorKind, Read, Write};
use std::mem::size_of;

/// A reader that has two bytes, then fails once, then has ended. Each of its reads is interrupted so many times first.
#[derive(Drop)]
struct Failing {
    reads: u8,
    interrupts: u32,
    left: u32,
}

impl Failing {
    fn new(interrupts: u32) -> Failing {
        Failing {
            reads: 0,
            interrupts,
            left: interrupts,
        }
    }
}

impl Read for Failing {
    fn read(&mut self, buf: &mut [u8]) -> io::Result<usize> {
        if self.left > 0 {
            self.left -= 1;
            return Err(io::Error::from(ErrorKind::Interrupted));
        }
        self.left = self.interrupts;
        self.reads = self.reads.saturating_add(1);
        if self.reads == 2 {
            return Err(io::Error::from(ErrorKind::BrokenPipe));
        }
        if self.reads > 2 || buf.len() < 2 {
            return Ok(0);
        }
        buf[0] = b'o';
        buf[1] = b'k';
        Ok(2)
    }
}

// Whether the next take gives so many bytes, and so many calls have failed by then.
fn gives(
    source: &mut Adapter<Direct<Failing>>,
    buf: &mut [u8; 8],
    bytes: usize,
    faults: u64,
) -> bool {
    match source.take(buf) {
        Ok(count) => count == bytes && source.faults() == faults,
        Err(Failed) => false,
    }
}

fn fails(source: &mut Adapter<Direct<Failing>>, buf: &mut [u8; 8], faults: u64) -> bool {
    source.take(buf).is_err() && source.faults() == faults
}

fn has_ok(buf: &[u8; 8]) -> bool {
    buf[..2] == [b'o', b'k']
}

// Two bytes, a fault and the end.
fn source_told(interrupts: u32) -> [bool; 4] {
    let mut source = Adapter::new(Direct::new(Failing::new(interrupts)));
    let mut buf = [0u8; 8];
    [
        gives(&mut source, &mut buf, 2, 0),
        has_ok(&buf),
        fails(&mut source, &mut buf, 1),
        gives(&mut source, &mut buf, 0, 1),
    ]
}

#[test]
fn a_source_counts_a_read_error_but_no_interruption_and_no_end(rt: HostRuntime) {
    for interrupts in [0, 1, 999] {
        assert!(rt; source_told(interrupts) == [true; 4]);
    }
}

#[test]
fn a_source_that_is_always_interrupted_is_a_fault(rt: HostRuntime) {
    let mut source = Adapter::new(Direct::new(Failing::new(1000)));
    assert!(rt; fails(&mut source, &mut [0; 8], 1));
}

/// A writer that takes two bytes a time, as long as there is room, is interrupted before each, and may fail at each
/// flush.
#[derive(Drop)]
struct Narrow {
    room: usize,
    flushes: bool,
    is_interrupted: bool,
}

impl Write for Narrow {
    fn write(&mut self, buf: &[u8]) -> io::Result<usize> {
        self.is_interrupted = !self.is_interrupted;
        if self.is_interrupted {
            return Err(io::Error::from(ErrorKind::Interrupted));
        }
        let count = buf.len().min(2).min(self.room);
        self.room -= count;
        Ok(count)
    }

    fn flush(&mut self) -> io::Result<()> {
        if self.flushes {
            Ok(())
        } else {
            Err(io::Error::from(ErrorKind::BrokenPipe))
        }
    }
}

fn sink(flushes: bool) -> Adapter<Direct<Narrow>> {
    Adapter::new(Direct::new(Narrow {
        room: 7,
        flushes,
        is_interrupted: false,
    }))
}

// Whether a put of these bytes goes so, and so many calls have failed by then.
fn puts(sink: &mut Adapter<Direct<Narrow>>, bytes: &[u8], taken: bool, faults: u64) -> bool {
    sink.put(bytes).is_ok() == taken && sink.faults() == faults
}

#[test]
fn a_sink_writes_on_and_counts_what_is_not_taken(rt: HostRuntime) {
    let mut narrow = sink(true);
    let told = [
        puts(&mut narrow, b"short", true, 0),
        puts(&mut narrow, b"longer", false, 1),
    ];
    assert!(rt; told == [true; 2]);
}

#[test]
fn output_that_cannot_be_flushed_is_a_fault(rt: HostRuntime) {
    let mut stuck = sink(false);
    assert!(rt; puts(&mut stuck, b"short", false, 1));
}

#[test]
fn what_is_noted_takes_no_memory(rt: HostRuntime) {
    assert_eq!(rt; size_of::<History<FileCall>>(), 0);
    assert_eq!(rt; size_of::<Direct<u64>>(), size_of::<u64>());
}
