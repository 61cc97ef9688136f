//! Devices and a folder of the system under an adapter.
use express_outside::{Adapter, Direct};
use express_words::outside::{Counted, Sink, Source};
use std::fs::File;
use std::io::BufWriter;
use std::test::Fail;

// Whether a take ends so, and so many calls have failed by then.
fn takes(source: &mut Adapter<Direct<File>>, answer: Option<usize>, faults: u64) -> bool {
    source.take(&mut [0; 8]).ok() == answer && source.faults() == faults
}

fn source(rt: &HostRuntime, path: &str) -> Result<Adapter<Direct<File>>, Fail> {
    Ok(Adapter::new(Direct::new(File::open(rt, path)?)))
}

#[test]
fn an_end_of_input_is_no_fault(rt: HostRuntime) -> Result<(), Fail> {
    let mut empty = source(&rt, "/dev/null")?;
    let told = [takes(&mut empty, Some(0), 0), takes(&mut empty, Some(0), 0)];
    assert!(rt; told == [true; 2]);
    Ok(())
}

#[test]
fn a_read_error_is_a_fault_and_no_end_of_input(rt: HostRuntime) -> Result<(), Fail> {
    let mut folder = source(&rt, ".")?;
    let told = [takes(&mut folder, None, 1), takes(&mut folder, None, 2)];
    assert!(rt; told == [true; 2]);
    Ok(())
}

fn full_device(rt: &HostRuntime) -> Result<File, Fail> {
    Ok(File::options().write(true).open(rt, "/dev/full")?)
}

// Whether a sink takes nothing, and counts it.
fn refuses<S: Sink>(sink: &mut S) -> bool {
    sink.put(b"lost").is_err() && sink.faults() == 1
}

#[test]
fn a_device_that_is_full_is_a_fault(rt: HostRuntime) -> Result<(), Fail> {
    assert!(rt; refuses(&mut Adapter::new(Direct::new(full_device(&rt)?))));
    Ok(())
}

#[test]
fn what_is_held_back_for_a_device_that_is_full_is_a_fault(rt: HostRuntime) -> Result<(), Fail> {
    let held_back = BufWriter::new(rt.alloc(), full_device(&rt)?)?;
    assert!(rt; refuses(&mut Adapter::new(Direct::new(held_back))));
    Ok(())
}
