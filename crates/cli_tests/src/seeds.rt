//! A seed of a source that has bytes to spare, of one that ends too early, and of one that fails.
use express_words::outside::MemorySource;
use input_reading::{SeedFault, seed_of};
use std::test::Fail;

// What comes of this many bytes, with the numbers of the calls that are to fail.
fn taken(
    rt: &HostRuntime,
    length: usize,
    failing: &[u64],
) -> Result<Result<[u8; 32], SeedFault>, Fail> {
    let bytes = vec![in rt.alloc(); 7u8; length]?;
    let mut source = MemorySource::new(rt.alloc(), bytes.as_slice(), failing)?;
    Ok(seed_of(&mut source))
}

fn gives_seed(rt: &HostRuntime) -> Result<bool, Fail> {
    match taken(rt, 40, &[])? {
        Ok(seed) => Ok(seed == [7; 32]),
        Err(_) => Ok(false),
    }
}

fn ends_early(rt: &HostRuntime) -> Result<bool, Fail> {
    let taken = taken(rt, 31, &[])?;
    Ok(matches!(taken, Err(SeedFault::Early(31))))
}

fn fails_at(rt: &HostRuntime, length: usize, call: u64) -> Result<bool, Fail> {
    let taken = taken(rt, length, &[call])?;
    Ok(matches!(taken, Err(SeedFault::Failed(1))))
}

#[test]
fn a_seed_is_taken_or_its_fault_told(rt: HostRuntime) -> Result<(), Fail> {
    assert!(rt; gives_seed(&rt)?);
    assert!(rt; ends_early(&rt)?);
    assert!(rt; fails_at(&rt, 40, 1)?);
    assert!(rt; fails_at(&rt, 31, 2)?);
    Ok(())
}

// Whether a fault is told so.
fn tells(rt: &HostRuntime, fault: SeedFault, wanted: &str) -> Result<bool, Fail> {
    let text = format!(in rt.alloc(); "{fault}")?;
    Ok(text.as_str() == wanted)
}

#[test]
fn each_fault_has_its_text(rt: HostRuntime) -> Result<(), Fail> {
    let early = "the source of random bytes ended after 31 bytes";
    assert!(rt; tells(&rt, SeedFault::Early(31), early)?);
    let failed = "the source of random bytes failed (faults: 1)";
    assert!(rt; tells(&rt, SeedFault::Failed(1), failed)?);
    Ok(())
}
