//! Seeds of the system.
use express_outside::random_seed;
use std::test::Fail;

// Two seeds of the system, if there are two.
fn two_seeds(rt: &HostRuntime) -> Option<([u8; 32], [u8; 32])> {
    let first = random_seed(rt).ok()?;
    let second = random_seed(rt).ok()?;
    Some((first, second))
}

#[test]
fn no_two_runs_have_the_same_seed(rt: HostRuntime) -> Result<(), Fail> {
    let (first, second) = two_seeds(&rt).ok_or("no seed")?;
    assert!(rt; first != second && first != [0; 32] && second != [0; 32]);
    Ok(())
}
