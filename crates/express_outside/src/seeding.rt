//! A seed of the system's random bytes.
use crate::adapter::Adapter;
use crate::calls::Direct;
use input_reading::seed_of;
use std::fs::File;
use std::rt::Files;

/// The system gave no 32 random bytes.
#[derive(Clone, Copy, Debug, PartialEq, Eq)]
pub struct NoSeed;

/// 32 random bytes of the system.
pub fn random_seed<R: Files>(rt: &R) -> Result<[u8; 32], NoSeed> {
    let random = File::open(rt, "/dev/urandom").map_err(|_| NoSeed)?;
    seed_of(&mut Adapter::new(Direct::new(random))).map_err(|_| NoSeed)
}
