//! The closings of many writes, judged in batches and one by one.
use batch_audit::sort_out;
use chacha_expand::children;
use express_words::{Closing, NoMemory};
use snip_proof::judge;
use std::alloc::Global;

/// As many writes are judged.
const WRITES: usize = 1024;

// Closings that look random.
fn closings(alloc: Global) -> Result<Vec<Closing>, NoMemory> {
    let mut closings = Vec::new(alloc);
    for k in 0..WRITES {
        let (o, tau) = children(2 * k as u128);
        closings.push(Closing { o, tau })?;
    }
    Ok(closings)
}

/// How many ranges are judged in all, where so many of the writes are bad; each time has a seed of its own.
pub fn sorts(alloc: Global, bad: u32, times: u32) -> Result<u128, NoMemory> {
    let zero = closings(alloc)?;
    let mut one = closings(alloc)?;
    let step = WRITES / (bad as usize).clamp(1, WRITES);
    for (k, closing) in one.iter_mut().enumerate() {
        if bad > 0 && k % step == step - 1 {
            closing.tau ^= 1;
        }
    }
    let Ok(mut rejected) = vec![in alloc; false; zero.len()] else {
        return Err(NoMemory);
    };
    let mut judged = 0u128;
    for time in 0..times {
        let mut seed = [0; 32];
        seed[..4].copy_from_slice(&time.to_le_bytes());
        if one.len() == zero.len() && rejected.len() == zero.len() && zero.len() <= 1 << 20 {
            let ranges = sort_out(&zero, &one, &seed, &mut rejected);
            judged = judged.wrapping_add(u128::from(ranges));
        }
    }
    Ok(judged)
}

/// How many of the writes are accepted one by one, in all.
pub fn judges(alloc: Global, times: u32) -> Result<u128, NoMemory> {
    let zero = closings(alloc)?;
    let mut one = closings(alloc)?;
    let mut accepted = 0u128;
    for time in 0..times {
        if let Some(closing) = one.first_mut() {
            closing.tau ^= u128::from(time);
        }
        for (a, b) in zero.iter().zip(one.iter()) {
            accepted = accepted.wrapping_add(u128::from(judge(a, b)));
        }
    }
    Ok(accepted)
}
