//! Sums of what was expanded, which keep a piece of work from being left out as unused.

/// The sum of a pair.
pub fn sum(pair: (u128, u128)) -> u128 {
    pair.0 ^ pair.1
}

/// The sum of eight.
pub fn total(words: &[u128; 8]) -> u128 {
    let mut total = 0;
    for word in words {
        total ^= *word;
    }
    total
}
