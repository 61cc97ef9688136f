//! The next level over a level: its quadratic extension.

/// The value low + high·X over the level `K`, where X² = c·X + 1 with the twist c of `K`.
#[derive(Clone, Copy, Debug, PartialEq, Eq)]
pub struct Quad<K> {
    pub low: K,
    pub high: K,
}
