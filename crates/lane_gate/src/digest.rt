//! When two digests are the same.
ghost use Rattle.std.specs.Prelude.{◌≡◌, ◌↔◌, IsTrue};

/// Whether two digests are the same. All bytes are looked at, wherever they differ.
pub(crate) fn is_same_digest(one: &[u8; 32], other: &[u8; 32]) -> bool
    ensures { IsTrue result ↔ (one.now ≡ other.now) }
{
    let mut differing: u32 = 0;
    for place in 0..32 {
        differing += u32::from(one[place] ^ other[place]);
    }
    differing == 0
}
