//! Bytes over the front of a longer block.
ghost use Rattle.std.specs.Prelude.{◌≡◌, ◌≤◌, length};
ghost use Rattle.block_region.specs.Region.{written_over};

/// Writes the bytes over the first ones of the block. Its other bytes stay.
pub fn write_front(block: &mut [u8], bytes: &[u8])
    requires { length bytes.now ≤ length block.old }
    ensures { block.new ≡ written_over block.old bytes.now }
{
    block[..bytes.len()].copy_from_slice(bytes);
}
