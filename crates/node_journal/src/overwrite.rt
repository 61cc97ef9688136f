//! Bytes into and out of a buffer, at an offset.
ghost use Rattle.std.specs.Prelude.{◌≡◌, ◌+◌, ◌-◌, ◌≤◌, min, ◌++◌, length, take, drop, vec_len, vec_capacity};
ghost use Rattle.node_journal.specs.History.{overwritten};

/// Over what is there, and past the end; nothing where `at` is past the end.
pub(crate) fn overwrite(buffer: &mut Vec<u8>, at: usize, bytes: &[u8])
    requires room { vec_len buffer.old + length bytes.now ≤ vec_capacity buffer.old }
    ensures written { buffer.new.items ≡ overwritten at bytes.now buffer.old.items }
    ensures growth { vec_len buffer.new ≤ vec_len buffer.old + length bytes.now }
    ensures capacity { vec_capacity buffer.old ≤ vec_capacity buffer.new }
{
    if at > buffer.len() {
        return;
    }
    if bytes.len() <= buffer.len() - at {
        buffer[at..at + bytes.len()].copy_from_slice(bytes);
        return;
    }
    buffer.truncate(at);
    let Ok(()) = buffer.extend_from_slice(bytes) else {
        unreachable!()
    };
}

/// As many bytes as stand there and fit, into the front of `out`.
pub(crate) fn copy_from(bytes: &[u8], at: u64, out: &mut [u8]) -> usize
    ensures amount { result ≡ min (length bytes.now - at) (length out.old) }
    ensures copied { out.new ≡ take result (drop at bytes.now) ++ drop result out.old }
{
    if at >= bytes.len() as u64 {
        return 0;
    }
    let rest = &bytes[at as usize..];
    let count = rest.len().min(out.len());
    out[..count].copy_from_slice(&rest[..count]);
    count
}

/// At most so many bytes from the front.
pub(crate) fn front(bytes: &[u8], most: usize) -> &[u8]
    ensures { result.now ≡ take most bytes.now }
{
    if most < bytes.len() {
        &bytes[..most]
    } else {
        bytes
    }
}
