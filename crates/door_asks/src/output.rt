//! Bytes put into a buffer of the caller's.
ghost use Rattle.std.specs.Prelude.{◌≡◌, ◌+◌, ◌<◌, ◌≤◌, length, IfSome, IfNone};
ghost use Rattle.http1.specs.Text.{concat_slices};
ghost use Rattle.http_door.specs.Output.{IsPut, IsPutAt};

// Puts the bytes behind the first `at`, and tells where they end. None: they don't fit.
fn put_at(out: &mut [u8], at: usize, bytes: &[u8]) -> Option<usize>
    ensures put { IfSome result (λ n. IsPutAt out.old out.new at bytes.now n) }
    ensures short { IfNone result (length out.old < at + length bytes.now) }
{
    if out.len() < at || out.len() - at < bytes.len() {
        return None;
    }
    let end = at + bytes.len();
    out[at..end].copy_from_slice(bytes);
    Some(end)
}

/// Puts the slices one after another from the buffer's start on, and tells where they end. None: they don't fit, and what
/// the buffer then holds isn't said.
pub(crate) fn put_all(out: &mut [u8], parts: &[&[u8]]) -> Option<usize>
    ensures put { IfSome result (λ n. IsPut out.old out.new (concat_slices parts.now) n) }
    ensures short { IfNone result (length out.old < length (concat_slices parts.now)) }
{
    let mut at = 0;
    for part in parts {
        at = put_at(out, at, part)?;
    }
    Some(at)
}
