//! A line that came from a status door.
ghost use Rattle.std.specs.Prelude.{◌≡◌, IfSome};
ghost use Rattle.server_status.specs.Printed.{IsLineOf, are_printed, is_printed};

// Whether a terminal shows a byte, and does nothing else.
fn is_printed(byte: u8) -> bool
    ensures { result ≡ is_printed byte }
{
    byte >= 0x20 && byte < 0x7f
}

fn are_printed(bytes: &[u8]) -> bool
    ensures { result ≡ are_printed bytes.now }
{
    for byte in bytes {
        if !is_printed(*byte) {
            return false;
        }
    }
    true
}

/// The line that these bytes are, without its end: printed ASCII and one end of a line.
pub fn line_in(bytes: &[u8]) -> Option<&str>
    ensures { IfSome result (λ line. IsLineOf bytes.now line.now) }
{
    let [line @ .., b'\n'] = bytes else {
        return None;
    };
    if !are_printed(line) {
        return None;
    }
    std::str::from_utf8(line).ok()
}
