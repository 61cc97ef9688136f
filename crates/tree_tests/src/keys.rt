//! Keys of whose bytes a caller learns nothing, which keeps its proof small.
use dpf_keys::generate;

/// Writes the public part for a message of 16 or 32 bytes. False where the message or `out` has another length.
pub(crate) fn writes_keys(target: u128, message: &[u8], roots: [u128; 2], out: &mut [u8]) -> bool {
    let fits = (message.len() == 16 || message.len() == 32) && out.len() == 2064 + message.len();
    if fits {
        generate(target, message, roots[0], roots[1], out);
    }
    fits
}
