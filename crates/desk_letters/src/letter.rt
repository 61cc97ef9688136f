//! Letters into boxes, and out of them.
ghost use Rattle.std.specs.Prelude.{◌≡◌, ◌↔◌, ◌+◌, ◌-◌, ◌<◌, ◌≤◌, ◌^◌, ◌++◌, length, drop, IsTrue, IsOk, OnOk, OnErr};
ghost use Rattle.std.specs.Prelude.{IfErr, MatchOption};
ghost use Rattle.file_carry.specs.Boxes.{is_zeros};
ghost use Rattle.file_carry.specs.Parts.{filled};
ghost use Rattle.desk_letters.specs.Letters.{room, front, digest_of, letter_of, length_in, id_in, Spells, IsNoLetter};
ghost use Rattle.desk_letters.specs.Opening.{Opens, content, fault_of};

use crate::fault::SealFault;
use sha2::{Digest, Sha256};

/// A letter begins with so many bytes that aren't its text.
pub const HEADER: usize = 26;

const ID_AT: usize = 2;

const DIGEST_AT: usize = 10;

/// What a box holds.
#[derive(Clone, Copy, Debug, PartialEq, Eq)]
pub enum Opened<'a> {
    /// Nothing was left in it.
    Empty,
    /// One letter: the id that its writer drew, and its text.
    Letter { id: u64, text: &'a [u8] },
    /// Letters that met, or something else: nothing of it can be read.
    Met,
}

/// The most bytes of text that a letter has, in a box of this width in bytes.
pub fn room(width: usize) -> usize
    ensures { result ≡ room width }
{
    width.saturating_sub(HEADER)
}

/// Writes a letter into `out`, which is as long as a box. It is, big-endian, the text's length (2 bytes), an id (8),
/// and the first 16 bytes of the SHA-256 digest of length, id and text; then the text, and zeros behind it.
pub fn seal(text: &[u8], id: u64, out: &mut [u8]) -> Result<(), SealFault>
    requires { length out.old ≤ 4096 }
    ensures fits { IsOk result ↔ ((1 ≤ length text.now) × (length text.now ≤ room (length out.old))) }
    ensures sealed { OnOk result (out.new ≡ letter_of (length out.old) id text.now) }
    ensures fault { IfErr result (λ e. e ≡ fault_of (length out.old) text.now) }
    ensures same { OnErr result (out.new ≡ out.old) }
{
    if text.is_empty() {
        return Err(SealFault::NoText);
    }
    let most = room(out.len());
    if text.len() > most {
        return Err(SealFault::TooLong(most as u32));
    }
    write_letter(text, id, out);
    Ok(())
}

/// What a box holds: nothing exactly where all its bytes are zero, and a letter exactly where its bytes are those that
/// sealing gives. All else is taken for letters that met: that these never look like one rests on the digest alone.
pub fn open(bytes: &[u8]) -> Opened<'_>
    requires { length bytes.now ≤ 4096 }
    ensures { Opens (content result) bytes.now }
{
    if is_zeros(bytes) {
        return Opened::Empty;
    }
    match letter_in(bytes) {
        Some((id, text)) => Opened::Letter { id, text },
        None => Opened::Met,
    }
}

// The letter that these bytes spell.
fn letter_in(bytes: &[u8]) -> Option<(u64, &[u8])>
    requires { length bytes.now ≤ 4096 }
    ensures { MatchOption result (IsNoLetter bytes.now) (λ l. Spells l.0 l.1.now bytes.now) }
{
    if bytes.len() < HEADER {
        return None;
    }
    let (head, body) = bytes.split_at(HEADER);
    let used = usize::from(length_in(head));
    if used == 0 {
        return None;
    }
    if used > body.len() {
        return None;
    }
    let (text, rest) = body.split_at(used);
    let id = id_in(head);
    if !is_zeros(rest) {
        return None;
    }
    if has_digest(head, id, text) {
        Some((id, text))
    } else {
        None
    }
}

fn write_letter(text: &[u8], id: u64, out: &mut [u8])
    requires room { 26 + length text.now ≤ length out.old }
    requires width { length out.old ≤ 4096 }
    ensures { out.new ≡ letter_of (length out.old) id text.now }
{
    let digest = digest(text, id);
    let (head, body) = out.split_at_mut(HEADER);
    write_header(head, text.len() as u16, id, &digest);
    fill(body, text);
}

fn write_header(head: &mut [u8], used: u16, id: u64, digest: &[u8; 16])
    requires { length head.old ≡ 26 }
    ensures { head.new ≡ front used id ++ digest.now }
{
    head[..ID_AT].copy_from_slice(&used.to_be_bytes());
    head[ID_AT..DIGEST_AT].copy_from_slice(&id.to_be_bytes());
    head[DIGEST_AT..].copy_from_slice(digest);
}

// The text, and zeros behind it.
fn fill(body: &mut [u8], text: &[u8])
    requires { length text.now ≤ length body.old }
    ensures { body.new ≡ filled (length body.old) text.now }
{
    let (used, rest) = body.split_at_mut(text.len());
    used.copy_from_slice(text);
    rest.fill(0);
}

fn digest(text: &[u8], id: u64) -> [u8; 16]
    requires { length text.now < 2 ^ 16 }
    ensures { result ≡ digest_of id text.now }
{
    let mut hasher = Sha256::new();
    hasher.update((text.len() as u16).to_be_bytes());
    hasher.update(id.to_be_bytes());
    hasher.update(text);
    let whole = hasher.finalize();
    let mut first = [0; 16];
    first.copy_from_slice(&whole[..16]);
    first
}

fn length_in(head: &[u8]) -> u16
    requires { length head.now ≡ 26 }
    ensures { result ≡ length_in head.now }
{
    u16::from_be_bytes([head[0], head[1]])
}

fn id_in(head: &[u8]) -> u64
    requires { length head.now ≡ 26 }
    ensures { result ≡ id_in head.now }
{
    let mut number = [0; 8];
    number.copy_from_slice(&head[ID_AT..DIGEST_AT]);
    u64::from_be_bytes(number)
}

fn has_digest(head: &[u8], id: u64, text: &[u8]) -> bool
    requires head { length head.now ≡ 26 }
    requires text { length text.now < 2 ^ 16 }
    ensures { IsTrue result ↔ (drop 10 head.now ≡ digest_of id text.now) }
{
    let digest = digest(text, id);
    let kept = &head[DIGEST_AT..];
    kept == digest.as_slice()
}

fn is_zeros(bytes: &[u8]) -> bool
    ensures { result ≡ is_zeros bytes.now }
{
    bytes.iter().all(|b| *b == 0)
}
