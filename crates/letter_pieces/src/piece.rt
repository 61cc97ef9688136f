//! Pieces in boxes.
ghost use Rattle.std.specs.Prelude.{◌≡◌, ◌↔◌, ◌<◌, ◌≤◌, ◌^◌, length, IsTrue, MatchOption};
ghost use Rattle.file_carry.specs.Boxes.{is_zeros};
ghost use Rattle.file_carry.specs.Parts.{filled, IsPartWidth};
ghost use Rattle.letter_pieces.specs.Pieces.{encoded, front, header, Fits, Spells, IsNoPiece};
ghost use Rattle.letter_pieces.specs.Fields.{length_in, letter_in, IsWritten};
ghost use Rattle.letter_pieces.specs.Reading.{content};

use sha2::{Digest, Sha256};

/// A piece begins with so many bytes that aren't its text.
pub const HEADER: usize = 28;

const ID_AT: usize = 2;

const PART_AT: usize = 10;

const DIGEST_AT: usize = 12;

const LEAST_WIDTH: usize = 32;

const MOST_WIDTH: usize = 4096;

/// By what a letter is known: a number of 64 bits that its writer drew.
#[derive(Clone, Copy, Debug, PartialEq, Eq)]
pub struct LetterId(pub u64);

/// One part of a letter.
#[derive(Clone, Copy, Debug, PartialEq, Eq)]
pub struct Piece<'a> {
    /// The letter of which it is a part.
    pub letter: LetterId,
    /// Which part it is, counted from 0.
    pub part: u8,
    /// How many parts the letter has.
    pub parts: u8,
    /// The bytes of the letter that it has.
    pub text: &'a [u8],
}

/// Writes a piece into `out`, which is as long as a box. It is, big-endian, the text's length (2 bytes), the
/// letter's id (8), the part (1), the parts (1), and the first 16 bytes of the SHA-256 digest of all of these
/// and the text; then the text, and zeros behind it.
pub fn write_piece(piece: &Piece, out: &mut [u8])
    requires { Fits (length out.old) (content piece.now) }
    ensures { out.new ≡ encoded (length out.old) (content piece.now) }
{
    let (head, body) = out.split_at_mut(HEADER);
    head.copy_from_slice(&header(piece));
    fill(body, piece.text);
}

/// The piece that a box holds: one exactly where its bytes are those that writing it gives. That pieces which
/// met never look like one rests on the digest alone.
pub fn read_piece(bytes: &[u8]) -> Option<Piece<'_>>
    ensures { MatchOption result (IsNoPiece bytes.now) (λ p. Spells (content p) bytes.now) }
{
    if !is_width(bytes.len()) {
        return None;
    }
    let (head, body) = bytes.split_at(HEADER);
    let used = usize::from(length_in(head));
    if used > body.len() {
        return None;
    }
    let (text, rest) = body.split_at(used);
    let piece = Piece {
        letter: letter_in(head),
        part: head[PART_AT],
        parts: head[PART_AT + 1],
        text,
    };
    if is_written(&piece, head, rest) {
        Some(piece)
    } else {
        None
    }
}

// Whether a box of these bytes in front and behind is the piece, whose text stands between them. The digest,
// which costs most, comes last.
fn is_written(piece: &Piece, head: &[u8], rest: &[u8]) -> bool
    requires { length piece.now.text.now < 2 ^ 16 }
    ensures { IsTrue result ↔ IsWritten (content piece.now) head.now rest.now }
{
    if piece.text.is_empty() || piece.part >= piece.parts || !is_zeros(rest) {
        return false;
    }
    let header = header(piece);
    head == header.as_slice()
}

// A piece but for its text.
fn header(piece: &Piece) -> [u8; 28]
    requires { length piece.now.text.now < 2 ^ 16 }
    ensures { result ≡ header (content piece.now) }
{
    let fields = front(piece);
    let mut hasher = Sha256::new();
    hasher.update(fields);
    hasher.update(piece.text);
    let whole = hasher.finalize();
    let mut bytes = [0; HEADER];
    let (front, digest) = bytes.split_at_mut(DIGEST_AT);
    front.copy_from_slice(&fields);
    digest.copy_from_slice(&whole[..16]);
    bytes
}

// What the digest is over, but for the text.
fn front(piece: &Piece) -> [u8; 12]
    requires { length piece.now.text.now < 2 ^ 16 }
    ensures { result ≡ front (content piece.now) }
{
    let mut bytes = [0; DIGEST_AT];
    bytes[..ID_AT].copy_from_slice(&(piece.text.len() as u16).to_be_bytes());
    bytes[ID_AT..PART_AT].copy_from_slice(&piece.letter.0.to_be_bytes());
    bytes[PART_AT] = piece.part;
    bytes[PART_AT + 1] = piece.parts;
    bytes
}

// The text, and zeros behind it.
fn fill(body: &mut [u8], text: &[u8])
    requires { length text.now ≤ length body.old }
    ensures { body.new ≡ filled (length body.old) text.now }
{
    let (used, rest) = body.split_at_mut(text.len());
    used.copy_from_slice(text);
    rest.fill(0);
}

fn length_in(head: &[u8]) -> u16
    requires { length head.now ≡ 28 }
    ensures { result ≡ length_in head.now }
{
    u16::from_be_bytes([head[0], head[1]])
}

fn letter_in(head: &[u8]) -> LetterId
    requires { length head.now ≡ 28 }
    ensures { result.0 ≡ letter_in head.now }
{
    let mut number = [0; 8];
    number.copy_from_slice(&head[ID_AT..PART_AT]);
    LetterId(u64::from_be_bytes(number))
}

fn is_zeros(bytes: &[u8]) -> bool
    ensures { result ≡ is_zeros bytes.now }
{
    bytes.iter().all(|b| *b == 0)
}

fn is_width(width: usize) -> bool
    ensures { IsTrue result ↔ IsPartWidth width }
{
    (LEAST_WIDTH..=MOST_WIDTH).contains(&width) && width % 16 == 0
}
