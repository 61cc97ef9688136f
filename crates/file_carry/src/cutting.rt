//! Cutting a file into parts.
ghost use Rattle.std.specs.Prelude.{◌≡◌, ◌-◌, ◌<◌, ◌≤◌, ◌↔◌, length, IsSome, IfSome};
ghost use Rattle.file_carry.specs.Parts.{IsPartWidth, count_of, header, filled, content_of, part_of};

use express_words::limits::{MOST_BOXES, MOST_WIDTH};

/// A part begins with so many bytes that aren't the file's.
pub const HEADER: usize = 16;

/// A message that carries a part of a file has at least so many bytes.
pub const LEAST_PART: u32 = 32;

/// How many parts a file of `length` bytes has in messages of `width` bytes: None where the width isn't a
/// multiple of 16 from 32 to 4,096, or where there are more than 4,096 parts.
#[tactic(auto, unfolding(crate::specs::Parts::count_of))]
pub fn parts(length: u32, width: u32) -> Option<u32>
    ensures limits { IsSome result ↔ (IsPartWidth width × (count_of length (width - 16) ≤ 4096)) }
    ensures count { IfSome result (λ count. count ≡ count_of length (width - 16)) }
    ensures least { IfSome result (λ count. 1 ≤ count) }
{
    if !((LEAST_PART..=MOST_WIDTH).contains(&width) && width % 16 == 0) {
        return None;
    }
    let count = length.div_ceil(width - HEADER as u32).max(1);
    if count <= MOST_BOXES {
        Some(count)
    } else {
        None
    }
}

/// Writes the part of this index into `out`, which is as long as a message. A part is, big-endian, the file's
/// id (8 bytes), its index (2), how many parts there are (2), how many of its bytes are the file's (2) and
/// two zeros; then those bytes, and zeros behind them.
pub fn cut_into(file: &[u8], id: u64, index: u32, out: &mut [u8])
    requires width { IsPartWidth (length out.old) }
    requires count { count_of (length file.now) (length out.old - 16) ≤ 4096 }
    requires index { index < count_of (length file.now) (length out.old - 16) }
    ensures { out.new ≡ part_of file.now id (length out.old) index }
{
    let room = out.len() - HEADER;
    let count = count_at(file.len(), room);
    let content = content_at(file, room, index as usize);
    let (head, body) = out.split_at_mut(HEADER);
    write_header(head, id, index as u16, count as u16, content.len() as u16);
    fill(body, content);
}

// The bytes of the file that the part of this index has.
#[tactic(auto, using(crate::proofs::CutLaws::starts))]
fn content_at(file: &[u8], room: usize, index: usize) -> &[u8]
    requires room { 0 < room }
    requires least { room ≤ 4080 }
    requires count { count_of (length file.now) room ≤ 4096 }
    requires index { index < count_of (length file.now) room }
    ensures { result.now ≡ content_of file.now room index }
{
    let (_, rest) = file.split_at(index * room);
    &rest[..room.min(rest.len())]
}

#[tactic(auto, unfolding(crate::specs::Parts::count_of))]
fn count_at(length: usize, room: usize) -> usize
    requires { 0 < room }
    ensures { result ≡ count_of length room }
{
    length.div_ceil(room).max(1)
}

fn write_header(out: &mut [u8], id: u64, index: u16, count: u16, used: u16)
    requires { length out.old ≡ 16 }
    ensures { out.new ≡ header id index count used }
{
    out[..8].copy_from_slice(&id.to_be_bytes());
    out[8..10].copy_from_slice(&index.to_be_bytes());
    out[10..12].copy_from_slice(&count.to_be_bytes());
    out[12..14].copy_from_slice(&used.to_be_bytes());
    out[14..].fill(0);
}

// The content, and zeros behind it.
fn fill(out: &mut [u8], content: &[u8])
    requires { length content.now ≤ length out.old }
    ensures { out.new ≡ filled (length out.old) content.now }
{
    let (front, rest) = out.split_at_mut(content.len());
    front.copy_from_slice(content);
    rest.fill(0);
}
