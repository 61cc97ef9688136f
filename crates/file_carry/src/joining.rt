//! Joining boxes that lie one after the other.
ghost use Rattle.std.specs.Prelude.{◌≡◌, ◌+◌, ◌-◌, ◌*◌, ◌<◌, ◌≤◌, ◌++◌, [], length, take, drop};
ghost use Rattle.std.specs.Prelude.{vec_len, vec_capacity};
ghost use Rattle.file_carry.specs.Boxes.{used_in, content_in, parts_joined, join, Joins};
ghost use Rattle.file_carry.specs.Joining.{rows};

use crate::cutting::HEADER;
use crate::fields::{count_in, id_in, is_part, used_in};

/// Joins the first `taken` boxes into `file`, or names the first one that is missing.
pub fn join_into(bytes: &[u8], width: usize, taken: u32, file: &mut Vec<u8>) -> Result<(), u32>
    requires least { 32 ≤ width }
    requires most { width ≤ 4096 }
    requires boxes { taken ≤ 4096 }
    requires whole { length bytes.now ≡ taken * width }
    requires room { taken * width ≤ vec_capacity file.old }
    ensures answer { Joins (join (rows width taken bytes.now)) result file.new.items }
    ensures capacity { vec_capacity file.old ≤ vec_capacity file.new }
{
    file.clear();
    if taken == 0 {
        return Err(0);
    }
    let first = row(bytes, width, taken, 0);
    join_parts(bytes, width, taken, id_in(first), count_in(first), file)
}

/// One box of them.
pub fn row(bytes: &[u8], width: usize, taken: u32, index: u32) -> &[u8]
    requires most { width ≤ 4096 }
    requires boxes { taken ≤ 4096 }
    requires whole { length bytes.now ≡ taken * width }
    requires index { index < taken }
    ensures value { result.now ≡ take width (drop (index * width) bytes.now) }
    ensures size { length result.now ≡ width }
{
    let (_, rest) = bytes.split_at(index as usize * width);
    &rest[..width]
}

fn join_parts(
    bytes: &[u8],
    width: usize,
    taken: u32,
    id: u64,
    count: u16,
    file: &mut Vec<u8>,
) -> Result<(), u32>
    requires least { 32 ≤ width }
    requires most { width ≤ 4096 }
    requires boxes { taken ≤ 4096 }
    requires whole { length bytes.now ≡ taken * width }
    requires room { taken * width ≤ vec_capacity file.old }
    requires empty { file.old.items ≡ [] }
    ensures answer { Joins (parts_joined id count (rows width taken bytes.now)) result file.new.items }
    ensures capacity { vec_capacity file.old ≤ vec_capacity file.new }
{
    let total = u32::from(count).max(1);
    for index in 0..total {
        if index >= taken {
            return Err(index);
        }
        let part = row(bytes, width, taken, index);
        if !is_part(id, count, index, part) {
            return Err(index);
        }
        append_content(part, file);
    }
    Ok(())
}

fn append_content(part: &[u8], file: &mut Vec<u8>)
    requires used { used_in part.now ≤ length part.now - 16 }
    requires least { 16 ≤ length part.now }
    requires room { vec_len file.old + length part.now ≤ vec_capacity file.old }
    ensures items { file.new.items ≡ file.old.items ++ content_in part.now }
    ensures len { vec_len file.new ≤ vec_len file.old + length part.now }
    ensures capacity { vec_capacity file.old ≤ vec_capacity file.new }
{
    let content = &part[HEADER..];
    let used = usize::from(used_in(part));
    let Ok(()) = file.extend_from_slice(&content[..used]) else {
        unreachable!()
    };
}
