//! What is told of a desk's boxes, and of how it stands.
ghost use Rattle.std.specs.Prelude.{◌≡◌, IfOk, string_bytes};
ghost use Rattle.desk_lines.specs.Boxes.{boxes_line, full_line, letters_line, pair_line, retired_line, work_words};

use express_words::NoMemory;
use std::alloc::Global;

/// The line that tells where the two servers are.
#[tactic(auto, unfolding(crate::specs::Boxes::pair_line))]
pub fn pair_text(alloc: Global, leader: &str, helper: &str) -> Result<String, NoMemory>
    ensures { IfOk result (λ text. string_bytes text ≡ pair_line leader.now helper.now) }
{
    let text = format!(in alloc; "servers: {leader} and {helper}\n")?;
    Ok(text)
}

/// How many boxes of a name stand so.
#[derive(Clone, Copy, Debug, PartialEq, Eq)]
pub struct BoxCounts {
    pub live: usize,
    pub waiting: usize,
    pub retired: usize,
}

/// The line that tells it.
#[tactic(auto, unfolding(crate::specs::Boxes::boxes_line))]
pub fn counts_text(alloc: Global, name: &str, counts: &BoxCounts) -> Result<String, NoMemory>
    ensures { IfOk result (λ text. string_bytes text
        ≡ boxes_line name.now counts.now.live counts.now.waiting counts.now.retired) }
{
    let BoxCounts {
        live,
        waiting,
        retired,
    } = *counts;
    let text = format!(in alloc;
        "box {name}: {live} in use, {waiting} to be made yet, {retired} retired\n"
    )?;
    Ok(text)
}

/// The line that tells that the boxes of a name are retired.
#[tactic(auto, unfolding(crate::specs::Boxes::retired_line))]
pub fn retired_text(alloc: Global, name: &str) -> Result<String, NoMemory>
    ensures { IfOk result (λ text. string_bytes text ≡ retired_line name.now) }
{
    let text = format!(in alloc;
        "the boxes of {name} are retired: its cards are of no use any more\n"
    )?;
    Ok(text)
}

/// The line that tells whether anything is under way.
pub fn work_words(is_done: bool) -> &'static str
    ensures { result.now ≡ work_words is_done }
{
    if is_done {
        "nothing is under way\n"
    } else {
        "something is under way: run resume\n"
    }
}

/// The line that tells how many letters there are, and how many of them were not shown.
#[tactic(auto, unfolding(crate::specs::Boxes::letters_line))]
pub fn letters_text(alloc: Global, letters: usize, new: usize) -> Result<String, NoMemory>
    ensures { IfOk result (λ text. string_bytes text ≡ letters_line letters new) }
{
    let text = format!(in alloc; "letters: {letters}, of which {new} weren't shown yet\n")?;
    Ok(text)
}

/// The line that tells how many hundredths of the desk's room are full.
#[tactic(auto, unfolding(crate::specs::Boxes::full_line))]
pub fn full_text(alloc: Global, full: u64) -> Result<String, NoMemory>
    ensures { IfOk result (λ text. string_bytes text ≡ full_line full) }
{
    let text = format!(in alloc; "the desk is {full}% full; forget empties it\n")?;
    Ok(text)
}
