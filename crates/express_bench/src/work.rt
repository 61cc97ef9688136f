//! The pieces of work.
use crate::{closings, nodes, parts, passes, products, servers, stores, streams};
use express_words::NoMemory;
use std::alloc::Global;
use std::fmt;

/// A piece of work.
#[derive(Clone, Copy)]
pub enum Work {
    /// Eight nodes of the tree expanded, one after another.
    Children,
    /// Eight nodes of the tree expanded at once.
    Children8,
    /// Plain products of the field.
    Product,
    /// Products of the field by tables.
    MulFast,
    /// Products of the field, each by new tables.
    Tables,
    /// The leaves at the addresses of so many boxes, by one pass.
    Pass(u32),
    /// The same leaves, by a walk for each address.
    Walks(u32),
    /// The number of nodes that such a pass expands.
    Nodes(u32),
    /// The closings of 1,024 writes sorted out, so many of which are bad.
    Sorts(u32),
    /// The same closings, none of them bad but one, judged one by one.
    Judges,
    /// The shares of the largest settings, opened and cleared once, however often that is asked.
    Shares,
    /// The kept replies of the largest settings, likewise.
    Replies,
    /// Sixteen blocks of a state.
    Blocks,
    /// The challenges at eight addresses, one after another.
    Challenges,
    /// The challenges at eight addresses at once.
    Challenge8,
    /// The sums of the leaves of so many boxes.
    Sums(u32),
    /// The write bytes of so many boxes of 1,024 bytes.
    Outputs(u32),
    /// What a client computes for a write.
    Client,
    /// A whole write to one of so many boxes of 1,024 bytes.
    Writes(u32),
    /// A leader of the largest settings, opened once, however often that is asked.
    Leader,
    /// A helper of the largest settings, likewise.
    Helper,
}

impl Work {
    // A piece of work whose name has no number.
    fn plain(name: &str) -> Option<Work> {
        match name {
            "children" => Some(Work::Children),
            "children8" => Some(Work::Children8),
            "product" => Some(Work::Product),
            "mul_fast" => Some(Work::MulFast),
            "tables" => Some(Work::Tables),
            "judges" => Some(Work::Judges),
            "shares" => Some(Work::Shares),
            "replies" => Some(Work::Replies),
            "blocks" => Some(Work::Blocks),
            "challenges" => Some(Work::Challenges),
            "challenge8" => Some(Work::Challenge8),
            "client" => Some(Work::Client),
            "leader" => Some(Work::Leader),
            "helper" => Some(Work::Helper),
            _ => None,
        }
    }

    // A piece of work whose name ends in a number.
    fn counted(name: &str) -> Option<Work> {
        let (kind, count) = name.split_once('_')?;
        let count = count.parse::<u32>().ok()?;
        match kind {
            "pass" => Some(Work::Pass(count)),
            "walks" => Some(Work::Walks(count)),
            "nodes" => Some(Work::Nodes(count)),
            "sorts" => Some(Work::Sorts(count)),
            "sums" => Some(Work::Sums(count)),
            "outputs" => Some(Work::Outputs(count)),
            "writes" => Some(Work::Writes(count)),
            _ => None,
        }
    }

    /// The work of this name, as `children` or `writes_64`; None where there is none.
    pub fn named(name: &str) -> Option<Work> {
        match Work::plain(name) {
            Some(work) => Some(work),
            None => Work::counted(name),
        }
    }

    /// Does the work and gives its checksum.
    pub fn checksum(self, alloc: Global, times: u32) -> Result<u128, NoMemory> {
        match self {
            Work::Children => Ok(nodes::one_by_one(times)),
            Work::Children8 => Ok(nodes::eight_at_once(times)),
            Work::Product => Ok(products::plain(times)),
            Work::MulFast => Ok(products::by_tables(times)),
            Work::Tables => Ok(products::by_new_tables(times)),
            Work::Pass(boxes) => passes::by_passes(alloc, boxes, times),
            Work::Walks(boxes) => passes::by_walks(alloc, boxes, times),
            Work::Nodes(boxes) => passes::nodes(alloc, boxes),
            Work::Sorts(bad) => closings::sorts(alloc, bad, times),
            Work::Judges => closings::judges(alloc, times),
            Work::Shares => stores::shares(alloc),
            Work::Replies => stores::replies(alloc),
            Work::Blocks => Ok(streams::blocks(times)),
            Work::Challenges => Ok(streams::one_by_one(times)),
            Work::Challenge8 => Ok(streams::eight_at_once(times)),
            Work::Sums(boxes) => parts::by_sums(alloc, boxes, times),
            Work::Outputs(boxes) => parts::by_outputs(alloc, boxes, times),
            Work::Client => Ok(parts::by_client(times)),
            Work::Writes(boxes) => servers::by_writes(alloc, boxes, times),
            Work::Leader => servers::leader(alloc),
            Work::Helper => servers::helper(alloc),
        }
    }
}

impl fmt::Display for Work {
    fn fmt<W: fmt::Write>(&self, f: &mut fmt::Formatter<W>) -> fmt::Result {
        match self {
            Work::Children => write!(f, "children"),
            Work::Children8 => write!(f, "children8"),
            Work::Product => write!(f, "product"),
            Work::MulFast => write!(f, "mul_fast"),
            Work::Tables => write!(f, "tables"),
            Work::Pass(boxes) => write!(f, "pass_{boxes}"),
            Work::Walks(boxes) => write!(f, "walks_{boxes}"),
            Work::Nodes(boxes) => write!(f, "nodes_{boxes}"),
            Work::Sorts(bad) => write!(f, "sorts_{bad}"),
            Work::Judges => write!(f, "judges"),
            Work::Shares => write!(f, "shares"),
            Work::Replies => write!(f, "replies"),
            Work::Blocks => write!(f, "blocks"),
            Work::Challenges => write!(f, "challenges"),
            Work::Challenge8 => write!(f, "challenge8"),
            Work::Sums(boxes) => write!(f, "sums_{boxes}"),
            Work::Outputs(boxes) => write!(f, "outputs_{boxes}"),
            Work::Client => write!(f, "client"),
            Work::Writes(boxes) => write!(f, "writes_{boxes}"),
            Work::Leader => write!(f, "leader"),
            Work::Helper => write!(f, "helper"),
        }
    }
}
