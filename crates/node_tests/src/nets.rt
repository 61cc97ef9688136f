//! Nets in memory whose connections give known bytes.
use crate::hidden::Hidden;
use express_words::outside::{MemoryConn, MemoryNet};
use std::alloc::{AllocError, Global};
use std::test::Fail;

pub(crate) type HiddenNet = Hidden<MemoryNet>;

fn add_conn(alloc: Global, conns: &mut Vec<MemoryConn>, digits: &str) -> Result<(), Fail> {
    let bytes = hex::decode(alloc, digits)?;
    let conn = MemoryConn::new(alloc, &bytes, 8213, &[])?;
    conns.push(conn).map_err(AllocError::from)?;
    Ok(())
}

fn conns_of(alloc: Global, texts: &[&str]) -> Result<Vec<MemoryConn>, Fail> {
    let mut conns = Vec::new(alloc);
    for digits in texts {
        add_conn(alloc, &mut conns, digits)?;
    }
    Ok(conns)
}

/// A net whose connections give these bytes, in hexadecimal digits. The call of this number fails, 0 for none.
pub(crate) fn net_of(alloc: Global, texts: &[&str], failing: u64) -> Result<HiddenNet, Fail> {
    let conns = conns_of(alloc, texts)?;
    let inside = MemoryNet::new(alloc, conns, 20, 99, &[failing])?;
    Ok(Hidden { inside })
}
