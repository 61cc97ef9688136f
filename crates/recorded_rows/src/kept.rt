//! Servers with journals on disks in memory.
mod kept_server;
mod recorded;

pub(crate) use recorded::Recorded;
