//! What a server evaluates.
use dpf_keys::PublicPart;

/// One server's key: the public part, the server's number, 0 or 1, and its root.
#[derive(Clone, Copy)]
pub(crate) struct ServerKey<'a> {
    pub(crate) part: &'a PublicPart<'a>,
    pub(crate) server: u8,
    pub(crate) root: u128,
}
