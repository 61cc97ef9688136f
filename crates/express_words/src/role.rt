//! Which of the two servers.

/// Which of the two servers.
#[derive(Clone, Copy, Debug, PartialEq, Eq)]
pub enum Role {
    /// Server 0, which takes the clients' requests and leads the other one.
    Leader,
    /// Server 1, which carries out the leader's commands.
    Helper,
}
