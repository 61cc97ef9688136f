//! Where a client's servers are.
ghost use Rattle.std.specs.Prelude.{◌≡◌};
ghost use Rattle.node_client.specs.Talks.{address_of};

/// The addresses of a client's two servers, as a net dials them.
#[derive(Clone, Copy, Debug)]
pub struct Peers<'a> {
    pub leader: &'a str,
    pub helper: &'a str,
}

/// The address of a server: the leader is 0, the helper 1.
pub fn address_of<'a>(peers: &Peers<'a>, server: u8) -> &'a str
    ensures { result.now ≡ address_of peers.now server }
{
    match server {
        0 => peers.leader,
        _ => peers.helper,
    }
}
