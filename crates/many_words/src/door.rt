//! The doors of a server.
ghost use Rattle.std.specs.Prelude.{◌≡◌};
ghost use Rattle.many_words.specs.Doors.{is_client, is_dialled, is_link, is_peer};

/// Which door a connection came through.
#[derive(Clone, Copy, Debug, PartialEq, Eq)]
pub enum Door {
    /// The clients'.
    Clients,
    /// The operators'.
    Status,
    /// The other server's.
    Link,
    /// None: it is the one connection that the server itself dials.
    Dialled,
}

impl Door {
    /// Whether clients come through it.
    pub fn is_client(self) -> bool
        ensures { result ≡ is_client self }
    {
        matches!(self, Door::Clients)
    }

    /// Whether the other server comes through it.
    pub fn is_link(self) -> bool
        ensures { result ≡ is_link self }
    {
        matches!(self, Door::Link)
    }

    /// Whether the server itself dials.
    pub fn is_dialled(self) -> bool
        ensures { result ≡ is_dialled self }
    {
        matches!(self, Door::Dialled)
    }

    /// Whether the other server is at the connection's end.
    pub fn is_peer(self) -> bool
        ensures { result ≡ is_peer self }
    {
        matches!(self, Door::Link | Door::Dialled)
    }
}
