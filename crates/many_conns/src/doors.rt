//! How many places each door has.
ghost use Rattle.std.specs.Prelude.{◌≡◌};
ghost use Rattle.many_conns.specs.Doors.{link_door};

use many_words::Door;

/// Which of the two servers it is.
#[derive(Clone, Copy, Debug, PartialEq, Eq)]
pub enum Role {
    /// The other server dials it.
    Helper,
    /// It dials the other one.
    Leader,
}

/// The places of a server: the first one is the other server's; behind it are so many of operators, and so many of
/// clients.
#[derive(Clone, Copy, Debug, PartialEq, Eq)]
pub struct Doors {
    pub role: Role,
    pub status: usize,
    pub clients: usize,
}

impl Role {
    /// The door of the other server's place.
    pub fn door(self) -> Door
        ensures { result ≡ link_door self }
    {
        match self {
            Role::Helper => Door::Link,
            Role::Leader => Door::Dialled,
        }
    }
}
