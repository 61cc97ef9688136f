//! Where the doors of two servers are.
ghost use Rattle.std.specs.Prelude.{◌≡◌};
ghost use Rattle.door_work.specs.Steps.{place_of};

use door_exchange::Place;
use express_words::Role;

/// The places of the leader's door and of the helper's.
#[derive(Drop)]
pub struct Places<'a> {
    pub leader: Place<'a>,
    pub helper: Place<'a>,
}

impl<'a> Places<'a> {
    /// The place of a server's door.
    pub fn of(&self, server: Role) -> &Place<'a>
        ensures { result.now ≡ place_of self.now server }
    {
        match server {
            Role::Leader => &self.leader,
            Role::Helper => &self.helper,
        }
    }
}
