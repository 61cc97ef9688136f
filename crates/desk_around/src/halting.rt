//! What is told where work at the servers' doors halts.
ghost use Rattle.std.specs.Prelude.{◌≡◌};
ghost use Rattle.desk_around.specs.Ends.{IsCause};
ghost use Rattle.desk_around.specs.Halts.{halted, unanswered};

use crate::trouble::{Trouble, unnoted};
use door_exchange::Broken;
use door_work::Halt;
use express_words::Role;

/// What is told where a server gave no whole answer.
pub fn unanswered<'a>(server: Role, why: Broken) -> Trouble<'a>
    ensures trouble { result ≡ unanswered server why }
    ensures cause { IsCause result }
{
    match why {
        Broken::Fault(_) => Trouble::Unreached(server),
        Broken::Early(_) | Broken::Wrong(_) => Trouble::NoAnswer(server),
    }
}

/// What is told of a halt.
pub fn halted<'a>(why: Halt) -> Trouble<'a>
    ensures trouble { result ≡ halted why }
    ensures cause { IsCause result }
{
    match why {
        Halt::Keep(fault) => unnoted(fault),
        Halt::Unanswered(server, why) => unanswered(server, why),
        Halt::Busy(server) => Trouble::Busy(server),
        Halt::NotYours(server) => Trouble::NotYours(server),
        Halt::Answer(server) => Trouble::NoAnswer(server),
    }
}
