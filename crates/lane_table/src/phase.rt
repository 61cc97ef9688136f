//! How far a lane's request has come at a server, by the numbers that a refusal's frame has.
ghost use Rattle.std.specs.Prelude.{◌≡◌};

/// Nothing of the lane's serial stands.
pub const IDLE: u8 = 0;
/// At the helper: a deposit of the request is held.
pub const DEPOSITED: u8 = 1;
/// At the helper: the write has begun, and its challenge is drawn.
pub const BEGUN: u8 = 2;
/// At the helper: the proof share of the write is held.
pub const PROVED: u8 = 3;
/// At the helper: the write was audited, and its closing is held.
pub const AUDITED: u8 = 4;
/// The request is answered.
pub const DONE: u8 = 5;
/// At the leader: the request's first command is outstanding.
pub const WAITING: u8 = 6;
/// At the leader: the writer has its challenge, and owes its proof share.
pub const CHALLENGED: u8 = 7;
/// At the leader: the audit of the write, or its settling, is outstanding.
pub const AUDITING: u8 = 8;

/// The number of each phase.
pub fn phases_are_numbered()
    ensures idle { IDLE ≡ 0 }
    ensures deposited { DEPOSITED ≡ 1 }
    ensures begun { BEGUN ≡ 2 }
    ensures proved { PROVED ≡ 3 }
    ensures audited { AUDITED ≡ 4 }
    ensures done { DONE ≡ 5 }
    ensures waiting { WAITING ≡ 6 }
    ensures challenged { CHALLENGED ≡ 7 }
    ensures auditing { AUDITING ≡ 8 }
{}
