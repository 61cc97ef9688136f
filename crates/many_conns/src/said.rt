//! What becomes of a frame.

/// What a place waits for: the answer to a lane's serial.
#[derive(Clone, Copy, Debug, PartialEq, Eq)]
pub struct Key {
    pub lane: u16,
    pub serial: u32,
}

/// What a step says of a frame, with the length of what it wrote. A frame of the connection that the server dials is never
/// answered there, and waits for nothing.
#[derive(Clone, Copy, Debug, PartialEq, Eq)]
pub enum Said {
    /// Its answer, which goes to its own place.
    Answer(usize),
    /// Its answer, which goes to its own place. No more is taken of that connection, which is closed once the answer has
    /// left.
    Last(usize),
    /// Its place waits for this. Who waited for it before is closed unanswered.
    Wait(Key),
    /// A command, for the connection that the server dials. Its place waits for this answer, if one is named, as with
    /// [`Said::Wait`].
    Command(Option<Key>, usize),
    /// The answer for whoever waits for this, if anybody does.
    Reply(Key, usize),
    /// No answer is due.
    Nothing,
}
