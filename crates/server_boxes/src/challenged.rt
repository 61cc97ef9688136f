//! A write that was given challenges, for whoever asks a server what a proof has to prove.

/// A write that was given challenges and waits for its proof: its request's serial, the key of the challenges, and
/// the public part, of 2,064 bytes and the width.
#[derive(Clone, Copy)]
pub struct ChallengedWrite<'a> {
    pub serial: u32,
    pub ckey: [u8; 32],
    pub part: &'a [u8],
}
