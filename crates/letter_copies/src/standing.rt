//! How one copy stands.
ghost use Rattle.std.specs.Prelude.{◌≡◌};
ghost use Rattle.letter_copies.specs.Copies.{is_unknown, is_unwritten, is_waiting, is_written, tried_again};

/// Behind its first try a copy gets so many further ones.
pub const MOST_FURTHER: u8 = 5;

/// How one copy of a part stands.
#[derive(Clone, Copy, Debug, PartialEq, Eq)]
pub enum Standing {
    /// It isn't written yet; so many tries behind the next one are left.
    Waits { further: u8 },
    /// It is written.
    Written,
    /// It isn't written, now or later.
    NotWritten,
    /// It may have been written.
    Unknown,
}

impl Standing {
    // Behind a try that wrote nothing.
    pub(crate) fn tried_again(self) -> Standing
        ensures { result ≡ tried_again self }
    {
        match self {
            Standing::Waits { further: 0 } => Standing::NotWritten,
            Standing::Waits { further } => Standing::Waits {
                further: further - 1,
            },
            other => other,
        }
    }

    // Whether it waits for a try.
    pub(crate) fn is_waiting(&self) -> bool
        ensures { result ≡ is_waiting self.now }
    {
        matches!(self, Standing::Waits { .. })
    }

    // Whether it is written.
    pub(crate) fn is_written(&self) -> bool
        ensures { result ≡ is_written self.now }
    {
        matches!(self, Standing::Written)
    }

    // Whether it may have been written.
    pub(crate) fn is_unknown(&self) -> bool
        ensures { result ≡ is_unknown self.now }
    {
        matches!(self, Standing::Unknown)
    }

    // Whether it is known that no try so far wrote it.
    pub(crate) fn is_unwritten(&self) -> bool
        ensures { result ≡ is_unwritten self.now }
    {
        matches!(self, Standing::Waits { .. } | Standing::NotWritten)
    }
}
