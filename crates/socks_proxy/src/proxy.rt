//! Where a proxy listens.
ghost use Rattle.std.specs.Prelude.{◌≡◌};
ghost use Rattle.socks_proxy.specs.Dials.{is_named};

/// Where a proxy listens.
#[derive(Clone, Copy, Debug, PartialEq, Eq)]
pub enum Proxy<'a> {
    /// At this place, HOST:PORT; each dial goes through it.
    Named(&'a str),
    /// Where Tor does, and where nobody listens there, Tor Browser's; places of onion services alone are dialled through it.
    Tor,
}

impl Proxy<'_> {
    /// Whether each dial goes through it.
    pub fn is_named(&self) -> bool
        ensures { result ≡ is_named self.now }
    {
        match self {
            Proxy::Named(_) => true,
            Proxy::Tor => false,
        }
    }
}
