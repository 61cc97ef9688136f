//! A connection, through a proxy that said yes or a direct one.
ghost use Rattle.std.specs.Prelude.{◌≡◌, ◌≤◌, ◌<◌, [], ◌∷◌, length, take, IfOk, OnOk, OnErr};
ghost use Rattle.express_words.specs.Causes.{HasCause, CountsFault};
ghost use Rattle.express_words.specs.Streams.{Gave, IsAtEnd, Took, TookPrefix};
ghost use Rattle.socks_proxy.specs.Telling.{tunnel_seen};

use express_words::outside::{Conn, Counted, Failed, Sink, Source};
use http_server::Log;

/// A connection, through a proxy that said yes or a direct one. It tells the bytes that passed since its user has it; the
/// clauses `through` say which of them passed on the connection below.
#[derive(Drop)]
pub struct Tunnel<C> {
    pub below: C,
    noted: Log<C, ()>,
}

impl<C> Tunnel<C> {
    /// The connection, which its user has from now on.
    pub fn new(below: C) -> Self
        ensures below { result.below ≡ below }
        ensures noted { result.noted.items ≡ (below, tt) ∷ [] }
    {
        let noted = Log::new().and(&below, &());
        Tunnel { below, noted }
    }

    /// The connection below.
    pub fn into_below(self) -> C
        ensures { result ≡ self.below }
    {
        let Tunnel { below, noted: _ } = self;
        below
    }
}

impl<C: Conn> Counted for Tunnel<C> {
    ghost seen = { tunnel_seen C.seen };

    fn faults(&self) -> u64 {
        self.below.faults()
    }
}

impl<C: Conn> Source for Tunnel<C> {
    #[tactic(auto, using(crate::proofs::TellLaws::gave_since, crate::proofs::TellLaws::end_since))]
    fn take(&mut self, buf: &mut [u8]) -> Result<usize, Failed>
        ensures bound { IfOk result (λ n. n ≤ length buf.new) }
        ensures gave { IfOk result (λ n. Gave (tunnel_seen C.seen self.old).content
            (tunnel_seen C.seen self.new).content (take n buf.new)) }
        ensures end { IfOk result (λ n. n ≡ 0 → 0 < length buf.old → IsAtEnd (tunnel_seen C.seen self.new).content) }
        ensures failed { OnErr result (Gave (tunnel_seen C.seen self.old).content
            (tunnel_seen C.seen self.new).content []) }
        ensures writes_nothing { (tunnel_seen C.seen self.new).written ≡ (tunnel_seen C.seen self.old).written }
        ensures through { IfOk result (λ n. Gave (C.seen self.old.below).content
            (C.seen self.new.below).content (take n buf.new)) }
        ensures cause { HasCause (C.seen self.old.below).faults (C.seen self.new.below).faults result }
        ensures counts { CountsFault (C.seen self.old.below).faults (C.seen self.new.below).faults result }
    {
        self.below.take(buf)
    }
}

impl<C: Conn> Sink for Tunnel<C> {
    #[tactic(auto, using(crate::proofs::TellLaws::took_since, crate::proofs::TellLaws::prefix_since))]
    fn put(&mut self, bytes: &[u8]) -> Result<(), Failed>
        ensures took { OnOk result (Took (tunnel_seen C.seen self.old).written
            (tunnel_seen C.seen self.new).written bytes.now) }
        ensures failed { OnErr result (TookPrefix (tunnel_seen C.seen self.old).written
            (tunnel_seen C.seen self.new).written bytes.now) }
        ensures gives_nothing { (tunnel_seen C.seen self.new).content ≡ (tunnel_seen C.seen self.old).content }
        ensures through { OnOk result (Took (C.seen self.old.below).written
            (C.seen self.new.below).written bytes.now) }
        ensures through_front { OnErr result (TookPrefix (C.seen self.old.below).written
            (C.seen self.new.below).written bytes.now) }
        ensures cause { HasCause (C.seen self.old.below).faults (C.seen self.new.below).faults result }
        ensures counts { CountsFault (C.seen self.old.below).faults (C.seen self.new.below).faults result }
    {
        self.below.put(bytes)
    }
}

impl<C: Conn> Conn for Tunnel<C> {}
