//! What a client asks at the door.
ghost use Rattle.std.specs.Prelude.{◌≡◌, ◌<◌, ◌≤◌, length, take, drop, MatchOption, option_map};
ghost use Rattle.http_door.specs.declared.request.Path.TheVariants as path;
ghost use Rattle.http_door.specs.Requests.{path_text, path_of, plain_request, request_of, request_path};
ghost use Rattle.http_door.specs.Requests.{ticket_at};

use lane_gate::{StatementHash, Ticket, TicketHash};

/// Where a request goes.
#[derive(Clone, Copy, Debug, PartialEq, Eq)]
pub enum Path {
    Frame,
    Proof,
    Lease,
}

/// What a client asks, with the ticket that says whose it is.
#[derive(Clone, Copy)]
pub enum Request<'a> {
    /// That the server takes this frame.
    Frame {
        ticket: Ticket,
        frame: &'a [u8],
    },
    /// That the server takes this frame, a proof of the statement of this hash.
    Proof {
        ticket: Ticket,
        statement: StatementHash,
        frame: &'a [u8],
    },
    /// A lease for this ticket here, and at the helper for the ticket of this hash.
    Lease {
        ticket: Ticket,
        helper: TicketHash,
    },
}

impl Path {
    /// The target that names it.
    pub fn text(self) -> &'static [u8]
        ensures { result.now ≡ path_text self }
    {
        match self {
            Path::Frame => b"/frame",
            Path::Proof => b"/proof",
            Path::Lease => b"/lease",
        }
    }

    /// The path that this target names, byte for byte.
    pub fn of(target: &[u8]) -> Option<Path>
        ensures { result ≡ path_of target.now }
    {
        if target == b"/frame".as_slice() {
            Some(Path::Frame)
        } else if target == b"/proof".as_slice() {
            Some(Path::Proof)
        } else if target == b"/lease".as_slice() {
            Some(Path::Lease)
        } else {
            None
        }
    }
}

fn ticket_and_rest(body: &[u8]) -> Option<(Ticket, &[u8])>
    ensures { MatchOption result (length body.now < 16)
        (λ p. (16 ≤ length body.now) × (p.0 ≡ ticket_at body.now) × (p.1.now ≡ drop 16 body.now)) }
{
    let (ticket, rest) = body.split_first_chunk::<16>()?;
    Some((Ticket(*ticket), rest))
}

// A SHA-256 digest of 32 bytes, and what stands behind it.
fn digest_and_rest(bytes: &[u8]) -> Option<([u8; 32], &[u8])>
    ensures { MatchOption result (length bytes.now < 32)
        (λ p. (32 ≤ length bytes.now) × (p.0 ≡ take 32 bytes.now) × (p.1.now ≡ drop 32 bytes.now)) }
{
    let (digest, rest) = bytes.split_first_chunk::<32>()?;
    Some((*digest, rest))
}

fn frame_of(body: &[u8]) -> Option<Request<'_>>
    ensures { option_map plain_request result ≡ request_of path.Frame body.now }
{
    let (ticket, frame) = ticket_and_rest(body)?;
    Some(Request::Frame { ticket, frame })
}

fn proof_of(body: &[u8]) -> Option<Request<'_>>
    ensures { option_map plain_request result ≡ request_of path.Proof body.now }
{
    let (ticket, rest) = ticket_and_rest(body)?;
    let (digest, frame) = digest_and_rest(rest)?;
    Some(Request::Proof {
        ticket,
        statement: StatementHash(digest),
        frame,
    })
}

fn lease_of(body: &[u8]) -> Option<Request<'_>>
    ensures { option_map plain_request result ≡ request_of path.Lease body.now }
{
    let (ticket, rest) = ticket_and_rest(body)?;
    let (digest, []) = digest_and_rest(rest)? else {
        return None;
    };
    Some(Request::Lease {
        ticket,
        helper: TicketHash(digest),
    })
}

impl Request<'_> {
    /// Where it goes.
    pub fn path(&self) -> Path
        ensures { result ≡ request_path (plain_request self.now) }
    {
        match self {
            Request::Frame { .. } => Path::Frame,
            Request::Proof { .. } => Path::Proof,
            Request::Lease { .. } => Path::Lease,
        }
    }

    /// The request that this body is at this path.
    pub fn of(path: Path, body: &[u8]) -> Option<Request<'_>>
        ensures { option_map plain_request result ≡ request_of path body.now }
    {
        match path {
            Path::Frame => frame_of(body),
            Path::Proof => proof_of(body),
            Path::Lease => lease_of(body),
        }
    }
}
