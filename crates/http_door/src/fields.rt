//! The type that a head's fields give its body.
ghost use Rattle.std.specs.Prelude.{◌≡◌, map, length, All};
ghost use Rattle.httparse.specs.Spans.{IsHeaderWithin, header_bytes};
ghost use Rattle.http_door.specs.Fields.{is_type, is_octets, names_type, are_octets, has_octets};

use http1::text::eq_ignore_case;
use httparse::spans::HeaderSpan;

fn is_type(held: &[u8], span: &HeaderSpan) -> bool
    requires { IsHeaderWithin (length held.now) span.now }
    ensures { result ≡ is_type (header_bytes held.now span.now) }
{
    eq_ignore_case(span.name.of(held), b"content-type")
}

fn is_octets(held: &[u8], span: &HeaderSpan) -> bool
    requires { IsHeaderWithin (length held.now) span.now }
    ensures { result ≡ is_octets (header_bytes held.now span.now) }
{
    eq_ignore_case(span.value.of(held), b"application/octet-stream")
}

fn names_type(held: &[u8], spans: &[HeaderSpan]) -> bool
    requires { All (IsHeaderWithin (length held.now)) spans.now }
    ensures { result ≡ names_type (map (header_bytes held.now) spans.now) }
{
    for span in spans {
        if is_type(held, span) {
            return true;
        }
    }
    false
}

fn are_octets(held: &[u8], spans: &[HeaderSpan]) -> bool
    requires { All (IsHeaderWithin (length held.now)) spans.now }
    ensures { result ≡ are_octets (map (header_bytes held.now) spans.now) }
{
    for span in spans {
        if is_type(held, span) && !is_octets(held, span) {
            return false;
        }
    }
    true
}

/// Whether there is a Content-Type, and each is that of octets.
pub(crate) fn has_octets(held: &[u8], spans: &[HeaderSpan]) -> bool
    requires { All (IsHeaderWithin (length held.now)) spans.now }
    ensures { result ≡ has_octets (map (header_bytes held.now) spans.now) }
{
    names_type(held, spans) && are_octets(held, spans)
}
