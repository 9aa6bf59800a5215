ghost use Rattle.std.specs.Prelude.{◌≡◌, ◌↔◌, ◌≤◌, ◌+◌, ◌⊎◌, List, ℕ, IsTrue, false, not, option_copied, length};
ghost use Rattle.std.specs.List.{All, IsAmong, take_while};
ghost use Rattle.rkt_uri.specs.Origin.{fields_of, segments_of};
ghost use Rattle.rkt_route.specs.RouteUri.{path_segments, static_fields};
ghost use Rattle.rkt_router.specs.Tries.{Agrees, EndsTrailing, FormatFits, FormatMatches, Matches, PathMatches};

use crate::{Collide, Route, RouteUri, Segment};
use rkt_base::Text;
use rkt_http::{MediaType, Segments};
use rkt_request::{Request, Types, has_one_format};

fn ends_trailing(segments: &[Segment]) -> bool
    ensures { IsTrue result ↔ EndsTrailing segments.now }
{
    match segments.last() {
        Some(segment) => segment.trailing,
        None => false,
    }
}

/// Whether a path has as many names as a route needs.
fn lengths_match(segments: &[Segment], names: &Segments<'_>) -> bool
    ensures { IsTrue result
        ↔ ((length names.now ≡ length segments.now)
        ⊎ (EndsTrailing segments.now × (length segments.now ≤ length names.now + 1))) }
{
    let (needed, found) = (segments.len(), names.len());
    found == needed || (ends_trailing(segments) && needed.saturating_sub(1) <= found)
}

/// Whether a name may stand in the place of a segment.
fn stands_for(segment: &Segment, name: &str) -> bool
    ensures { IsTrue result ↔ (segment.now.dynamic ≡ false → segment.now.value ≡ name.now) }
{
    segment.dynamic || segment.value.as_str() == name
}

/// Whether each static segment before any trailing one is the name in its place.
fn agrees(segments: &[Segment], names: &Segments<'_>) -> bool
    ensures { IsTrue result ↔ Agrees (take_while (λ s. not s.trailing) segments.now) names.now }
{
    for (at, segment) in segments.iter().enumerate() {
        if segment.trailing {
            return true;
        }
        let Some(name) = names.get(at) else {
            return true;
        };
        if !stands_for(segment, name) {
            return false;
        }
    }
    true
}

fn path_matches(segments: &[Segment], names: &Segments<'_>) -> bool
    ensures { IsTrue result ↔ PathMatches segments.now names.now }
{
    lengths_match(segments, names) && agrees(segments, names)
}

fn is_field(found: (&str, &str), field: &(Text, Text)) -> bool
    ensures { IsTrue result ↔ ◌≡◌ {A = List ℕ × List ℕ} (found.entry.0.now, found.entry.1.now) field.now }
{
    found.0 == field.0.as_str() && found.1 == field.1.as_str()
}

/// Whether a request's query has this field.
fn has_field<T: Types>(request: &Request<'_, T>, field: &(Text, Text)) -> bool
    ensures { IsTrue result ↔ IsAmong (fields_of request.now.uri) field.now }
{
    for found in request.query_fields() {
        if is_field(found, field) {
            return true;
        }
    }
    false
}

fn query_matches<T: Types>(fields: &[(Text, Text)], request: &Request<'_, T>) -> bool
    ensures { IsTrue result ↔ All (IsAmong (fields_of request.now.uri)) fields.now }
{
    for field in fields {
        if !has_field(request, field) {
            return false;
        }
    }
    true
}

/// Whether a format that is asked for and that of a request go together.
fn format_fits(asked: &MediaType, has_payload: bool, found: Option<&MediaType>) -> bool
    ensures { IsTrue result ↔ FormatFits asked.now has_payload (option_copied found.entry) }
{
    match found {
        Some(found) => { (!has_payload || found.specificity() == 2) && asked.collides_with(found) }
        None => !has_payload,
    }
}

fn format_matches<T: Types>(format: Option<&MediaType>, request: &Request<'_, T>) -> bool
    ensures { IsTrue result ↔ FormatMatches (option_copied format.entry) request.now }
{
    // So a format that does not fit rules the route out.
    has_one_format(request);
    match format {
        Some(asked) => format_fits(asked, request.method().supports_payload(), request.format()),
        None => true,
    }
}

/// Whether a request's path and query are what a route asks for.
fn uri_matches<T: Types>(uri: &RouteUri, request: &Request<'_, T>) -> bool
    ensures { IsTrue result
        ↔ (PathMatches (path_segments uri.now.origin) (segments_of request.now.uri)
        × All (IsAmong (fields_of request.now.uri)) (static_fields uri.now.origin)) }
{
    path_matches(uri.segments(), &request.uri().segments()) && query_matches(uri.fields(), request)
}

/// Whether a request may be tried on a route.
pub(crate) fn matches<H, S, T: Types>(route: &Route<H, S>, request: &Request<'_, T>) -> bool
    ensures { IsTrue result ↔ Matches route.now request.now }
{
    request.method() == route.method
        && uri_matches(&route.uri, request)
        && format_matches(route.format.as_ref(), request)
}
