ghost use Rattle.std.specs.Prelude.{◌≡◌, ◌+◌, ◌*◌, pos, ◌-ℤ◌};
ghost use Rattle.std.specs.List.{list_any, list_all};
ghost use Rattle.rkt_route.specs.Segment.{color_of, weight};
ghost use Rattle.rkt_route.specs.RouteUri.{query_weight};

use crate::Segment;

/// How much of a path or a query is dynamic.
#[derive(Clone, Copy, Debug, PartialEq, Eq)]
pub enum Color {
    /// No segment is dynamic.
    Static,
    /// Some segments are dynamic, and some are not.
    Partial,
    /// Each segment is dynamic, and there is one.
    Wild,
}

fn has_dynamic(segments: &[Segment]) -> bool
    ensures { result ≡ list_any (λ s. s.dynamic) segments.now }
{
    segments.iter().any(|s| s.dynamic)
}

fn has_only_dynamic(segments: &[Segment]) -> bool
    ensures { result ≡ list_all (λ s. s.dynamic) segments.now }
{
    segments.iter().all(|s| s.dynamic)
}

fn color_of(segments: &[Segment]) -> Color
    ensures { result ≡ color_of segments.now }
{
    if !has_dynamic(segments) {
        Color::Static
    } else if has_only_dynamic(segments) {
        Color::Wild
    } else {
        Color::Partial
    }
}

fn weight(color: Color) -> u8
    ensures { result ≡ weight color }
{
    match color {
        Color::Static => 3,
        Color::Partial => 2,
        Color::Wild => 1,
    }
}

fn query_weight(segments: &[Segment]) -> u8
    ensures { result ≡ query_weight segments.now }
{
    if segments.is_empty() {
        0
    } else {
        weight(color_of(segments))
    }
}

/// The rank of a route of this path and this query that is given none.
pub(crate) fn rank(path: &[Segment], query: &[Segment]) -> i64
    ensures { result ≡ pos 3 -ℤ pos (4 * weight (color_of path.now) + query_weight query.now) }
{
    3 - i64::from(4 * weight(color_of(path)) + query_weight(query))
}
