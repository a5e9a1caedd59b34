ghost use Rattle.std.specs.Prelude.{◌≡◌, Some};
ghost use Rattle.mst_path_judges.specs.Spans.{FirstSpan, IsEither, span_cmp as span_cmp_of};

use mst_ids::Name;
use std::cmp::Ordering;

/// Two bridges, and how many hops the path from the one to the other has.
#[derive(Clone, Copy)]
pub(crate) struct Span {
    pub(crate) hops: usize,
    pub(crate) from: Name,
    pub(crate) to: Name,
}

/// The order of spans: by the number of hops, the most first, and then by the names of the bridges.
fn span_cmp(span: &Span, other: &Span) -> Ordering
    ensures { result ≡ span_cmp_of span.now other.now }
{
    other
        .hops
        .cmp(&span.hops)
        .then(span.from.cmp(&other.from))
        .then(span.to.cmp(&other.to))
}

/// The first of a span and of the one that was the first so far, if there was one.
fn earlier(so_far: Option<Span>, span: Span) -> Span
    ensures { FirstSpan (IsEither so_far (Some span)) (Some result) }
{
    let Some(first) = so_far else {
        return span;
    };
    if span_cmp(&span, &first).is_lt() {
        return span;
    }
    first
}

/// The first of two spans, if there is one.
pub(crate) fn first(so_far: Option<Span>, other: Option<Span>) -> Option<Span>
    ensures { FirstSpan (IsEither so_far other) result }
{
    match other {
        None => so_far,
        Some(span) => Some(earlier(so_far, span)),
    }
}
