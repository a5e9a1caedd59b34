ghost use Rattle.std.specs.Prelude.{◌≡◌, ◌<◌, IfOk, MatchOption, length};
ghost use Rattle.std.specs.List.{All};
ghost use Rattle.std.specs.Option.{option_map};
ghost use Rattle.mst_path.specs.Places.{AreNodesOf};
ghost use Rattle.mst_path_judges.specs.Asked.{told_of};
ghost use Rattle.mst_path_judges.specs.Longest.{ArePlacesOf, HasNoPlace, HasPlace, IsFoundSpan};
ghost use Rattle.mst_path_judges.specs.Spans.{FirstSpan, IsCountedFrom, IsCountedTo, span_told};
ghost use Rattle.mst_judged.specs.reasons.Stretches.{HasLongest};
ghost use Rattle.mst_roles.specs.forest.Settled.{outcome_of};

use crate::span::{Span, first};
use crate::stretch::Stretch;
use mst_ids::{Name, Vid};
use mst_path::{Nodes, carrying, hop_counts, is_on, place_on};
use mst_roles::Settled;
use mst_view::PortInView;
use std::alloc::{AllocError, Global};

/// The place of the first port of a bridge, if it is on and has one.
fn place_of(plan: &Settled, ports: &[PortInView], bridge: &Name) -> Option<usize>
    ensures { MatchOption result (HasNoPlace plan.now.net ports.now bridge.now) (HasPlace plan.now.net ports.now bridge.now) }
{
    if is_on(plan, bridge) {
        return place_on(ports, bridge);
    }
    None
}

/// The places of the first ports of those of these bridges that are on and have one.
fn places(
    alloc: Global,
    plan: &Settled,
    ports: &[PortInView],
    bridges: &[Name],
) -> Result<Vec<usize>, AllocError>
    ensures { IfOk result (λ places. ArePlacesOf plan.now.net ports.now bridges.now places.items) }
{
    let mut places = Vec::new(alloc);
    for bridge in bridges {
        if let Some(place) = place_of(plan, ports, bridge) {
            places.push(place)?;
        }
    }
    Ok(places)
}

/// The span from the bridge of the port at a place to that of the port at another one, if there is a path and these are two.
fn span_between(
    ports: &[PortInView],
    counts: &[Option<usize>],
    from: usize,
    to: usize,
) -> Option<Span>
    requires as_long { length counts.now ≡ length ports.now }
    requires from { from < length ports.now }
    requires to { to < length ports.now }
    ensures { FirstSpan (IsCountedFrom ports.now counts.now to from) result }
{
    let Some(hops) = counts[from] else {
        return None;
    };
    let begin = ports[from].name.bridge;
    let end = ports[to].name.bridge;
    if begin == end {
        return None;
    }
    Some(Span {
        hops,
        from: begin,
        to: end,
    })
}

/// The first of the spans from the bridges of the ports at these places to that of the port at another one.
fn longest_to(
    ports: &[PortInView],
    counts: &[Option<usize>],
    places: &[usize],
    to: usize,
) -> Option<Span>
    requires as_long { length counts.now ≡ length ports.now }
    requires places { All (λ place. place < length ports.now) places.now }
    requires to { to < length ports.now }
    ensures { FirstSpan (IsCountedTo ports.now counts.now places.now to) result }
{
    let mut longest = None;
    for place in places {
        let span = span_between(ports, counts, *place, to);
        longest = first(longest, span);
    }
    longest
}

/// The first of the spans between the bridges of the ports at these places, each with the hops of the path between. It walks once from each
/// place.
fn farthest(
    alloc: Global,
    ports: &[PortInView],
    nodes: &Nodes,
    places: &[usize],
) -> Result<Option<Span>, AllocError>
    requires nodes { AreNodesOf ports.now nodes.now.bridges.items nodes.now.lans.items nodes.now.count }
    requires places { All (λ place. place < length ports.now) places.now }
    ensures { IfOk result (λ span. FirstSpan (IsFoundSpan ports.now places.now places.now) span) }
{
    let mut longest = None;
    for to in places {
        let counts = hop_counts(alloc, ports, nodes, *to)?;
        let span = longest_to(ports, counts.as_slice(), places, *to);
        longest = first(longest, span);
    }
    Ok(longest)
}

/// What is told of a span, if there is one.
fn told(alloc: Global, span: &Option<Span>) -> Result<Option<Stretch>, AllocError>
    ensures { IfOk result (λ stretch. told_of stretch ≡ option_map span_told span.now) }
{
    let Some(span) = span else {
        return Ok(None);
    };
    let mut bridges = Vec::new(alloc);
    bridges.push(span.from)?;
    bridges.push(span.to)?;
    Ok(Some(Stretch {
        hops: span.hops,
        bridges,
    }))
}

/// Which two of these bridges have a path of a VID with the most hops, the first two by names, if any two have a path. It walks once from
/// each bridge that is on and has a port which carries the VID. `AllocError`: memory was wanted and refused.
pub(crate) fn longest(
    alloc: Global,
    plan: &Settled,
    vid: Vid,
    bridges: &[Name],
) -> Result<Option<Stretch>, AllocError>
    ensures { IfOk result (λ stretch. HasLongest plan.now.net (outcome_of plan.now) bridges.now vid (told_of stretch)) }
{
    let carrying = carrying(alloc, plan, vid)?;
    let ports = carrying.as_slice();
    let nodes = Nodes::new(alloc, ports)?;
    let places = places(alloc, plan, ports, bridges)?;
    let span = farthest(alloc, ports, &nodes, places.as_slice())?;
    told(alloc, &span)
}
