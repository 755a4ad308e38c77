// Calls between bundles, and those that lie on a cycle.
ghost use Rattle.std.specs.Prelude.{◌≡◌, ℕ, ◌<◌, ◌↔◌, List, [], length, map, Option, IsTrue, IfOk, IfSome, IfNone, slice_index_or};
ghost use Rattle.std.specs.List.{All};
ghost use Rattle.cfa_calls.specs.Cycles.{seen_call, seen_calls, OnCycle, IsFirstOnCycle, NoneOnCycle};
ghost use Rattle.cfa_calls.specs.Numbering.{names_of, number_in, edge_in, HasEdges, Traces, FirstSoFar, may_be_first};
ghost use Rattle.cfa_calls.specs.Reaching.{Leads, IsLevelled};

use crate::components::levels;
use crate::reaching::Graph;
use cfa_base::{NameIndex, NoMemory, Place, is_before};
use std::alloc::Global;

/// A call of a bundle by another, with the place of the called bundle's name.
#[derive(Clone, Copy, Debug)]
pub struct Call<'a> {
    pub caller: &'a str,
    pub callee: &'a str,
    pub place: Place,
}

// A call by the numbers of its bundles.
#[derive(Clone, Copy, Debug)]
struct Edge {
    from: usize,
    to: usize,
}

/// The place of the first call that lies on a cycle, by the order of places. It takes time near to the number of the
/// calls where these come in rising order of their places.
pub fn first_on_cycle(alloc: Global, calls: &[Call<'_>]) -> Result<Option<Place>, NoMemory>
    ensures some { IfOk result (λ first. IfSome first (IsFirstOnCycle (seen_calls calls.now))) }
    ensures none { IfOk result (λ first. IfNone first (NoneOnCycle (seen_calls calls.now))) }
{
    let names = names(alloc, calls)?;
    let edges = edges(alloc, &names, calls)?;
    let graph = graph(alloc, names.len(), &edges)?;
    let levels = levels(alloc, &graph)?;
    first_closing(alloc, calls, &edges, &graph, &levels)
}

// The same, where each call has its edge in the graph.
fn first_closing(
    alloc: Global,
    calls: &[Call<'_>],
    edges: &[Edge],
    graph: &Graph,
    levels: &[usize],
) -> Result<Option<Place>, NoMemory>
    requires traced { Traces calls.now edges.now graph.now }
    requires levelled { IsLevelled graph.now levels.now }
    ensures { IfOk result (λ first. FirstSoFar (OnCycle (seen_calls calls.now))
        (seen_calls calls.now) first) }
{
    let mut first = None;
    for i in 0..calls.len() {
        let place = calls[i].place;
        if !may_be_first(place, first) {
            continue;
        }
        if !closes_cycle(alloc, graph, levels, edges[i])? {
            continue;
        }
        first = Some(place);
    }
    Ok(first)
}

// The callers and the called bundles of all calls.
fn names<'a>(alloc: Global, calls: &[Call<'a>]) -> Result<NameIndex<'a>, NoMemory>
    ensures { IfOk result (λ names. names ≡ names_of (seen_calls calls.now)) }
{
    let mut names = NameIndex::new(alloc);
    for call in calls {
        names.add(call.caller)?;
        names.add(call.callee)?;
    }
    Ok(names)
}

fn edges(alloc: Global, names: &NameIndex<'_>, calls: &[Call<'_>]) -> Result<Vec<Edge>, NoMemory>
    ensures { IfOk result (λ edges. edges.items ≡ map (edge_in names.now) (seen_calls calls.now)) }
{
    let mut edges = Vec::with_capacity(alloc, calls.len())?;
    for call in calls {
        edges.push(Edge {
            from: number(names, call.caller),
            to: number(names, call.callee),
        })?;
    }
    Ok(edges)
}

fn number(names: &NameIndex<'_>, name: &str) -> usize
    ensures { result ≡ number_in names.now name.now }
{
    names.find(name).unwrap_or(0)
}

fn graph(alloc: Global, nodes: usize, edges: &[Edge]) -> Result<Graph, NoMemory>
    requires from { All (λ edge. edge.from < nodes) edges.now }
    requires to { All (λ edge. edge.to < nodes) edges.now }
    ensures sized { IfOk result (λ graph. length graph ≡ nodes) }
    ensures edges { IfOk result (λ graph. HasEdges edges.now graph) }
{
    let mut graph = Graph::new(alloc, nodes)?;
    for edge in edges {
        graph.connect(edge.from, edge.to)?;
    }
    Ok(graph)
}

// Whether a chain of edges leads back from the end of an edge. An edge to a lower level is told at once.
fn closes_cycle(
    alloc: Global,
    graph: &Graph,
    levels: &[usize],
    edge: Edge,
) -> Result<bool, NoMemory>
    requires levelled { IsLevelled graph.now levels.now }
    requires from { edge.from < length graph.now }
    requires to { edge.to < length graph.now }
    ensures { IfOk result (λ closes. IsTrue closes ↔ Leads graph.now edge.to edge.from) }
{
    if levels[edge.to] < levels[edge.from] {
        return Ok(false);
    }
    let reached = graph.reached(alloc, edge.to)?;
    Ok(reached[edge.from])
}

fn may_be_first(place: Place, first: Option<Place>) -> bool
    ensures { result ≡ may_be_first place first }
{
    match first {
        Some(first) => is_before(place, first),
        None => true,
    }
}
