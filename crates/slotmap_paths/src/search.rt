//! The search: nodes wait by their distance, and the nearest one is settled.

ghost use Rattle.std.specs.Prelude.{◌≡◌, ℕ, ◌+◌, ◌^◌, ◌≤◌, [], IfOk, OnOk, IfErr, IfSome, IfNone, length};
ghost use Rattle.std.specs.FinMap as map;
ghost use Rattle.slotmap.specs.Words.{Key as KeyOf, put};
ghost use Rattle.slotmap_graph.specs.Parts.{edges_at};
ghost use Rattle.slotmap_paths.specs.Costs.{IsStep, RefusesPaths};
ghost use Rattle.slotmap_paths.specs.Searching.{FindsPaths, FollowsEdge, GoesBeyond, IsLatest, Offers, Searching, Visiting, Waits, to_do};
ghost use Rattle.slotmap_paths.specs.declared.PathError.TheVariants as path_error;

use crate::{Costs, PathError, Paths, Reached};
use slotmap::{DefaultKey, Key, SecondaryMap};
use slotmap_graph::{EdgeKey, Graph};
use slotmap_scheduler::Scheduler;
use std::alloc::Global;

// A node that waits to be settled, and the edge that leads there from a settled one; the start has none.
#[derive(Drop)]
pub(crate) struct Candidate<K> {
    node: K,
    by: Option<EdgeKey>,
}

// The nodes whose least distance is known, and those that wait, by a distance at which they can be
// reached. A node may wait several times, and also while it is settled.
pub(crate) struct Search<K> {
    pub settled: Paths<K>,
    pub waiting: Scheduler<DefaultKey, Candidate<K>>,
}

impl<K: Drop> Drop for Search<K> {
    fn drop(self) {
        let Search {
            settled: _settled,
            waiting: _waiting,
        } = self;
    }
}

impl<K: Key> Search<K> {
    // The nodes that were settled.
    pub(crate) fn into_paths(self) -> Paths<K>
        ensures { result ≡ self.settled }
    {
        let Search {
            settled,
            waiting: _waiting,
        } = self;
        settled
    }
}

// No node is settled, and none waits.
pub(crate) fn new_search<K: Key>(alloc: Global) -> Result<Search<K>, PathError>
    ensures settled { IfOk result (λ search. search.settled.pairs ≡ map.empty) }
    ensures waiting { IfOk result (λ search. search.waiting.waiting ≡ []) }
    ensures err { IfErr result (λ error. error ≡ path_error.Memory) }
{
    let Ok(settled) = SecondaryMap::new(alloc) else {
        return Err(PathError::Memory);
    };
    match Scheduler::new(alloc) {
        Ok(waiting) => Ok(Search { settled, waiting }),
        Err(_) => Err(PathError::Memory),
    }
}

// Where an edge leads, and its cost; `None` if it has none.
fn step<K: Key, N: Drop, E: Drop>(
    graph: &Graph<K, N, E>,
    costs: &Costs,
    edge: EdgeKey,
) -> Option<(K, u64)>
    ensures some { IfSome result (λ step. (from : KeyOf) × IsStep graph.now.edges.live costs.now.pairs edge from (K.data_of step.0) step.1) }
    ensures none { IfNone result ((a b : KeyOf) (c : ℕ) → IsStep graph.now.edges.live costs.now.pairs edge a b c → ⊥) }
{
    let (_, to) = graph.edge_ends(edge)?;
    let cost = costs.get(edge)?;
    Some((to, *cost))
}

// Lets a node wait at this distance.
fn wait<K: Key>(
    search: &mut Search<K>,
    distance: u64,
    node: K,
    by: Option<EdgeKey>,
) -> Result<(), PathError>
    ensures settled { search.new.settled ≡ search.old.settled }
    ensures waits { OnOk result (Waits K.data_of search.old.waiting.waiting search.new.waiting.waiting (K.data_of node) distance by) }
    ensures one_more { OnOk result (length search.new.waiting.waiting ≡ length search.old.waiting.waiting + 1) }
    ensures err { IfErr result (λ error. error ≡ path_error.Memory) }
{
    match search.waiting.schedule(distance, Candidate { node, by }) {
        Ok(_) => Ok(()),
        Err(_) => Err(PathError::Memory),
    }
}

// Settles a node.
fn settle<K: Key>(search: &mut Search<K>, node: K, reached: Reached) -> Result<(), PathError>
    ensures settles { OnOk result (search.new.settled.pairs ≡ put search.old.settled.pairs (K.data_of node) reached) }
    ensures waiting { search.new.waiting ≡ search.old.waiting }
    ensures err { IfErr result (λ error. error ≡ path_error.Memory) }
{
    match search.settled.insert(node, reached) {
        Ok(_) => Ok(()),
        Err(_) => Err(PathError::Memory),
    }
}

// Lets a node wait to which an edge leads from a settled one, unless it is settled too.
fn offer<K: Key>(
    search: &mut Search<K>,
    distance: u64,
    edge: EdgeKey,
    to: K,
    cost: u64,
) -> Result<(), PathError>
    ensures settled { search.new.settled ≡ search.old.settled }
    ensures offers { OnOk result (Offers K.data_of search.old.settled.pairs search.old.waiting.waiting search.new.waiting.waiting (K.data_of to) (distance + cost) edge) }
    ensures few { OnOk result (length search.new.waiting.waiting ≤ length search.old.waiting.waiting + 1) }
    ensures err { IfErr result (λ error. error ≡ path_error.TooLong → 2 ^ 64 ≤ distance + cost) }
{
    if search.settled.contains_key(to) {
        return Ok(());
    }
    if cost > u64::MAX - distance {
        return Err(PathError::TooLong);
    }
    wait(search, distance + cost, to, Some(edge))
}

// Lets the node wait to which an edge leads, if the edge has a cost and that node isn't settled.
fn follow<K: Key, N: Drop, E: Drop>(
    graph: &Graph<K, N, E>,
    costs: &Costs,
    search: &mut Search<K>,
    distance: u64,
    edge: EdgeKey,
) -> Result<(), PathError>
    ensures settled { search.new.settled ≡ search.old.settled }
    ensures follows { OnOk result (FollowsEdge K.data_of graph.now.edges.live costs.now.pairs search.old.settled.pairs search.old.waiting.waiting search.new.waiting.waiting distance edge) }
    ensures few { OnOk result (length search.new.waiting.waiting ≤ length search.old.waiting.waiting + 1) }
    ensures err { IfErr result (λ error. error ≡ path_error.TooLong → GoesBeyond graph.now.edges.live costs.now.pairs distance edge) }
{
    match step(graph, costs, edge) {
        Some(end) => offer(search, distance, edge, end.0, end.1),
        None => Ok(()),
    }
}

// Follows the edges of a node that was settled last, at this distance.
fn follow_all<K: Key, N: Drop, E: Drop>(
    graph: &Graph<K, N, E>,
    costs: &Costs,
    search: &mut Search<K>,
    node: K,
    distance: u64,
) -> Result<(), PathError>
    ensures settled { search.new.settled ≡ search.old.settled }
    ensures searching { (start : KeyOf) → IsLatest search.old.settled.pairs (K.data_of node) distance
        → Searching K.data_of graph.now.edges.live costs.now.pairs start search.old.settled.pairs search.old.waiting.waiting (edges_at graph.now.out (K.data_of node))
        → OnOk result (Searching K.data_of graph.now.edges.live costs.now.pairs start search.new.settled.pairs search.new.waiting.waiting []) }
    ensures few { OnOk result (length search.new.waiting.waiting ≤ length search.old.waiting.waiting + length (edges_at graph.now.out (K.data_of node))) }
    ensures err { (start : KeyOf) (most : ℕ) → map.len search.old.settled.pairs ≤ most → IsLatest search.old.settled.pairs (K.data_of node) distance
        → Searching K.data_of graph.now.edges.live costs.now.pairs start search.old.settled.pairs search.old.waiting.waiting (edges_at graph.now.out (K.data_of node))
        → IfErr result (RefusesPaths graph.now.edges.live costs.now.pairs most start) }
{
    for edge in graph.edges_from(node) {
        follow(graph, costs, search, distance, edge)?;
    }
    Ok(())
}

// Settles the node of the candidate that was taken out, unless it is settled, and follows its edges.
fn visit<K: Key, N: Drop, E: Drop>(
    graph: &Graph<K, N, E>,
    costs: &Costs,
    search: &mut Search<K>,
    distance: u64,
    next: Candidate<K>,
) -> Result<(), PathError>
    ensures searching { (start : KeyOf) → Visiting K.data_of graph.now costs.now.pairs start search.old.settled.pairs search.old.waiting.waiting distance next
        → OnOk result (Searching K.data_of graph.now.edges.live costs.now.pairs start search.new.settled.pairs search.new.waiting.waiting []) }
    ensures less { (start : KeyOf) → Visiting K.data_of graph.now costs.now.pairs start search.old.settled.pairs search.old.waiting.waiting distance next
        → OnOk result (to_do graph.now search.new.settled.pairs search.new.waiting.waiting ≤ to_do graph.now search.old.settled.pairs search.old.waiting.waiting) }
    ensures err { (start : KeyOf) → Visiting K.data_of graph.now costs.now.pairs start search.old.settled.pairs search.old.waiting.waiting distance next
        → IfErr result (RefusesPaths graph.now.edges.live costs.now.pairs (map.len graph.now.nodes.live) start) }
{
    let Candidate { node, by } = next;
    if search.settled.contains_key(node) {
        return Ok(());
    }
    settle(search, node, Reached { distance, by })?;
    follow_all(graph, costs, search, node, distance)
}

// Settles each node to which a path leads from a node, the nearest one first.
pub(crate) fn search_from<K: Key, N: Drop, E: Drop>(
    graph: &Graph<K, N, E>,
    costs: &Costs,
    from: K,
    search: &mut Search<K>,
) -> Result<(), PathError>
    requires settled { search.old.settled.pairs ≡ map.empty }
    requires waiting { search.old.waiting.waiting ≡ [] }
    ensures found { OnOk result (FindsPaths graph.now.nodes graph.now.edges.live costs.now.pairs (K.data_of from) search.new.settled.pairs) }
    ensures err { IfErr result (RefusesPaths graph.now.edges.live costs.now.pairs (map.len graph.now.nodes.live) (K.data_of from)) }
{
    if !graph.contains_node(from) {
        return Ok(());
    }
    // by the contracts of these calls, the graph is well formed
    let _ = graph.node_count();
    let _ = graph.node_capacity();
    wait(search, 0, from, None)?;
    while let Some((distance, _, next)) = search.waiting.pop_next() {
        visit(graph, costs, search, distance, next)?;
    }
    Ok(())
}
