//! Guards of graphs: what a user relies on, in other words than the contract of a call, and proved from that one alone.
//!
//! The comment of a clause names what it needs of the contract, and the wrong bodies that it refuses.

ghost use Rattle.std.specs.FinMap as map;
ghost use Rattle.std.specs.Prelude.{◌≡◌, ◌<◌, ◌≤◌, ◌⊎◌, ◌++◌, ◌∷◌, [], Some, Err, IfOk, IfSome, IfNone, cond};
ghost use Rattle.slotmap.specs.Words.{Key as KeyOf, IsCloneOf, used, most};
ghost use Rattle.slotmap_bounded.specs.KeyLists.{is_key};
ghost use Rattle.slotmap_graph.specs.Parts.{clones_edge, edges_at};
ghost use Rattle.slotmap_graph.specs.TopologicalOrder.{ClosesCycle};

use slotmap::{InsertError, Key, ReserveError};
use slotmap_graph::{
    EdgeError, EdgeKey, EdgeReferences, EdgeReferencesAt, EdgesAt, Graph, Neighbours, OrderError,
};
use std::alloc::{AllocError, Global};

/// Guards of `with_capacity_and_key`.
pub fn with_capacity_and_key<K: Key, N: Drop, E: Drop>(
    alloc: Global,
    nodes: usize,
    edges: usize,
) -> Result<Graph<K, N, E>, ReserveError>
    // It fails with `TooGreat` exactly above the limit of the nodes or of the edges.
    // Refuses `with_capacity_and_key_tells_too_many_edges_as_memory`: `err` of `with_capacity_and_key`.
    ensures with_capacity_is_too_great_above_a_limit { result ≡ Err ReserveError.TooGreat → (most < nodes) ⊎ (most < edges) }
    ensures with_capacity_lacks_memory_within_the_limits { result ≡ Err ReserveError.Memory → (nodes ≤ most) × (edges ≤ most) }
{
    Graph::with_capacity_and_key(alloc, nodes, edges)
}

/// Guards of `add_node`.
pub fn add_node<K: Key, N: Drop, E: Drop>(
    graph: &mut Graph<K, N, E>,
    node: N,
) -> Result<K, InsertError<N>>
    // It fails with `Full` exactly at the limit, and with `Memory` only below it, where no room was
    // promised. The error holds the value.
    // Refuses `add_node_reserves_more`: `err` of `add_node`.
    ensures add_node_says_why_it_fails_full { (back : N) → result ≡ Err (InsertError.Full back) → (used graph.old.nodes ≡ most) × (back ≡ node) }
    ensures add_node_says_why_it_fails_memory { (back : N) → result ≡ Err (InsertError.Memory back) → (used graph.old.nodes < most) × (graph.old.nodes.room ≡ 0) × (back ≡ node) }
{
    graph.add_node(node)
}

/// Guards of `add_edge`.
pub fn add_edge<K: Key, N: Drop, E: Drop>(
    graph: &mut Graph<K, N, E>,
    start: K,
    end: K,
    edge: E,
) -> Result<EdgeKey, EdgeError<E>>
    // The edge is behind the others from its first node.
    // Refuses `put_last_puts_first`: `out` of `add_edge`.
    ensures added_edge_is_the_last_from_its_start { IfOk result (λ key. (k : KeyOf) → edges_at graph.new.out k
        ≡ cond (is_key k (K.data_of start)) (edges_at graph.old.out k ++ key ∷ []) (edges_at graph.old.out k)) }
    // The edge is behind the others to its second node.
    // Refuses `add_edge_links_the_wrong_end`: `into` of `add_edge`.
    ensures added_edge_is_the_last_to_its_end { IfOk result (λ key. (k : KeyOf) → edges_at graph.new.into k
        ≡ cond (is_key k (K.data_of end)) (edges_at graph.old.into k ++ key ∷ []) (edges_at graph.old.into k)) }
    // It fails with `Full` exactly at the limit, and with `Memory` only below it, where no room was
    // promised.
    // Refuses `add_edge_tells_memory_as_full`, `add_edge_reserves_more`: `err` of `add_edge`.
    ensures add_edge_says_why_it_fails_full { (back : E) → result ≡ Err (EdgeError.Full back) → used graph.old.edges ≡ most }
    ensures add_edge_says_why_it_fails_memory { (back : E) → result ≡ Err (EdgeError.Memory back) → (used graph.old.edges < most) × (graph.old.edges.room ≡ 0) }
{
    graph.add_edge(start, end, edge)
}

/// Guards of `clone`.
pub fn clone<K: Key, N: Clone, E: Clone>(
    graph: &Graph<K, N, E>,
) -> Result<Graph<K, N, E>, AllocError>
    // Each edge of a copy joins the same nodes, and has a clone of the value.
    // Refuses `clone_exchanges_the_ends`: `edges` of `clone`.
    ensures copied_edges_join_the_same_nodes { IfOk result (λ copy. (key : KeyOf) → IsCloneOf (clones_edge E.is_clone) (map.get graph.now.edges.live key) (map.get copy.edges.live key)) }
{
    graph.clone()
}

/// Guards of `topological_order`.
pub fn topological_order<K: Key, N: Drop, E: Drop>(
    graph: &Graph<K, N, E>,
    alloc: Global,
) -> Result<Vec<K>, OrderError>
    // The edge in the error closes a cycle.
    // Refuses `closing_edge_returns_the_first`: `err` of `topological_order`.
    ensures refused_order_shows_a_cycle { (edge : KeyOf) → result ≡ Err (OrderError.Cycle edge) → ClosesCycle graph.now.edges.live edge }
{
    graph.topological_order(alloc)
}

/// Guards of `edge` of `OrderError`.
pub fn error_edge(error: &OrderError) -> Option<EdgeKey>
    // The error of a cycle has its edge.
    // Refuses `edge_of_an_error_is_none`: `ensures` of `edge` of `OrderError`.
    ensures error_of_a_cycle_has_its_edge { (edge : KeyOf) → error.now ≡ OrderError.Cycle edge → result ≡ Some edge }
{
    error.edge()
}

/// Guards of `next` of `EdgesAt`.
pub fn edges_at_next<'a, E: Drop>(edges: &mut EdgesAt<'a, E>) -> Option<EdgeKey>
    // The first edge that is left is yielded, and then the others are left.
    // Refuses `next_goes_backwards`: `next_gives` of `EdgesAt`.
    ensures edges_at_yields_its_first { IfSome result (λ edge. edges.old ≡ edge ∷ edges.new) }
    ensures edges_at_ends_where_none_is_left { IfNone result (edges.old ≡ []) }
{
    edges.next()
}

/// Guards of `next` of `Neighbours`.
pub fn neighbours_next<'a, K: Key, E: Drop>(nodes: &mut Neighbours<'a, K, E>) -> Option<K>
    // The first node that is left is yielded, and then the others are left.
    // Refuses `far_end_returns_the_near_end`: `next_gives` of `Neighbours`.
    ensures neighbours_yields_its_first { IfSome result (λ node. nodes.old ≡ K.data_of node ∷ nodes.new) }
    ensures neighbours_ends_where_none_is_left { IfNone result (nodes.old ≡ []) }
{
    nodes.next()
}

/// Guards of `next` of `EdgeReferences`.
pub fn edge_references_next<'a, K: Key, E: Drop>(
    edges: &mut EdgeReferences<'a, K, E>,
) -> Option<(EdgeKey, K, K, &'a E)>
    // The first edge that is left is yielded with its start, its end and its value, in this order.
    // Refuses `edge_references_exchanges_the_ends`: `next_gives` of `EdgeReferences`.
    ensures edge_references_yields_its_first { IfSome result (λ item. edges.old ≡ (item.0, record { from = K.data_of item.1; to = K.data_of item.2; value = item.3.now }) ∷ edges.new) }
{
    edges.next()
}

/// Guards of `next` of `EdgeReferencesAt`.
pub fn edge_references_at_next<'a, K: Key, E: Drop>(
    edges: &mut EdgeReferencesAt<'a, K, E>,
) -> Option<(EdgeKey, K, K, &'a E)>
    // The first edge at the node that is left is yielded with its start, its end and its value, in this order.
    // Refuses `edge_references_from_exchanges_the_ends`: `next_gives` of `EdgeReferencesAt`.
    ensures edge_references_at_yields_its_first { IfSome result (λ item. edges.old ≡ (item.0, record { from = K.data_of item.1; to = K.data_of item.2; value = item.3.now }) ∷ edges.new) }
{
    edges.next()
}
