//! A graph whose cycles are cut, nodes without edges, and sums of the values beside a node.

ghost use Rattle.std.specs.Prelude.{◌≡◌, None, IfSome, IfNone};
ghost use Rattle.std.specs.FinMap as map;
ghost use Rattle.slotmap_graph.specs.TopologicalOrder.{ClosesCycle, HasCycle};

use slotmap::NodeKey;
use slotmap_graph::{EdgeKey, Graph};
use std::alloc::Global;

/// Removes an edge that closes a cycle. It returns its key, or `None` if there is no cycle or memory
/// runs out.
pub fn cut(graph: &mut Graph<NodeKey, u64, u64>, alloc: Global) -> Option<EdgeKey>
    ensures closed { IfSome result (ClosesCycle graph.old.edges.live) }
    ensures gone { IfSome result (λ edge. map.get graph.new.edges.live edge ≡ None) }
    ensures nodes { graph.new.nodes ≡ graph.old.nodes }
    ensures unchanged { IfNone result (graph.new ≡ graph.old) }
{
    let edge = graph.topological_order(alloc).err()?.edge()?;
    graph.remove_edge(edge);
    Some(edge)
}

/// Returns how many nodes there are if they have an order in which each edge goes forward. Else it removes
/// an edge that closes a cycle, unless memory runs out.
pub fn sort(graph: &mut Graph<NodeKey, u64, u64>, alloc: Global) -> Option<usize>
    ensures count { IfSome result (λ count. count ≡ map.len graph.old.nodes.live) }
    ensures acyclic { IfSome result (λ _. HasCycle graph.old.edges.live → ⊥) }
    ensures nodes { graph.new.nodes ≡ graph.old.nodes }
{
    match graph.topological_order(alloc) {
        Ok(order) => Some(order.len()),
        Err(error) => {
            if let Some(edge) = error.edge() {
                graph.remove_edge(edge);
            }
            None
        }
    }
}

/// Takes all edges off a node, and returns how many it has then.
pub fn bare(graph: &mut Graph<NodeKey, u64, u64>, node: NodeKey) -> usize
    ensures { result ≡ 0 }
{
    graph.remove_edges_of(node);
    graph.out_degree(node) + graph.in_degree(node)
}

/// Removes all nodes, and returns how many edges lead from a key then: none.
pub fn cleared(graph: &mut Graph<NodeKey, u64, u64>, node: NodeKey) -> usize
    ensures { result ≡ 0 }
{
    graph.clear();
    graph.out_degree(node)
}

/// Adds up the values of the nodes to which a node's edges lead.
pub fn sum_next(graph: &Graph<NodeKey, u64, u64>, node: NodeKey) -> u64 {
    let mut sum: u64 = 0;
    for next in graph.neighbours_from(node) {
        sum = sum.wrapping_add(graph[next]);
    }
    sum
}

/// Adds up the length of each of a node's outgoing edges, times the value at its end.
pub fn sum_weighted(graph: &Graph<NodeKey, u64, u64>, node: NodeKey) -> u64 {
    let mut sum: u64 = 0;
    for (_, _, to, length) in graph.edge_references_from(node) {
        sum = sum.wrapping_add(length.wrapping_mul(graph[to]));
    }
    sum
}
