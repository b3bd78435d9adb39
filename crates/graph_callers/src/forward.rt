//! A graph that stays without cycles.

ghost use Rattle.std.specs.Prelude.{◌≡◌, IfOk, IsSome, None};
ghost use Rattle.slotmap_graph.specs.Search.{Leads};
ghost use Rattle.slotmap_graph.specs.TopologicalOrder.{HasCycle};

use slotmap::NodeKey;
use slotmap_graph::{EdgeError, EdgeKey, Graph};
use std::alloc::Global;

/// Adds an edge, or returns `None` if a path leads back from its end to its start.
pub fn add_forward(
    graph: &mut Graph<NodeKey, u64, u64>,
    alloc: Global,
    from: NodeKey,
    to: NodeKey,
    length: u64,
) -> Result<Option<EdgeKey>, EdgeError<u64>>
    ensures forward { IfOk result (λ edge. IsSome edge → Leads graph.old.edges.live to from → ⊥) }
    ensures acyclic { (HasCycle graph.old.edges.live → ⊥) → HasCycle graph.new.edges.live → ⊥ }
    ensures refused { IfOk result (λ edge. edge ≡ None → Leads graph.old.edges.live to from) }
    ensures unchanged { IfOk result (λ edge. edge ≡ None → graph.new ≡ graph.old) }
    ensures nodes { graph.new.nodes ≡ graph.old.nodes }
{
    let Ok(below) = graph.reachable(alloc, to) else {
        return Err(EdgeError::Memory(length));
    };
    if below.contains(&from) {
        return Ok(None);
    }
    let edge = graph.add_edge(from, to, length)?;
    Ok(Some(edge))
}
