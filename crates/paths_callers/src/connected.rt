//! Whether each node of a graph leads to each other one.

ghost use Rattle.std.specs.Prelude.{◌↔◌, IfOk, IsTrue};
ghost use Rattle.slotmap.specs.Words.{Key as KeyOf, IsLive};
ghost use Rattle.slotmap_graph.specs.Search.{Leads};

use slotmap::NodeKey;
use slotmap_graph::Graph;
use slotmap_paths::kosaraju_scc;
use std::alloc::{AllocError, Global};

/// Returns whether each node leads to each other one. Then the graph has one strongly connected component
/// at most.
pub fn is_strongly_connected(
    alloc: Global,
    graph: &Graph<NodeKey, u64, u64>,
) -> Result<bool, AllocError>
    ensures { IfOk result (λ yes. IsTrue yes ↔ ((a b : KeyOf) → IsLive graph.now.nodes a → IsLive graph.now.nodes b → Leads graph.now.edges.live a b)) }
{
    let components = kosaraju_scc(alloc, graph)?;
    Ok(components.len() <= 1)
}
