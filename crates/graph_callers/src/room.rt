//! A graph with room that is emptied and takes more, which can't fail.

ghost use Rattle.std.specs.Prelude.{◌≡◌, ◌<◌, ◌≤◌, ◌+◌};
ghost use Rattle.slotmap_bounded.specs.Bounded.{space};

use slotmap::{NodeKey, ReserveError};
use slotmap_graph::Graph;
use std::alloc::Global;

// Adds a node, and an edge from it to itself.
#[tactic(auto, using(slotmap::proofs::Callers::keys))]
fn add_loop(graph: &mut Graph<NodeKey, u64, u64>)
    requires nodes { 0 < graph.old.nodes.room }
    requires edges { 0 < graph.old.edges.room }
    ensures node_room { graph.old.nodes.room ≤ graph.new.nodes.room + 1 }
    ensures edge_room { graph.old.edges.room ≤ graph.new.edges.room + 1 }
    ensures node_space { space graph.new.nodes ≡ space graph.old.nodes }
    ensures edge_space { space graph.new.edges ≡ space graph.old.edges }
{
    let Ok(node) = graph.add_node(1) else {
        unreachable!()
    };
    let Ok(_) = graph.add_edge(node, node, 2) else {
        unreachable!()
    };
}

/// Makes a graph with room for two nodes and two edges, adds a node and an edge, clears it and adds
/// both again. Only the making may fail, and the capacities stay.
pub fn refilled_graph(alloc: Global) -> Result<Graph<NodeKey, u64, u64>, ReserveError> {
    let mut graph = Graph::with_capacity_and_key(alloc, 2, 2)?;
    let nodes = graph.node_capacity();
    let edges = graph.edge_capacity();
    add_loop(&mut graph);
    graph.clear();
    add_loop(&mut graph);
    prove_eq!(graph.node_capacity(), nodes);
    prove_eq!(graph.edge_capacity(), edges);
    Ok(graph)
}
