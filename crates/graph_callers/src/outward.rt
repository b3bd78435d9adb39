//! Loops along the edges of a node that change the graph on their way, and need no memory.

ghost use Rattle.std.specs.Prelude.{◌≡◌, ◌≢◌, ◌<◌, ℕ, [], Some};
ghost use Rattle.std.specs.FinMap as map;
ghost use Rattle.slotmap.specs.Words.{Key as KeyOf};
ghost use Rattle.slotmap_bounded.specs.KeyLists.{times};
ghost use Rattle.slotmap_graph.specs.Parts.{SeenEdge, edges_at};

use slotmap::NodeKey;
use slotmap_graph::{EdgeKey, Graph};

type Net = Graph<NodeKey, u64, u64>;

/// Removes each edge from a node.
pub fn cut_off(graph: &mut Net, node: NodeKey)
    ensures none { edges_at graph.new.out node ≡ [] }
    ensures nodes { graph.new.nodes ≡ graph.old.nodes }
{
    while let Some(edge) = graph.first_from(node) {
        graph.remove_edge(edge);
    }
}

// Sets the value of an edge, if it exists.
fn set(graph: &mut Net, edge: EdgeKey, value: u64)
    ensures set { (e : SeenEdge ℕ) → map.get graph.new.edges.live edge ≡ Some e → e.value ≡ value }
    ensures others { (q : KeyOf) → q ≢ edge → map.get graph.new.edges.live q ≡ map.get graph.old.edges.live q }
    ensures out { graph.new.out ≡ graph.old.out }
    ensures nodes { graph.new.nodes ≡ graph.old.nodes }
{
    if let Some(place) = graph.edge_mut(edge) {
        *place = value;
    }
}

/// Sets the value of each edge from a node to 0. No edge comes or goes.
pub fn reset(graph: &mut Net, node: NodeKey)
    ensures reset { (k : KeyOf) (e : SeenEdge ℕ) → 0 < times k (edges_at graph.old.out node) → map.get graph.new.edges.live k ≡ Some e → e.value ≡ 0 }
    ensures out { graph.new.out ≡ graph.old.out }
    ensures nodes { graph.new.nodes ≡ graph.old.nodes }
{
    let mut next = graph.first_from(node);
    while let Some(edge) = next {
        set(graph, edge, 0);
        next = graph.next_from(edge);
    }
}
