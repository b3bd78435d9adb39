//! A loop that removes the edges that it goes along, and needs no memory.

ghost use Rattle.std.specs.Prelude.{◌≡◌, []};
ghost use Rattle.slotmap_graph.specs.Parts.{edges_at};

use slotmap::NodeKey;
use slotmap_graph::Graph;

/// Removes all edges that go out from a node. Each time the next edge is taken first.
pub fn cut_off(graph: &mut Graph<NodeKey, u64, u64>, node: NodeKey)
    ensures { edges_at graph.new.out node ≡ [] }
{
    let mut next = graph.first_from(node);
    while let Some(edge) = next {
        next = graph.next_from(edge);
        graph.remove_edge(edge);
    }
}
