//! A loop that writes each node of a graph on its way, and needs no memory.

ghost use Rattle.std.specs.Prelude.{◌≡◌, ◌≢◌, Some};
ghost use Rattle.std.specs.FinMap as map;
ghost use Rattle.slotmap.specs.Words.{Key as KeyOf, IsLive};

use slotmap::Key;
use slotmap_graph::Graph;

// Gives one node a colour, if it exists.
#[tactic(auto, using(slotmap::proofs::Callers::keys))]
fn paint<K: Key, E: Drop>(graph: &mut Graph<K, u64, E>, node: K, colour: u64)
    ensures here { IsLive graph.old.nodes (K.data_of node) → map.get graph.new.nodes.live (K.data_of node) ≡ Some colour }
    ensures others { (k : KeyOf) → k ≢ K.data_of node → map.get graph.new.nodes.live k ≡ map.get graph.old.nodes.live k }
    ensures edges { graph.new.edges ≡ graph.old.edges }
{
    if let Some(value) = graph.node_mut(node) {
        *value = colour;
    }
}

/// Gives each node a colour, in place. No edge changes.
pub fn paint_all<K: Key, E: Drop>(graph: &mut Graph<K, u64, E>, colour: u64)
    ensures painted { (k : KeyOf) → IsLive graph.old.nodes k → map.get graph.new.nodes.live k ≡ Some colour }
    ensures edges { graph.new.edges ≡ graph.old.edges }
{
    let mut last = None;
    while let Some(node) = graph.next_node(last) {
        paint(graph, node, colour);
        last = Some(node);
    }
}
