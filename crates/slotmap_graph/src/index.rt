//! `graph[node]`.

ghost use Rattle.std.specs.Prelude.{◌≡◌, Some};
ghost use Rattle.std.specs.FinMap as map;
ghost use Rattle.slotmap.specs.Words.{IsLive};

use crate::Graph;
use slotmap::Key;
use std::ops::Index;

/// `graph[node]` is the value of a node. The caller proves that the node exists.
impl<K: Key, N: Drop, E: Drop> Index<K> for Graph<K, N, E> {
    type Output = N;

    ghost can_index = { λ graph node. IsLive graph.nodes (K.data_of node) };

    ghost index_gives = { λ graph node value. map.get graph.nodes.live (K.data_of node) ≡ Some value };

    fn index(&self, node: K) -> &N {
        self.nodes.value(node)
    }
}
