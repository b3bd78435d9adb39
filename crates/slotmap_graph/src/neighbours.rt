//! The iterator over the neighbours of a node.

ghost use Rattle.std.specs.Prelude.{◌≡◌};
ghost use Rattle.std.specs.Iterator.{YieldsFirstBy, item_count};
ghost use Rattle.std.specs.List.{All};
ghost use Rattle.slotmap.specs.Words.{Key as KeyOf, IsLive};
ghost use Rattle.slotmap_graph.specs.Parts.{SeenEdge, edges_at, from, to};
ghost use Rattle.slotmap_graph.specs.Search.{ends_along};
ghost use Rattle.slotmap_graph.specs.Threads.{IsThreaded, by_node, far_end};

use crate::Graph;
use crate::iter::owner_of;
use crate::lists::{Direction, Edges};
use slotmap::Key;
use slotmap_bounded::{BoundedMap, outer};
use slotmap_links::{Links, Members};
use std::iter::FusedIterator;
use std::marker::{Model, PhantomData};

/// An iterator over the neighbours of a node, one for each of its outgoing edges or of its incoming
/// ones: see [`Graph::neighbours_from`] and [`Graph::neighbours_to`].
///
/// A contract sees it as the list of the keys that it will still yield. After its end it yields
/// nothing. Each step takes constant time, and none needs memory.
#[derive(Drop)]
pub struct Neighbours<'a, K, E> {
    edges: &'a Edges<E>,
    direction: Direction,
    members: Members<'a>,
    key_type: PhantomData<K>,
}

impl<'a, K, E> Model for Neighbours<'a, K, E> {
    ghost use Rattle.std.specs.Prelude.{List};
    ghost use Rattle.slotmap.specs.Words.{Key};

    ghost Value = { List Key };

    ghost use Rattle.slotmap_graph.specs.Search.{ends_along};
    ghost use Rattle.slotmap_graph.specs.Threads.{far_end};
    ghost use Rattle.slotmap_bounded.specs.Indices.{AreIndices, HaveIndices, keys_at};

    ghost view = { λ it. ends_along (far_end it.direction) it.edges.now.live (keys_at it.edges.now.live it.members) };

    ghost invariant = { λ it. HaveIndices it.edges.now × AreIndices it.edges.now it.members };
}

impl<'a, K: Key, E: Drop> Iterator for Neighbours<'a, K, E> {
    type Item = K;

    ghost next_gives = { YieldsFirstBy K.data_of (λ rest. rest) };

    ghost remaining = { item_count (λ rest. rest) };

    fn next(&mut self) -> Option<K> {
        let index = self.members.next()?;
        let key = self.edges.live_key(index);
        Some(outer(self.edges.value(key).far_end(self.direction)))
    }

    fn size_hint(&self) -> (usize, Option<usize>) {
        (0, Some(self.members.len()))
    }
}

impl<'a, K: Key, E: Drop> FusedIterator for Neighbours<'a, K, E> {}

impl<K: Key, N: Drop, E: Drop> Graph<K, N, E> {
    /// Returns an iterator over the nodes where this node's outgoing edges end, one for each edge, in the
    /// order of [`Graph::edges_from`].
    ///
    /// Constant time. It needs no memory. A node that doesn't exist has none. Each node that it yields
    /// exists, so `graph[node]` reads its value.
    ///
    /// ```
    /// let mut graph: Graph<NodeKey, &str, u64> = Graph::new(alloc)?;
    /// let a = graph.add_node("a")?;
    /// let b = graph.add_node("b")?;
    /// graph.add_edge(a, b, 5)?;
    /// let mut nodes = graph.neighbours_from(a);
    /// assert_eq!(rt; nodes.next(), Some(b));
    /// assert_eq!(rt; nodes.next(), None);
    /// for next in graph.neighbours_from(a) {
    ///     assert_eq!(rt; graph[next], "b");
    /// }
    /// ```
    pub fn neighbours_from(&self, node: K) -> Neighbours<'_, K, E>
        ensures in_order { result ≡ ends_along to self.now.edges.live (edges_at self.now.out (K.data_of node)) }
        ensures live { All (IsLive self.now.nodes) result }
    {
        neighbours_of(Direction::Out, &self.nodes, &self.edges, &self.out, node)
    }

    /// Returns an iterator over the nodes where this node's incoming edges begin, one for each edge, in
    /// the order of [`Graph::edges_to`].
    ///
    /// Constant time. It needs no memory. A node that doesn't exist has none. Each node that it yields
    /// exists, so `graph[node]` reads its value.
    ///
    /// ```
    /// let mut graph: Graph<NodeKey, &str, u64> = Graph::new(alloc)?;
    /// let a = graph.add_node("a")?;
    /// let b = graph.add_node("b")?;
    /// graph.add_edge(a, b, 5)?;
    /// let mut nodes = graph.neighbours_to(b);
    /// assert_eq!(rt; nodes.next(), Some(a));
    /// assert_eq!(rt; nodes.next(), None);
    /// ```
    pub fn neighbours_to(&self, node: K) -> Neighbours<'_, K, E>
        ensures in_order { result ≡ ends_along from self.now.edges.live (edges_at self.now.into (K.data_of node)) }
        ensures live { All (IsLive self.now.nodes) result }
    {
        neighbours_of(Direction::Into, &self.nodes, &self.edges, &self.into, node)
    }
}

// The neighbours of a node, by the edges in its list.
fn neighbours_of<'a, K: Key, N: Drop, E: Drop>(
    direction: Direction,
    nodes: &BoundedMap<K, N>,
    edges: &'a Edges<E>,
    links: &'a Links,
    node: K,
) -> Neighbours<'a, K, E>
    requires { (end : SeenEdge E → KeyOf) × IsThreaded end nodes.now edges.now links.now }
    ensures { result ≡ ends_along (far_end direction) edges.now.live (edges_at (by_node nodes.now.live edges.now.live links.now) (K.data_of node)) }
{
    Neighbours {
        edges,
        direction,
        members: links.iter(owner_of(nodes, node)),
        key_type: PhantomData,
    }
}
