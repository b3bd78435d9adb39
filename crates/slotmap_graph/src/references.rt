//! The iterators over edges, each with its ends and its value, and that over the nodes with their values.

ghost use Rattle.std.specs.Prelude.{◌≡◌, ◌≤◌, length, Some, IfSome};
ghost use Rattle.std.specs.Iterator.{YieldsFirstBy, item_count, at_most, UpTo};
ghost use Rattle.std.specs.List.{All};
ghost use Rattle.std.specs.FinMap as map;
ghost use Rattle.slotmap.specs.Words.{Key as KeyOf, IsLive};
ghost use Rattle.slotmap_graph.specs.Parts.{SeenEdge, edges_at};
ghost use Rattle.slotmap_graph.specs.Search.{entries_along};
ghost use Rattle.slotmap_graph.specs.Threads.{IsThreaded, by_node};

use crate::iter::owner_of;
use crate::lists::Edges;
use crate::{Edge, EdgeKey, Graph};
use slotmap::{Key, basic};
use slotmap_bounded::{BoundedMap, outer};
use slotmap_links::{Links, Members};
use std::iter::FusedIterator;
use std::marker::{Model, PhantomData};

/// An iterator over all edges: the key of each, the nodes where it begins and ends, and its value. See
/// [`Graph::edge_references`].
///
/// A contract sees it as the list of what it will still yield. After its end it yields nothing.
#[derive(Drop)]
pub struct EdgeReferences<'a, K, E> {
    edges: basic::Iter<'a, EdgeKey, Edge<E>>,
    key_type: PhantomData<K>,
}

impl<'a, K, E> Model for EdgeReferences<'a, K, E> {
    ghost use Rattle.std.specs.Prelude.{List};
    ghost use Rattle.slotmap.specs.Words.{Key};
    ghost use Rattle.slotmap_graph.specs.Parts.{SeenEdge};

    ghost Value = { List (Key × SeenEdge E) };

    ghost view = { λ it. it.edges };
}

impl<'a, K: Key, E: Drop> Iterator for EdgeReferences<'a, K, E> {
    type Item = (EdgeKey, K, K, &'a E);

    ghost next_gives = { YieldsFirstBy (λ item. (item.0, record { from = K.data_of item.1; to = K.data_of item.2; value = item.3.now })) (λ rest. rest) };

    ghost remaining = { item_count (λ rest. rest) };

    fn next(&mut self) -> Option<(EdgeKey, K, K, &'a E)> {
        match self.edges.next() {
            Some((key, edge)) => {
                let (from, to) = edge.ends();
                Some((key, outer(from), outer(to), edge.value()))
            }
            None => None,
        }
    }

    fn size_hint(&self) -> (usize, Option<usize>)
        ensures lower { result.0 ≤ length self.now }
        ensures upper { IfSome result.1 (UpTo (at_most (length self.now))) }
        ensures exact { result ≡ (length self.now, Some (length self.now)) }
    {
        let len = self.edges.len();
        (len, Some(len))
    }
}

impl<'a, K: Key, E: Drop> ExactSizeIterator for EdgeReferences<'a, K, E> {
    fn len(&self) -> usize {
        self.edges.len()
    }
}

impl<'a, K: Key, E: Drop> FusedIterator for EdgeReferences<'a, K, E> {}

/// An iterator over the edges from a node or to it: the key of each, the nodes where it begins and ends,
/// and its value. See [`Graph::edge_references_from`] and [`Graph::edge_references_to`].
///
/// A contract sees it as the list of what it will still yield. After its end it yields nothing.
#[derive(Drop)]
pub struct EdgeReferencesAt<'a, K, E> {
    edges: &'a Edges<E>,
    members: Members<'a>,
    key_type: PhantomData<K>,
}

impl<'a, K, E> Model for EdgeReferencesAt<'a, K, E> {
    ghost use Rattle.std.specs.Prelude.{List};
    ghost use Rattle.slotmap.specs.Words.{Key};
    ghost use Rattle.slotmap_graph.specs.Parts.{SeenEdge};

    ghost Value = { List (Key × SeenEdge E) };

    ghost use Rattle.slotmap_graph.specs.Search.{entries_along};
    ghost use Rattle.slotmap_bounded.specs.Indices.{AreIndices, HaveIndices, keys_at};

    ghost view = { λ it. entries_along it.edges.now.live (keys_at it.edges.now.live it.members) };

    ghost invariant = { λ it. HaveIndices it.edges.now × AreIndices it.edges.now it.members };
}

impl<'a, K: Key, E: Drop> Iterator for EdgeReferencesAt<'a, K, E> {
    type Item = (EdgeKey, K, K, &'a E);

    ghost next_gives = { YieldsFirstBy (λ item. (item.0, record { from = K.data_of item.1; to = K.data_of item.2; value = item.3.now })) (λ rest. rest) };

    ghost remaining = { item_count (λ rest. rest) };

    fn next(&mut self) -> Option<(EdgeKey, K, K, &'a E)> {
        let index = self.members.next()?;
        let key = self.edges.live_key(index);
        let edge = self.edges.value(key);
        let (from, to) = edge.ends();
        let value = edge.value();
        Some((key, outer(from), outer(to), value))
    }

    fn size_hint(&self) -> (usize, Option<usize>)
        ensures lower { result.0 ≤ length self.now }
        ensures upper { IfSome result.1 (UpTo (at_most (length self.now))) }
        ensures exact { result ≡ (length self.now, Some (length self.now)) }
    {
        let len = self.len();
        (len, Some(len))
    }
}

impl<'a, K: Key, E: Drop> ExactSizeIterator for EdgeReferencesAt<'a, K, E> {
    fn len(&self) -> usize {
        self.members.len()
    }
}

impl<'a, K: Key, E: Drop> FusedIterator for EdgeReferencesAt<'a, K, E> {}

impl<K: Key, N: Drop, E: Drop> Graph<K, N, E> {
    /// Returns an iterator over the edges by ascending index: the key of each, the nodes where it begins
    /// and ends, and its value.
    ///
    /// It is made in constant time. All its steps together read each slot of the edges once. Both nodes
    /// of each edge exist, so `graph[from]` and `graph[to]` read their values.
    ///
    /// ```
    /// let mut graph: Graph<NodeKey, &str, u64> = Graph::new(alloc)?;
    /// let a = graph.add_node("a")?;
    /// let b = graph.add_node("b")?;
    /// let edge = graph.add_edge(a, b, 5)?;
    /// let mut edges = graph.edge_references();
    /// assert_eq!(rt; edges.next(), Some((edge, a, b, &5)));
    /// assert!(rt; edges.next().is_none());
    /// ```
    pub fn edge_references(&self) -> EdgeReferences<'_, K, E>
        ensures entries { result ≡ map.entries self.now.edges.live }
        ensures live { All (λ e. IsLive self.now.nodes e.1.from × IsLive self.now.nodes e.1.to) result }
        ensures only { All (λ e. map.get self.now.edges.live e.0 ≡ Some e.1) result }
    {
        EdgeReferences {
            edges: self.edges.iter(),
            key_type: PhantomData,
        }
    }

    /// Returns an iterator over a node's outgoing edges, in the order of [`Graph::edges_from`]: the key of
    /// each, the nodes where it begins and ends, and its value.
    ///
    /// Constant time. A step looks up one edge. A node that doesn't exist has none. Both nodes of each
    /// edge exist.
    ///
    /// ```
    /// let mut graph: Graph<NodeKey, &str, u64> = Graph::new(alloc)?;
    /// let a = graph.add_node("a")?;
    /// let b = graph.add_node("b")?;
    /// let edge = graph.add_edge(a, b, 5)?;
    /// let mut edges = graph.edge_references_from(a);
    /// assert_eq!(rt; edges.next(), Some((edge, a, b, &5)));
    /// assert!(rt; edges.next().is_none());
    /// ```
    pub fn edge_references_from(&self, node: K) -> EdgeReferencesAt<'_, K, E>
        ensures in_order { result ≡ entries_along self.now.edges.live (edges_at self.now.out (K.data_of node)) }
        ensures live { All (λ e. IsLive self.now.nodes e.1.from × IsLive self.now.nodes e.1.to) result }
        ensures only { All (λ e. (map.get self.now.edges.live e.0 ≡ Some e.1) × (e.1.from ≡ K.data_of node)) result }
    {
        references_of(&self.nodes, &self.edges, &self.out, node)
    }

    /// Returns an iterator over a node's incoming edges, in the order of [`Graph::edges_to`]: the key of
    /// each, the nodes where it begins and ends, and its value.
    ///
    /// Constant time. A step looks up one edge. A node that doesn't exist has none. Both nodes of each
    /// edge exist.
    ///
    /// ```
    /// let mut graph: Graph<NodeKey, &str, u64> = Graph::new(alloc)?;
    /// let a = graph.add_node("a")?;
    /// let b = graph.add_node("b")?;
    /// let edge = graph.add_edge(a, b, 5)?;
    /// let mut edges = graph.edge_references_to(b);
    /// assert_eq!(rt; edges.next(), Some((edge, a, b, &5)));
    /// assert_eq!(rt; graph.edge_references_to(a).len(), 0);
    /// ```
    pub fn edge_references_to(&self, node: K) -> EdgeReferencesAt<'_, K, E>
        ensures in_order { result ≡ entries_along self.now.edges.live (edges_at self.now.into (K.data_of node)) }
        ensures live { All (λ e. IsLive self.now.nodes e.1.from × IsLive self.now.nodes e.1.to) result }
        ensures only { All (λ e. (map.get self.now.edges.live e.0 ≡ Some e.1) × (e.1.to ≡ K.data_of node)) result }
    {
        references_of(&self.nodes, &self.edges, &self.into, node)
    }

    /// Returns an iterator over the nodes by ascending index: the key of each, and its value.
    ///
    /// It is made in constant time. All its steps together read each slot of the nodes once.
    ///
    /// ```
    /// let mut graph: Graph<NodeKey, &str, u64> = Graph::new(alloc)?;
    /// let a = graph.add_node("a")?;
    /// let mut nodes = graph.node_references();
    /// assert_eq!(rt; nodes.next(), Some((a, &"a")));
    /// assert_eq!(rt; nodes.next(), None);
    /// ```
    pub fn node_references(&self) -> basic::Iter<'_, K, N>
        ensures { result ≡ map.entries self.now.nodes.live }
    {
        self.nodes.iter()
    }
}

// The edges in the list of a node, each with its ends and its value.
fn references_of<'a, K: Key, N: Drop, E: Drop>(
    nodes: &BoundedMap<K, N>,
    edges: &'a Edges<E>,
    links: &'a Links,
    node: K,
) -> EdgeReferencesAt<'a, K, E>
    requires { (end : SeenEdge E → KeyOf) × IsThreaded end nodes.now edges.now links.now }
    ensures { result ≡ entries_along edges.now.live (edges_at (by_node nodes.now.live edges.now.live links.now) (K.data_of node)) }
{
    EdgeReferencesAt {
        edges,
        members: links.iter(owner_of(nodes, node)),
        key_type: PhantomData,
    }
}
