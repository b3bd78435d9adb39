//! The calls that look at nodes and edges.

ghost use Rattle.std.specs.Prelude.{◌≡◌, Some, None, IfSome, length, option_copied, option_map};
ghost use Rattle.std.specs.FinMap as map;
ghost use Rattle.std.specs.Borrow.{sem};
ghost use Rattle.std.specs.Option.{option_copied_mut};
ghost use Rattle.slotmap.specs.Words.{IsLive};
ghost use Rattle.slotmap_graph.specs.Parts.{ListsEdges, both, edges_at, ends, from, to, value};

use crate::iter::edges_of;
use crate::{EdgeKey, EdgesAt, Graph};
use slotmap::Key;
use slotmap_bounded::outer;

impl<K: Key, N: Drop, E: Drop> Graph<K, N, E> {
    ghost use Rattle.slotmap_graph.specs.Lends.{lends_node, lends_edge};

    /// Returns the value of a node, or `None` if the node doesn't exist, in constant time.
    ///
    /// ```
    /// let mut graph: Graph<NodeKey, &str, u64> = Graph::new(alloc)?;
    /// let a = graph.add_node("a")?;
    /// assert_eq!(rt; graph.node(a), Some(&"a"));
    /// graph.remove_node(a);
    /// assert_eq!(rt; graph.node(a), None);
    /// ```
    pub fn node(&self, node: K) -> Option<&N>
        ensures { option_copied result ≡ map.get self.now.nodes.live (K.data_of node) }
    {
        self.nodes.get(node)
    }

    /// Returns a mutable reference to the value of a node, or `None` if the node doesn't exist, in
    /// constant time.
    ///
    /// ```
    /// let mut graph: Graph<NodeKey, u64, u64> = Graph::new(alloc)?;
    /// let a = graph.add_node(1)?;
    /// if let Some(value) = graph.node_mut(a) {
    ///     *value = 2;
    /// }
    /// assert_eq!(rt; graph.node(a), Some(&2));
    /// ```
    pub fn node_mut(&mut self, node: K) -> Option<&mut N>
        ensures* writes_back { sem 𝓛 (lends_node K.row N.row E.row self.entry (K.data_of node) result) }
        ensures value { option_copied_mut result ≡ map.get self.old.nodes.live (K.data_of node) }
    {
        match self.nodes.get_mut(node) {
            Some(value) => Some(value),
            None => None,
        }
    }

    /// Returns the value of an edge, or `None` if the edge doesn't exist, in constant time.
    ///
    /// ```
    /// let mut graph: Graph<NodeKey, &str, u64> = Graph::new(alloc)?;
    /// let a = graph.add_node("a")?;
    /// let edge = graph.add_edge(a, a, 5)?;
    /// assert_eq!(rt; graph.edge(edge), Some(&5));
    /// graph.remove_edge(edge);
    /// assert_eq!(rt; graph.edge(edge), None);
    /// ```
    pub fn edge(&self, edge: EdgeKey) -> Option<&E>
        ensures { option_copied result ≡ option_map value (map.get self.now.edges.live edge) }
    {
        Some(self.edges.get(edge)?.value())
    }

    /// Returns a mutable reference to the value of an edge, or `None` if the edge doesn't exist, in
    /// constant time.
    ///
    /// ```
    /// let mut graph: Graph<NodeKey, u64, u64> = Graph::new(alloc)?;
    /// let a = graph.add_node(1)?;
    /// let edge = graph.add_edge(a, a, 5)?;
    /// if let Some(value) = graph.edge_mut(edge) {
    ///     *value = 6;
    /// }
    /// assert_eq!(rt; graph.edge(edge), Some(&6));
    /// ```
    pub fn edge_mut(&mut self, edge: EdgeKey) -> Option<&mut E>
        ensures* writes_back { sem 𝓛 (lends_edge K.row N.row E.row self.entry edge result) }
        ensures value { option_copied_mut result ≡ option_map value (map.get self.old.edges.live edge) }
    {
        match self.edges.get_mut(edge) {
            Some(edge) => Some(edge.value_mut()),
            None => None,
        }
    }

    /// Returns the nodes where an edge begins and ends, or `None` if the edge doesn't exist, in
    /// constant time. Both nodes exist. If the compiler inlines this call, a look-up of one of them
    /// right after it needs no test.
    ///
    /// ```
    /// let mut graph: Graph<NodeKey, &str, u64> = Graph::new(alloc)?;
    /// let a = graph.add_node("a")?;
    /// let b = graph.add_node("b")?;
    /// let edge = graph.add_edge(a, b, 5)?;
    /// assert_eq!(rt; graph.edge_ends(edge), Some((a, b)));
    /// ```
    pub fn edge_ends(&self, edge: EdgeKey) -> Option<(K, K)>
        ensures ends { option_map (both K.data_of) result ≡ option_map ends (map.get self.now.edges.live edge) }
        ensures live { IfSome result (λ ends. IsLive self.now.nodes (K.data_of ends.0) × IsLive self.now.nodes (K.data_of ends.1)) }
    {
        let (from, to) = self.edges.get(edge)?.ends();
        let from = outer(from);
        let to = outer(to);
        self.nodes.note_live(from);
        self.nodes.note_live(to);
        Some((from, to))
    }

    /// Returns an iterator over the keys of a node's outgoing edges, each once, in the order in which
    /// they were added.
    ///
    /// Constant time. A node that doesn't exist has none.
    ///
    /// ```
    /// let mut graph: Graph<NodeKey, &str, u64> = Graph::new(alloc)?;
    /// let a = graph.add_node("a")?;
    /// let first = graph.add_edge(a, a, 5)?;
    /// let second = graph.add_edge(a, a, 6)?;
    /// let mut edges = graph.edges_from(a);
    /// assert_eq!(rt; edges.next(), Some(first));
    /// assert_eq!(rt; edges.next(), Some(second));
    /// assert_eq!(rt; edges.next(), None);
    /// ```
    pub fn edges_from(&self, node: K) -> EdgesAt<'_, E>
        ensures in_order { result ≡ edges_at self.now.out (K.data_of node) }
        ensures listed { ListsEdges from self.now.edges.live (K.data_of node) result }
    {
        edges_of(&self.nodes, &self.edges, &self.out, node)
    }

    /// Returns an iterator over the keys of a node's incoming edges, each once, in the order in which
    /// they were added.
    ///
    /// Constant time. A node that doesn't exist has none.
    ///
    /// ```
    /// let mut graph: Graph<NodeKey, &str, u64> = Graph::new(alloc)?;
    /// let a = graph.add_node("a")?;
    /// let b = graph.add_node("b")?;
    /// let edge = graph.add_edge(a, b, 5)?;
    /// assert_eq!(rt; graph.edges_to(b).next(), Some(edge));
    /// assert_eq!(rt; graph.edges_to(a).len(), 0);
    /// ```
    pub fn edges_to(&self, node: K) -> EdgesAt<'_, E>
        ensures in_order { result ≡ edges_at self.now.into (K.data_of node) }
        ensures listed { ListsEdges to self.now.edges.live (K.data_of node) result }
    {
        edges_of(&self.nodes, &self.edges, &self.into, node)
    }

    /// Returns how many edges go out of a node, in constant time: 0 if the node doesn't exist.
    ///
    /// ```
    /// let mut graph: Graph<NodeKey, &str, u64> = Graph::new(alloc)?;
    /// let a = graph.add_node("a")?;
    /// let b = graph.add_node("b")?;
    /// graph.add_edge(a, b, 5)?;
    /// assert_eq!(rt; graph.out_degree(a), 1);
    /// assert_eq!(rt; graph.out_degree(b), 0);
    /// ```
    pub fn out_degree(&self, node: K) -> usize
        ensures { result ≡ length (edges_at self.now.out (K.data_of node)) }
    {
        self.edges_from(node).len()
    }

    /// Returns how many edges come into a node, in constant time: 0 if the node doesn't exist.
    ///
    /// ```
    /// let mut graph: Graph<NodeKey, &str, u64> = Graph::new(alloc)?;
    /// let a = graph.add_node("a")?;
    /// let b = graph.add_node("b")?;
    /// graph.add_edge(a, b, 5)?;
    /// assert_eq!(rt; graph.in_degree(b), 1);
    /// assert_eq!(rt; graph.in_degree(a), 0);
    /// ```
    pub fn in_degree(&self, node: K) -> usize
        ensures { result ≡ length (edges_at self.now.into (K.data_of node)) }
    {
        self.edges_to(node).len()
    }
}
