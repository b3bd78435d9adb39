//! Steps from node to node and from edge to edge, between which the graph may change.

ghost use Rattle.std.specs.Prelude.{◌≡◌, ◌<◌, ◌≤◌, None, IfSome, IfNone, true};
ghost use Rattle.std.specs.Option.{option_and_then};
ghost use Rattle.std.specs.FinMap as map;
ghost use Rattle.slotmap.specs.Words.{Content, IsContent, IsLive, Key as KeyOf, index_after};
ghost use Rattle.slotmap_bounded.specs.KeyLists.{times};
ghost use Rattle.slotmap_links.specs.Lists.{first_or};
ghost use Rattle.slotmap_graph.specs.Parts.{ListsEdges, SeenEdge, edges_at, from, key_after, to};
ghost use Rattle.slotmap_graph.specs.Threads.{IsThreaded, by_node};

use crate::lists::Edges;
use crate::{EdgeKey, Graph};
use slotmap::Key;
use slotmap_links::Links;

// The edge after this one in its list, of those that begin at a node or of those that end there.
fn next_of<N, E: Drop>(edges: &Edges<E>, links: &Links, edge: EdgeKey) -> Option<EdgeKey>
    requires { (end : SeenEdge E → KeyOf) × (nodes : Content N) × IsThreaded end nodes edges.now links.now }
    ensures { (end : SeenEdge E → KeyOf) (nodes : Content N) → IsThreaded end nodes edges.now links.now → result ≡
        option_and_then (λ e. key_after edge (edges_at (by_node nodes.live edges.now.live links.now) (end e))) (map.get edges.now.live edge) }
{
    if !edges.contains_key(edge) {
        return None;
    }
    let next = links.next(edge.data().idx())?;
    Some(edges.live_key(next))
}

impl<K: Key, N: Drop, E: Drop> Graph<K, N, E> {
    /// Returns the live node with the least index above that of `node`, or `None` if no live node has a
    /// greater index. With no node it returns the first one.
    ///
    /// Calls in turn, each with the node that the last one returned, yield what [`Graph::nodes`] yields.
    /// They borrow nothing meanwhile, so the values of nodes can be written on the way, and nodes and
    /// edges can be added and removed. Only the index of `node` counts. It takes time linear in the
    /// number of slots that it passes over.
    ///
    /// ```
    /// let mut graph: Graph<NodeKey, &str, u64> = Graph::new(alloc)?;
    /// let a = graph.add_node("a")?;
    /// let b = graph.add_node("b")?;
    /// assert_eq!(rt; graph.next_node(None), Some(a));
    /// assert_eq!(rt; graph.next_node(Some(a)), Some(b));
    /// assert_eq!(rt; graph.next_node(Some(b)), None);
    /// ```
    pub fn next_node(&self, node: Option<K>) -> Option<K>
        ensures live { IfSome result (λ found. IsLive self.now.nodes (K.data_of found)) }
        ensures after { IfSome result (λ found. index_after K.data_of node ≤ (K.data_of found).index) }
        ensures first { IfSome result (λ found. (other : KeyOf) → IsLive self.now.nodes other →
            index_after K.data_of node ≤ other.index → (K.data_of found).index ≤ other.index) }
        ensures none { IfNone result ((other : KeyOf) → IsLive self.now.nodes other → other.index < index_after K.data_of node) }
        ensures valid { IsContent true self.now.nodes }
    {
        self.nodes.next_after(node)
    }

    /// Returns the live edge with the least index above that of `edge`, or `None` if no live edge has a
    /// greater index. With no edge it returns the first one.
    ///
    /// Calls in turn, each with the edge that the last one returned, yield what [`Graph::edges`] yields,
    /// and borrow nothing meanwhile, as those of [`Graph::next_node`]. It takes time linear in the number
    /// of slots that it passes over.
    ///
    /// ```
    /// let mut graph: Graph<NodeKey, &str, u64> = Graph::new(alloc)?;
    /// let a = graph.add_node("a")?;
    /// let edge = graph.add_edge(a, a, 5)?;
    /// assert_eq!(rt; graph.next_edge(None), Some(edge));
    /// assert_eq!(rt; graph.next_edge(Some(edge)), None);
    /// ```
    pub fn next_edge(&self, edge: Option<EdgeKey>) -> Option<EdgeKey>
        ensures live { IfSome result (λ found. IsLive self.now.edges found) }
        ensures after { IfSome result (λ found. index_after (λ e. e) edge ≤ found.index) }
        ensures first { IfSome result (λ found. (other : KeyOf) → IsLive self.now.edges other →
            index_after (λ e. e) edge ≤ other.index → found.index ≤ other.index) }
        ensures none { IfNone result ((other : KeyOf) → IsLive self.now.edges other → other.index < index_after (λ e. e) edge) }
        ensures valid { IsContent true self.now.edges }
    {
        self.edges.next_after(edge)
    }

    /// Returns the first of a node's outgoing edges, or `None` if it has none.
    ///
    /// With [`Graph::next_from`] it goes along the edges in the order of [`Graph::edges_from`]. It
    /// borrows nothing meanwhile, so values and edges may change on the way. To remove the edge at
    /// hand, take the next one first. Constant time.
    ///
    /// ```
    /// let mut graph: Graph<NodeKey, &str, u64> = Graph::new(alloc)?;
    /// let a = graph.add_node("a")?;
    /// let b = graph.add_node("b")?;
    /// let edge = graph.add_edge(a, b, 5)?;
    /// graph.add_edge(a, a, 6)?;
    /// assert_eq!(rt; graph.first_from(a), Some(edge));
    /// assert_eq!(rt; graph.first_from(b), None);
    /// ```
    pub fn first_from(&self, node: K) -> Option<EdgeKey>
        ensures first { result ≡ first_or (edges_at self.now.out (K.data_of node)) None }
        ensures listed { ListsEdges from self.now.edges.live (K.data_of node) (edges_at self.now.out (K.data_of node)) }
    {
        self.edges_from(node).next()
    }

    /// Returns the first of a node's incoming edges, or `None` if it has none.
    ///
    /// With [`Graph::next_to`] it goes along the edges in the order of [`Graph::edges_to`]. It borrows
    /// nothing meanwhile, so values and edges may change on the way. To remove the edge at hand, take
    /// the next one first. Constant time.
    ///
    /// ```
    /// let mut graph: Graph<NodeKey, &str, u64> = Graph::new(alloc)?;
    /// let a = graph.add_node("a")?;
    /// let b = graph.add_node("b")?;
    /// let edge = graph.add_edge(a, b, 5)?;
    /// assert_eq!(rt; graph.first_to(b), Some(edge));
    /// assert_eq!(rt; graph.first_to(a), None);
    /// ```
    pub fn first_to(&self, node: K) -> Option<EdgeKey>
        ensures first { result ≡ first_or (edges_at self.now.into (K.data_of node)) None }
        ensures listed { ListsEdges to self.now.edges.live (K.data_of node) (edges_at self.now.into (K.data_of node)) }
    {
        self.edges_to(node).next()
    }

    /// Returns the edge after this one among the outgoing edges of the node where it begins. It returns
    /// `None` after the last, and if the edge doesn't exist.
    ///
    /// Constant time.
    ///
    /// ```
    /// let mut graph: Graph<NodeKey, &str, u64> = Graph::new(alloc)?;
    /// let a = graph.add_node("a")?;
    /// let b = graph.add_node("b")?;
    /// let first = graph.add_edge(a, b, 5)?;
    /// let second = graph.add_edge(a, a, 6)?;
    /// assert_eq!(rt; graph.next_from(first), Some(second));
    /// assert_eq!(rt; graph.next_from(second), None);
    /// ```
    pub fn next_from(&self, edge: EdgeKey) -> Option<EdgeKey>
        ensures value { result ≡ option_and_then (λ e. key_after edge (edges_at self.now.out (from e))) (map.get self.now.edges.live edge) }
        ensures along { (node : KeyOf) → 0 < times edge (edges_at self.now.out node) → result ≡ key_after edge (edges_at self.now.out node) }
    {
        next_of::<N, E>(&self.edges, &self.out, edge)
    }

    /// Returns the edge after this one among the incoming edges of the node where it ends. It returns
    /// `None` after the last, and if the edge doesn't exist.
    ///
    /// Constant time.
    ///
    /// ```
    /// let mut graph: Graph<NodeKey, &str, u64> = Graph::new(alloc)?;
    /// let a = graph.add_node("a")?;
    /// let b = graph.add_node("b")?;
    /// let first = graph.add_edge(a, b, 5)?;
    /// let second = graph.add_edge(b, b, 6)?;
    /// assert_eq!(rt; graph.next_to(first), Some(second));
    /// assert_eq!(rt; graph.next_to(second), None);
    /// ```
    pub fn next_to(&self, edge: EdgeKey) -> Option<EdgeKey>
        ensures value { result ≡ option_and_then (λ e. key_after edge (edges_at self.now.into (to e))) (map.get self.now.edges.live edge) }
        ensures along { (node : KeyOf) → 0 < times edge (edges_at self.now.into node) → result ≡ key_after edge (edges_at self.now.into node) }
    {
        next_of::<N, E>(&self.edges, &self.into, edge)
    }
}
