//! The calls that follow edges: neighbours, edges between two nodes, and reachable nodes.

ghost use Rattle.std.specs.Prelude.{◌≡◌, ◌≢◌, ◌<◌, ◌≤◌, Some, IfOk, OnOk, true, length, option_map, map as list_map};
ghost use Rattle.std.specs.List.{find, fold};
ghost use Rattle.std.specs.FinMap as map;
ghost use Rattle.slotmap.specs.Words.{Key as KeyOf, IsBeside, IsContent, IsLive, get, contains_key};
ghost use Rattle.slotmap_bounded.specs.KeyLists.{times};
ghost use Rattle.slotmap_graph.specs.Parts.{IsJoined, ListsEdges, PutsAlone, edges_at, from, to};
ghost use Rattle.slotmap_graph.specs.Search.{AreSeen, Finds, HasNext, IsBreadthFirst, Leads, ends_along, goes_to, marked};

use crate::{EdgeKey, Graph};
use slotmap::{DefaultKey, Key, SecondaryMap};
use slotmap_bounded::{inner, outer};
use std::alloc::{AllocError, Global};

// The nodes that were found.
pub(crate) type Seen<K> = SecondaryMap<K, ()>;

// No node has been found yet.
pub(crate) fn none_seen<K: Key>(alloc: Global) -> Result<Seen<K>, AllocError>
    ensures { IfOk result (λ seen. seen.pairs ≡ map.empty) }
{
    match SecondaryMap::new(alloc) {
        Ok(seen) => Ok(seen),
        Err(_) => Err(AllocError),
    }
}

// Adds a node to those that were found, unless it is among them.
pub(crate) fn mark<K: Key>(
    found: &mut Vec<K>,
    seen: &mut Seen<K>,
    node: K,
) -> Result<(), AllocError>
    requires alone { PutsAlone seen.old.pairs (K.data_of node) }
    requires listed { AreSeen seen.old.pairs (list_map K.data_of found.old.items) }
    ensures listed { OnOk result (AreSeen seen.new.pairs (list_map K.data_of found.new.items)) }
    ensures marks { OnOk result (list_map K.data_of found.new.items ≡ marked (list_map K.data_of found.old.items) (K.data_of node)) }
    ensures there { OnOk result (contains_key seen.new.pairs (K.data_of node) ≡ true) }
    ensures others { (q : KeyOf) → q ≢ K.data_of node → get seen.new.pairs q ≡ get seen.old.pairs q }
{
    if seen.contains_key(node) {
        return Ok(());
    }
    found.push(node)?;
    match seen.insert(node, ()) {
        Ok(_) => Ok(()),
        Err(_) => Err(AllocError),
    }
}

impl<K: Key, N: Drop, E: Drop> Graph<K, N, E> {
    // The node where an edge begins.
    pub(crate) fn source(&self, edge: EdgeKey) -> DefaultKey
        requires { IsLive self.now.edges edge }
        ensures begins { option_map from (map.get self.now.edges.live edge) ≡ Some result }
        ensures live { IsLive self.now.nodes result }
    {
        self.edges.value(edge).ends().0
    }

    // The node where an edge ends.
    pub(crate) fn target(&self, edge: EdgeKey) -> DefaultKey
        requires { IsLive self.now.edges edge }
        ensures arrives { option_map to (map.get self.now.edges.live edge) ≡ Some result }
        ensures live { IsLive self.now.nodes result }
        ensures joined { IsJoined self.now }
    {
        self.edges.value(edge).ends().1
    }

    /// Returns the nodes where this node's outgoing edges end, one for each edge, in the order of
    /// [`Graph::edges_from`]. For a node that doesn't exist the vector is empty.
    ///
    /// It fails only if memory runs out.
    ///
    /// ```
    /// let mut graph: Graph<NodeKey, &str, u64> = Graph::new(alloc)?;
    /// let a = graph.add_node("a")?;
    /// let b = graph.add_node("b")?;
    /// graph.add_edge(a, b, 5)?;
    /// graph.add_edge(a, a, 6)?;
    /// assert_eq!(rt; graph.neighbours(alloc, a)?.as_slice(), [b, a].as_slice());
    /// ```
    pub fn neighbours(&self, alloc: Global, node: K) -> Result<Vec<K>, AllocError>
        ensures { IfOk result (λ found. list_map K.data_of found.items ≡ ends_along to self.now.edges.live (edges_at self.now.out (K.data_of node))) }
    {
        let mut found = Vec::new(alloc);
        for edge in self.edges_from(node) {
            found.push(outer(self.target(edge)))?;
        }
        Ok(found)
    }

    /// Returns the first edge from one node to another, in the order of [`Graph::edges_from`], or
    /// `None` if there is none.
    ///
    /// ```
    /// let mut graph: Graph<NodeKey, &str, u64> = Graph::new(alloc)?;
    /// let a = graph.add_node("a")?;
    /// let b = graph.add_node("b")?;
    /// let edge = graph.add_edge(a, b, 5)?;
    /// assert_eq!(rt; graph.find_edge(a, b), Some(edge));
    /// assert_eq!(rt; graph.find_edge(b, a), None);
    /// ```
    pub fn find_edge(&self, from: K, to: K) -> Option<EdgeKey>
        ensures first { result ≡ find (goes_to self.now.edges.live (K.data_of to)) (edges_at self.now.out (K.data_of from)) }
        ensures listed { ListsEdges (λ e. e.from) self.now.edges.live (K.data_of from) (edges_at self.now.out (K.data_of from)) }
    {
        let to = inner(to);
        for edge in self.edges_from(from) {
            if self.target(edge) == to {
                return Some(edge);
            }
        }
        None
    }

    // Finds the nodes to which an edge leads from one node.
    fn mark_neighbours(
        &self,
        found: &mut Vec<K>,
        seen: &mut Seen<K>,
        node: K,
    ) -> Result<(), AllocError>
        requires valid { IsContent true self.now.nodes }
        requires listed { AreSeen seen.old.pairs (list_map K.data_of found.old.items) }
        requires live { IsBeside self.now.nodes seen.old.pairs }
        ensures finds { OnOk result (Finds self.now.nodes self.now.edges.live (K.data_of node)
            seen.old.pairs (list_map K.data_of found.old.items) seen.new.pairs (list_map K.data_of found.new.items)) }
        ensures next { OnOk result (HasNext self.now.edges.live (K.data_of node) seen.new.pairs) }
        ensures order { OnOk result (list_map K.data_of found.new.items
            ≡ fold marked (list_map K.data_of found.old.items) (ends_along to self.now.edges.live (edges_at self.now.out (K.data_of node)))) }
    {
        for edge in self.edges_from(node) {
            mark(found, seen, outer(self.target(edge)))?;
        }
        Ok(())
    }

    /// Returns the nodes that are reachable from this one, each once, breadth first: the node itself,
    /// and then the neighbours of each node that was found, in turn. If the node doesn't exist, there
    /// are none.
    ///
    /// It takes time linear in the number of these nodes and their outgoing edges, and in the largest
    /// index of one of them: the marks are in a `SecondaryMap`. It fails only if memory runs out.
    ///
    /// ```
    /// let mut graph: Graph<NodeKey, &str, u64> = Graph::new(alloc)?;
    /// let a = graph.add_node("a")?;
    /// let b = graph.add_node("b")?;
    /// let c = graph.add_node("c")?;
    /// graph.add_edge(a, c, 5)?;
    /// graph.add_edge(a, b, 6)?;
    /// assert_eq!(rt; graph.reachable(alloc, a)?.as_slice(), [a, c, b].as_slice());
    /// ```
    pub fn reachable(&self, alloc: Global, from: K) -> Result<Vec<K>, AllocError>
        ensures once { IfOk result (λ found. (x : KeyOf) → times x (list_map K.data_of found.items) ≤ 1) }
        ensures count { IfOk result (λ found. length found.items ≤ map.len self.now.nodes.live) }
        ensures found_is_reachable { IfOk result (λ found. (x : KeyOf) → 0 < times x (list_map K.data_of found.items) → Leads self.now.edges.live (K.data_of from) x) }
        ensures reachable_is_found { IfOk result (λ found. (x : KeyOf) → IsLive self.now.nodes (K.data_of from)
            → Leads self.now.edges.live (K.data_of from) x → 0 < times x (list_map K.data_of found.items)) }
        ensures live { IfOk result (λ found. (x : KeyOf) → 0 < times x (list_map K.data_of found.items)
            → IsLive self.now.nodes (K.data_of from) × IsLive self.now.nodes x) }
        ensures in_order { IfOk result (λ found. IsLive self.now.nodes (K.data_of from)
            → IsBreadthFirst (λ k. ends_along to self.now.edges.live (edges_at self.now.out k)) (K.data_of from) (list_map K.data_of found.items)) }
    {
        let mut found = Vec::new(alloc);
        if !self.nodes.contains_key(from) {
            return Ok(found);
        }
        let mut seen = none_seen(alloc)?;
        mark(&mut found, &mut seen, from)?;
        let mut at = 0;
        while at < found.len() {
            let node = found[at];
            self.mark_neighbours(&mut found, &mut seen, node)?;
            at += 1;
        }
        Ok(found)
    }
}
