//! The calls that add and remove nodes and edges.

ghost use Rattle.std.specs.Prelude.{◌≡◌, ◌<◌, ◌≤◌, ◌++◌, ◌∷◌, [], Some, None, IfOk, OnOk, IfErr, OnErr, IsOk, IsErr, IsTrue, ◌↔◌, OnSome, IfSome};
ghost use Rattle.std.specs.Prelude.{IfNone, option_map, true, false, cond};
ghost use Rattle.std.specs.Option.{option_and_then};
ghost use Rattle.std.specs.List.{filter};
ghost use Rattle.std.specs.FinMap as map;
ghost use Rattle.slotmap.specs.Words.{Key as KeyOf, HasVacant, Inserts, Removes, Keeps, Leaves, IsLive, IsSpent, IsContent, KeepsSpent, Refuses};
ghost use Rattle.slotmap_bounded.specs.Bounded.{space};
ghost use Rattle.slotmap_bounded.specs.KeyLists.{without};
ghost use Rattle.slotmap_graph.specs.Parts.{SeenEdge, IsJoined, avoids, touches, value, edges_at, PutsBehind, SameEdges, RefusesEdge};

use crate::lists::{put_last, take_out};
use crate::{Edge, EdgeError, EdgeKey, Graph};
use slotmap::{InsertError, Key, ReserveError, drop_may_unwind};
use slotmap_bounded::inner;

impl<K: Key, N: Drop, E: Drop> Graph<K, N, E> {
    // Whether a node can be added before more room is made.
    #[inline(always)]
    fn has_node_room(&self) -> bool
        ensures { IsTrue result ↔ 0 < self.now.nodes.room }
    {
        self.nodes.has_room()
    }

    // Whether an edge can be added before more room is made.
    #[inline(always)]
    fn has_edge_room(&self) -> bool
        ensures { IsTrue result ↔ 0 < self.now.edges.room }
    {
        self.edges.has_room()
    }

    // Adds a node for which there is room.
    #[inline(always)]
    fn put_node(&mut self, node: N) -> K
        requires { 0 < self.old.nodes.room }
        ensures adds { Inserts self.old.nodes (K.data_of result) node self.new.nodes }
        ensures capacity { space self.new.nodes ≡ space self.old.nodes }
        ensures links { self.new.links ≡ self.old.links }
        ensures valid { IsContent true self.old.nodes }
        ensures edges { self.new.edges ≡ self.old.edges }
        ensures out { SameEdges self.old.out self.new.out }
        ensures into { SameEdges self.old.into self.new.into }
        ensures none_out { edges_at self.new.out (K.data_of result) ≡ [] }
        ensures none_into { edges_at self.new.into (K.data_of result) ≡ [] }
    {
        let _ = self.nodes.capacity();
        self.nodes.insert_reserved(node)
    }

    // Adds an edge for which there is room, between nodes that exist.
    #[inline(always)]
    fn put_edge(&mut self, from: K, to: K, edge: E) -> EdgeKey
        requires room { 0 < self.old.edges.room }
        requires from { IsLive self.old.nodes (K.data_of from) }
        requires to { IsLive self.old.nodes (K.data_of to) }
        ensures adds { Inserts self.old.edges result (record { from = K.data_of from; to = K.data_of to; value = edge }) self.new.edges }
        ensures capacity { space self.new.edges ≡ space self.old.edges }
        ensures links { self.new.links ≡ self.old.links }
        ensures valid { IsContent true self.old.edges }
        ensures out { PutsBehind self.old.out (K.data_of from) result self.new.out }
        ensures into { PutsBehind self.old.into (K.data_of to) result self.new.into }
        ensures nodes { self.new.nodes ≡ self.old.nodes }
    {
        let edge = Edge::new(inner(from), inner(to), edge);
        let key = self.edges.insert_reserved(edge);
        put_last(&mut self.out, from, key);
        put_last(&mut self.into, to, key);
        key
    }

    /// Adds a node with no edge, and returns its key, which no node had before.
    ///
    /// If a slot is vacant or room was reserved, the call can't fail, and the capacity stays. If the
    /// call fails, the error holds the value, and the graph has the same nodes and edges.
    ///
    /// ```
    /// let mut graph: Graph<NodeKey, &str, u64> = Graph::new(alloc)?;
    /// let a = graph.add_node("a")?;
    /// assert_eq!(rt; graph.node(a), Some(&"a"));
    /// ```
    pub fn add_node(&mut self, node: N) -> Result<K, InsertError<N>>
        // The node is there under a new key, and has no edge.
        ensures adds { IfOk result (λ key. Inserts self.old.nodes (K.data_of key) node self.new.nodes) }
        ensures fresh { IfOk result (λ key. map.get self.old.nodes.live (K.data_of key) ≡ None) }
        ensures unspent { IfOk result (λ key. IsSpent self.old.nodes (K.data_of key) → ⊥) }
        ensures gone { KeepsSpent self.old.nodes self.new.nodes }
        ensures edges { self.new.edges ≡ self.old.edges }
        ensures out { SameEdges self.old.out self.new.out }
        ensures into { SameEdges self.old.into self.new.into }
        ensures none_out { IfOk result (λ key. edges_at self.new.out (K.data_of key) ≡ []) }
        ensures none_into { IfOk result (λ key. edges_at self.new.into (K.data_of key) ≡ []) }

        // Why the call failed, and what that leaves.
        ensures err { IfErr result (Refuses self.old.nodes node) }
        ensures reuses { HasVacant self.old.nodes → IsOk result }
        ensures room { 0 < self.old.nodes.room → IsOk result }
        ensures capacity { self.old.nodes.capacity ≤ self.new.nodes.capacity }
        ensures in_place { 0 < self.old.nodes.room → space self.new.nodes ≡ space self.old.nodes }
        ensures same_links { 0 < self.old.nodes.room → self.new.links ≡ self.old.links }
        ensures unchanged { OnErr result (Keeps self.old.nodes self.new.nodes) }
    {
        if !self.has_node_room() {
            match self.reserve_nodes(1) {
                Ok(()) => {}
                Err(ReserveError::TooGreat) => return Err(InsertError::Full(node)),
                Err(ReserveError::Memory) => return Err(InsertError::Memory(node)),
            }
        }
        Ok(self.put_node(node))
    }

    /// Adds an edge from one node to another, and returns its key, which no edge had before.
    ///
    /// It is the last of the outgoing edges of the one, and of the incoming edges of the other. The call
    /// fails with `Gone` exactly if one of the two nodes doesn't exist. If a slot is vacant or room was
    /// reserved, it fails for no other reason, and the capacity stays. If it fails, the error holds the
    /// value, and the graph has the same nodes and edges.
    ///
    /// ```
    /// let mut graph: Graph<NodeKey, &str, u64> = Graph::new(alloc)?;
    /// let a = graph.add_node("a")?;
    /// let b = graph.add_node("b")?;
    /// let edge = graph.add_edge(a, b, 5)?;
    /// assert_eq!(rt; graph.edges_to(b).next(), Some(edge));
    /// graph.remove_node(b);
    /// assert!(rt; matches!(graph.add_edge(a, b, 6), Err(EdgeError::Gone(6))));
    /// ```
    pub fn add_edge(&mut self, from: K, to: K, edge: E) -> Result<EdgeKey, EdgeError<E>>
        // The edge is there under a new key, behind the other edges of its two nodes.
        ensures adds { IfOk result (λ key. Inserts self.old.edges key (record { from = K.data_of from; to = K.data_of to; value = edge }) self.new.edges) }
        ensures fresh { IfOk result (λ key. map.get self.old.edges.live key ≡ None) }
        ensures unspent { IfOk result (λ key. IsSpent self.old.edges key → ⊥) }
        ensures live { OnOk result (IsLive self.old.nodes (K.data_of from) × IsLive self.old.nodes (K.data_of to)) }
        ensures out { IfOk result (λ key. PutsBehind self.old.out (K.data_of from) key self.new.out) }
        ensures into { IfOk result (λ key. PutsBehind self.old.into (K.data_of to) key self.new.into) }

        // Why the call failed, and what that leaves.
        ensures err { IfErr result (RefusesEdge self.old.nodes self.old.edges (K.data_of from) (K.data_of to) edge) }
        ensures reuses { IsLive self.old.nodes (K.data_of from) → IsLive self.old.nodes (K.data_of to) → HasVacant self.old.edges → IsOk result }
        ensures room { IsLive self.old.nodes (K.data_of from) → IsLive self.old.nodes (K.data_of to) → 0 < self.old.edges.room → IsOk result }
        ensures capacity { self.old.edges.capacity ≤ self.new.edges.capacity }
        ensures in_place { 0 < self.old.edges.room → space self.new.edges ≡ space self.old.edges }
        ensures same_links { 0 < self.old.edges.room → self.new.links ≡ self.old.links }
        ensures unchanged { OnErr result (Keeps self.old.edges self.new.edges × SameEdges self.old.out self.new.out × SameEdges self.old.into self.new.into) }

        // All else is as before.
        ensures nodes { self.new.nodes ≡ self.old.nodes }
        ensures gone { KeepsSpent self.old.edges self.new.edges }
    {
        if !self.contains_node(from) || !self.contains_node(to) {
            return Err(EdgeError::Gone(edge));
        }
        if !self.has_edge_room() {
            match self.reserve_edges(1) {
                Ok(()) => {}
                Err(ReserveError::TooGreat) => return Err(EdgeError::Full(edge)),
                Err(ReserveError::Memory) => return Err(EdgeError::Memory(edge)),
            }
        }
        Ok(self.put_edge(from, to, edge))
    }

    /// Removes an edge, and returns its value. Its key is never used again. If the edge doesn't exist,
    /// the call returns `None` and changes nothing. No room is lost, and the capacity stays. Constant
    /// time.
    ///
    /// ```
    /// let mut graph: Graph<NodeKey, &str, u64> = Graph::new(alloc)?;
    /// let a = graph.add_node("a")?;
    /// let edge = graph.add_edge(a, a, 5)?;
    /// assert_eq!(rt; graph.remove_edge(edge), Some(5));
    /// assert_eq!(rt; graph.remove_edge(edge), None);
    /// ```
    pub fn remove_edge(&mut self, edge: EdgeKey) -> Option<E>
        ensures value { result ≡ option_map value (map.get self.old.edges.live edge) }
        ensures live { self.new.edges.live ≡ map.remove self.old.edges.live edge }
        ensures removes { OnSome result (Removes self.old.edges edge self.new.edges) }
        ensures unchanged { IfNone result (self.new.edges ≡ self.old.edges) }
        ensures for_good { OnSome result (IsSpent self.new.edges edge) }
        ensures leaves { Leaves self.old.edges self.new.edges }
        ensures capacity { space self.new.edges ≡ space self.old.edges }
        ensures links { self.new.links ≡ self.old.links }
        ensures out { (k : KeyOf) → edges_at self.new.out k ≡ without edge (edges_at self.old.out k) }
        ensures into { (k : KeyOf) → edges_at self.new.into k ≡ without edge (edges_at self.old.into k) }
        ensures nodes { self.new.nodes ≡ self.old.nodes }
        ensures gone { KeepsSpent self.old.edges self.new.edges }
        ensures stale { IfNone result (self.new ≡ self.old) }
    {
        let removed = self.edges.remove(edge)?;
        let (from, to) = removed.ends();
        take_out(&mut self.out, from, edge);
        take_out(&mut self.into, to, edge);
        Some(removed.into_value())
    }

    // An edge from a node or to it, or `None` if there is none.
    fn edge_at(&self, node: K) -> Option<EdgeKey>
        ensures some { IfSome result (λ key. (e : SeenEdge E) × (map.get self.now.edges.live key ≡ Some e) × (touches (K.data_of node) e ≡ true)) }
        ensures none { IfNone result ((k : KeyOf) (e : SeenEdge E) → map.get self.now.edges.live k ≡ Some e → touches (K.data_of node) e ≡ false) }
        ensures joined { IsJoined self.now }
    {
        let _ = &self.nodes;
        match self.edges_from(node).next() {
            Some(edge) => Some(edge),
            None => self.edges_to(node).next(),
        }
    }

    /// Removes every edge from a node or to it, and no other. Their keys are never used again. No room
    /// is lost, and the capacity stays. A node that doesn't exist has no edges, so nothing changes. It
    /// takes time linear in the number of these edges.
    ///
    /// ```
    /// let mut graph: Graph<NodeKey, &str, u64> = Graph::new(alloc)?;
    /// let a = graph.add_node("a")?;
    /// graph.add_edge(a, a, 5)?;
    /// graph.remove_edges_of(a);
    /// assert_eq!(rt; graph.edge_count(), 0);
    /// ```
    pub fn remove_edges_of(&mut self, node: K)
        ensures edges { (k : KeyOf) → map.get self.new.edges.live k ≡ option_and_then
            (λ e. cond (avoids (K.data_of node) e) (Some e) None) (map.get self.old.edges.live k) }
        ensures for_good { (k : KeyOf) (e : SeenEdge E) → map.get self.old.edges.live k ≡ Some e → touches (K.data_of node) e ≡ true → IsSpent self.new.edges k }
        ensures leaves { Leaves self.old.edges self.new.edges }
        ensures capacity { space self.new.edges ≡ space self.old.edges }
        ensures links { self.new.links ≡ self.old.links }
        ensures out { (k : KeyOf) → edges_at self.new.out k ≡ filter (map.contains_key self.new.edges.live) (edges_at self.old.out k) }
        ensures into { (k : KeyOf) → edges_at self.new.into k ≡ filter (map.contains_key self.new.edges.live) (edges_at self.old.into k) }
        ensures none_out { edges_at self.new.out (K.data_of node) ≡ [] }
        ensures none_into { edges_at self.new.into (K.data_of node) ≡ [] }
        ensures nodes { self.new.nodes ≡ self.old.nodes }
        ensures gone { KeepsSpent self.old.edges self.new.edges }
        ensures stale { map.contains_key self.old.nodes.live (K.data_of node) ≡ false → self.new ≡ self.old }
    {
        while let Some(edge) = self.edge_at(node) {
            self.remove_edge(edge);
        }
    }

    /// Removes a node, and every edge from it or to it, and returns the node's value. The key of the
    /// node and those of its edges are never used again. If the node doesn't exist, the call returns
    /// `None` and changes nothing. No room is lost, and the capacities stay. It takes time linear in the
    /// number of its edges.
    ///
    /// ```
    /// let mut graph: Graph<NodeKey, &str, u64> = Graph::new(alloc)?;
    /// let a = graph.add_node("a")?;
    /// let b = graph.add_node("b")?;
    /// graph.add_edge(a, b, 5)?;
    /// assert_eq!(rt; graph.remove_node(b), Some("b"));
    /// assert_eq!(rt; graph.edge_count(), 0);
    /// ```
    pub fn remove_node(&mut self, node: K) -> Option<N>
        // The node is gone.
        ensures value { result ≡ map.get self.old.nodes.live (K.data_of node) }
        ensures live { self.new.nodes.live ≡ map.remove self.old.nodes.live (K.data_of node) }
        ensures removes { OnSome result (Removes self.old.nodes (K.data_of node) self.new.nodes) }
        ensures unchanged { IfNone result (self.new.nodes ≡ self.old.nodes) }
        ensures for_good { OnSome result (IsSpent self.new.nodes (K.data_of node)) }
        ensures leaves { Leaves self.old.nodes self.new.nodes }
        ensures capacity { space self.new.nodes ≡ space self.old.nodes }
        ensures gone { KeepsSpent self.old.nodes self.new.nodes }

        // Its edges are gone, and no others.
        ensures edges { (k : KeyOf) → map.get self.new.edges.live k ≡ option_and_then
            (λ e. cond (avoids (K.data_of node) e) (Some e) None) (map.get self.old.edges.live k) }
        ensures edges_for_good { (k : KeyOf) (e : SeenEdge E) → map.get self.old.edges.live k ≡ Some e → touches (K.data_of node) e ≡ true → IsSpent self.new.edges k }
        ensures edges_leave { Leaves self.old.edges self.new.edges }
        ensures edges_capacity { space self.new.edges ≡ space self.old.edges }
        ensures links { self.new.links ≡ self.old.links }
        ensures edges_gone { KeepsSpent self.old.edges self.new.edges }
        ensures out { (k : KeyOf) → edges_at self.new.out k ≡ filter (map.contains_key self.new.edges.live) (edges_at self.old.out k) }
        ensures into { (k : KeyOf) → edges_at self.new.into k ≡ filter (map.contains_key self.new.edges.live) (edges_at self.old.into k) }

        // If there is no such node, nothing changes.
        ensures stale { IfNone result (self.new ≡ self.old) }
    {
        // by the contract of `node_count`, each edge joins two nodes that exist
        let _ = self.node_count();
        if !self.contains_node(node) {
            return None;
        }
        self.remove_edges_of(node);
        self.nodes.remove(node)
    }

    // Removes all nodes and all edges, node by node. While a value is dropped, the maps and the lists agree.
    fn clear_each(&mut self)
        ensures nodes { self.new.nodes.live ≡ map.empty }
        ensures edges { self.new.edges.live ≡ map.empty }
        ensures nodes_leave { Leaves self.old.nodes self.new.nodes }
        ensures edges_leave { Leaves self.old.edges self.new.edges }
        ensures nodes_capacity { space self.new.nodes ≡ space self.old.nodes }
        ensures edges_capacity { space self.new.edges ≡ space self.old.edges }
        ensures links { self.new.links ≡ self.old.links }
        ensures for_good { (k : KeyOf) → IsLive self.old.nodes k → IsSpent self.new.nodes k }
        ensures edges_for_good { (k : KeyOf) → IsLive self.old.edges k → IsSpent self.new.edges k }
        ensures gone { KeepsSpent self.old.nodes self.new.nodes }
        ensures edges_gone { KeepsSpent self.old.edges self.new.edges }
        ensures out { (k : KeyOf) → edges_at self.new.out k ≡ [] }
        ensures into { (k : KeyOf) → edges_at self.new.into k ≡ [] }
    {
        // by the contracts of these calls, the nodes and the edges are well formed
        let _ = self.node_capacity();
        let _ = self.edge_capacity();
        let mut last = None;
        while let Some(node) = self.next_node(last) {
            self.remove_node(node);
            last = Some(node);
        }
        // by the contract of `node_count`, each edge joins two nodes that exist
        let _ = self.node_count();
    }

    /// Removes all nodes and all edges. Their keys are never used again. No room is lost, and the
    /// capacities stay.
    ///
    /// It takes time linear in the number of slots that have had a node or an edge. It also resets the ends
    /// of the lists of each node that there is room for, 24 bytes a node.
    ///
    /// ```
    /// let mut graph: Graph<NodeKey, &str, u64> = Graph::new(alloc)?;
    /// let a = graph.add_node("a")?;
    /// graph.clear();
    /// assert!(rt; !graph.contains_node(a));
    /// ```
    pub fn clear(&mut self)
        ensures nodes { self.new.nodes.live ≡ map.empty }
        ensures edges { self.new.edges.live ≡ map.empty }
        ensures nodes_leave { Leaves self.old.nodes self.new.nodes }
        ensures edges_leave { Leaves self.old.edges self.new.edges }
        ensures nodes_capacity { space self.new.nodes ≡ space self.old.nodes }
        ensures edges_capacity { space self.new.edges ≡ space self.old.edges }
        ensures links { self.new.links ≡ self.old.links }
        ensures for_good { (k : KeyOf) → IsLive self.old.nodes k → IsSpent self.new.nodes k }
        ensures edges_for_good { (k : KeyOf) → IsLive self.old.edges k → IsSpent self.new.edges k }
        ensures gone { KeepsSpent self.old.nodes self.new.nodes }
        ensures edges_gone { KeepsSpent self.old.edges self.new.edges }
        ensures out { (k : KeyOf) → edges_at self.new.out k ≡ [] }
        ensures into { (k : KeyOf) → edges_at self.new.into k ≡ [] }
    {
        if drop_may_unwind::<N>() || drop_may_unwind::<E>() {
            self.clear_each();
            return;
        }
        self.nodes.clear();
        self.edges.clear();
        self.out.clear();
        self.into.clear();
    }
}
