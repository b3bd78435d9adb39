//! A directed graph: nodes and edges with values, under keys of their own.
//!
//! An edge of a [`Graph`] goes from one node to another or to itself, and two nodes may have several.
//! What is proved of it:
//!
//! - Edges only join existing nodes: [`Graph::remove_node`] removes the node's edges with it, and no
//!   others.
//! - A removed key stays stale, also that of an edge, unless `clone_from` makes the graph a copy of
//!   another.
//! - The edges of a node are listed in the order in which they were added.
//! - A call that fails leaves the same nodes and edges. One that adds a node or an edge returns its
//!   value.
//! - Where there is room, no node or edge is refused for memory, and the capacity stays. No removal
//!   loses room or changes a capacity.
//!
//! There are two maps, one of nodes and one of edges. Each node has a list of its outgoing edges, and
//! one of its incoming edges. These are links beside the maps, by the indices of the keys. So a call
//! takes constant time, unless a map grows, with these exceptions:
//!
//! - [`Graph::neighbours`] and [`Graph::find_edge`] take time linear in the number of edges from the
//!   node.
//! - [`Graph::remove_node`] and [`Graph::remove_edges_of`] take time linear in the number of the node's
//!   edges.
//! - [`Graph::reachable`] takes time linear in the number of nodes that it finds and of their edges, and
//!   in the largest index of one of them.
//! - [`Graph::topological_order`] takes time linear in the number of slots of nodes and edges.
//! - [`Graph::next_node`] and [`Graph::next_edge`] take time linear in the number of slots that they pass
//!   over. All steps of [`Graph::nodes`], [`Graph::edges`] and the iterators over references to all of
//!   them read each slot once.
//! - [`Graph::clear`] takes time linear in the number of slots that have had a node or an edge. It also
//!   resets the ends of the lists of each node that there is room for, 24 bytes a node.
//! - [`Graph::clone`], [`Graph::with_capacity`] and [`Graph::with_capacity_and_key`] take time linear in
//!   the two capacities. So does printing a graph with `{:?}`.
//!
//! The calls that make a graph, reserve room, add or copy may fail for memory, and so may those that
//! take an `alloc`. Those that add don't fail for it where there is room, and those that remove never do.
//!
//! ```
//! let mut graph: Graph<NodeKey, &str, u64> = Graph::new(alloc)?;
//! let a = graph.add_node("a")?;
//! let b = graph.add_node("b")?;
//! let edge = graph.add_edge(a, b, 5)?;
//! assert_eq!(rt; graph.edges_from(a).next(), Some(edge));
//! assert_eq!(rt; graph.neighbours(alloc, a)?.as_slice(), [b].as_slice());
//! graph.remove_node(b);
//! assert!(rt; graph.edge(edge).is_none());
//! assert_eq!(rt; graph.out_degree(a), 0);
//! ```
#![tactic(auto, using(slotmap::proofs::Callers::keys))]

ghost use Rattle.std.specs.Prelude.{◌≡◌, ◌+◌, ◌≤◌, IfOk, IfErr, IsOk, IsTrue, ◌↔◌, true};
ghost use Rattle.std.specs.FinMap as map;
ghost use Rattle.slotmap.specs.Words.{IsContent, IsNew, MakesRoom, RefusesCapacity, used};
ghost use Rattle.slotmap_bounded.specs.Bounded.{bound};
ghost use Rattle.slotmap_graph.specs.Parts.{IsJoined, RefusesEither, SameEdges};

mod change;
mod clone;
mod debug;
mod edge_key;
mod index;
mod iter;
mod lists;
mod look;
mod neighbours;
mod next;
mod order;
mod references;
mod search;

use crate::lists::{Edges, cover_both};
pub use edge_key::EdgeKey;
pub use iter::EdgesAt;
pub use lists::Edge;
pub use neighbours::Neighbours;
pub use order::OrderError;
pub use references::{EdgeReferences, EdgeReferencesAt};
use slotmap::basic::Keys;
use slotmap::{Key, NodeKey, ReserveError};
use slotmap_bounded::BoundedMap;
use slotmap_links::Links;
use std::alloc::Global;
use std::marker::Model;
use thiserror::Error;

// How many keys a map holds at most.
const MOST: usize = 4_294_967_294;

/// Nodes with values of type `N` under keys of type `K`, and edges between them with values of type
/// `E`.
///
/// A clause sees `nodes` and `edges`. Their `live` is the finite map from the keys to the values, or
/// to the edges, and `IsSpent` says which keys are never used again. It sees `out` and `into` as well,
/// by which `edges_at` has the edges of a node in their order. The `space` of nodes and edges, and `links`,
/// are how much the graph counts as reserved. A test shows that a call that keeps them asks for none. By
/// the clause `joined` of [`Graph::node_count`] each edge joins two nodes that exist, and is once in the
/// list of each.
pub struct Graph<K, N, E> {
    nodes: BoundedMap<K, N>,
    edges: Edges<E>,
    out: Links,
    into: Links,
}

impl<K, N: Drop, E: Drop> Drop for Graph<K, N, E> {
    fn drop(self) {
        let Graph {
            nodes: _nodes,
            edges: _edges,
            out: _out,
            into: _into,
        } = self;
    }
}

impl<K, N, E> Model for Graph<K, N, E> {
    ghost use Rattle.slotmap_graph.specs.Parts.{Seen, seen_code};
    ghost use Rattle.slotmap_graph.specs.Threads.{IsGraph, by_node};

    ghost Value = { Seen N E };

    ghost coded = { seen_code N.code E.code };

    ghost view = { λ g. record {
      nodes = g.nodes;
      edges = g.edges;
      out = by_node g.nodes.live g.edges.live g.out;
      into = by_node g.nodes.live g.edges.live g.into;
      links = (g.out.capacity, g.into.capacity);
    } };

    ghost invariant = { λ g. IsGraph g.nodes g.edges g.out g.into };
}

/// An edge was not added. The graph has the same nodes and edges, and the error holds the edge's value.
#[derive(Debug, Drop, Error)]
pub enum EdgeError<E> {
    /// One of its two nodes doesn't exist.
    #[error("a node is gone")]
    Gone(E),
    /// The edges and the retired slots are as many as a map can hold, 4294967294.
    #[error("the graph is full")]
    Full(E),
    /// An allocation failed.
    #[error("out of memory")]
    Memory(E),
}

impl<N: Drop, E: Drop> Graph<NodeKey, N, E> {
    /// Makes a graph with no node, whose nodes have keys of type `NodeKey`.
    ///
    /// It fails only if memory runs out.
    ///
    /// ```
    /// let graph: Graph<NodeKey, &str, u64> = Graph::new(alloc)?;
    /// assert!(rt; graph.is_empty());
    /// ```
    pub fn new(alloc: Global) -> Result<Self, ReserveError>
        ensures nodes { IfOk result (λ graph. IsNew graph.nodes) }
        ensures edges { IfOk result (λ graph. IsNew graph.edges) }
        ensures err { IfErr result (λ error. error ≡ ReserveError.Memory) }
    {
        Graph::with_key(alloc)
    }

    /// Makes a graph with no node and with room for `nodes` nodes and `edges` edges, whose nodes have
    /// keys of type `NodeKey`.
    ///
    /// It fails with `TooGreat` if one of the two is over 4294967294, and else with `Memory` if memory
    /// runs out. It takes time linear in `nodes` and `edges`.
    ///
    /// ```
    /// let mut graph: Graph<NodeKey, &str, u64> = Graph::with_capacity(alloc, 2, 4)?;
    /// assert!(rt; graph.add_node("a").is_ok());
    /// ```
    pub fn with_capacity(alloc: Global, nodes: usize, edges: usize) -> Result<Self, ReserveError>
        ensures nodes { IfOk result (λ graph. IsNew graph.nodes) }
        ensures edges { IfOk result (λ graph. IsNew graph.edges) }
        ensures node_room { IfOk result (λ graph. nodes ≤ graph.nodes.room) }
        ensures edge_room { IfOk result (λ graph. edges ≤ graph.edges.room) }
        ensures err { IfErr result (RefusesEither nodes edges) }
    {
        Graph::with_capacity_and_key(alloc, nodes, edges)
    }
}

impl<K: Key, N: Drop, E: Drop> Graph<K, N, E> {
    /// Makes a graph with no node, with any type of keys of nodes.
    ///
    /// It fails only if memory runs out.
    ///
    /// ```
    /// let graph: Graph<DefaultKey, &str, u64> = Graph::with_key(alloc)?;
    /// assert!(rt; graph.is_empty());
    /// ```
    pub fn with_key(alloc: Global) -> Result<Self, ReserveError>
        ensures nodes { IfOk result (λ graph. IsNew graph.nodes) }
        ensures edges { IfOk result (λ graph. IsNew graph.edges) }
        ensures err { IfErr result (λ error. error ≡ ReserveError.Memory) }
    {
        Graph::with_capacity_and_key(alloc, 0, 0)
    }

    /// Makes a graph with no node and with room for `nodes` nodes and `edges` edges, with any type of
    /// keys of nodes.
    ///
    /// It fails with `TooGreat` if one of the two is over 4294967294, and else with `Memory` if memory
    /// runs out. It takes time linear in `nodes` and `edges`.
    ///
    /// ```
    /// let graph: Graph<DefaultKey, &str, u64> = Graph::with_capacity_and_key(alloc, 2, 4)?;
    /// assert_eq!(rt; graph.node_count(), 0);
    /// ```
    pub fn with_capacity_and_key(
        alloc: Global,
        nodes: usize,
        edges: usize,
    ) -> Result<Self, ReserveError>
        ensures nodes { IfOk result (λ graph. IsNew graph.nodes) }
        ensures edges { IfOk result (λ graph. IsNew graph.edges) }
        ensures node_room { IfOk result (λ graph. nodes ≤ graph.nodes.room) }
        ensures edge_room { IfOk result (λ graph. edges ≤ graph.edges.room) }
        ensures err { IfErr result (RefusesEither nodes edges) }
    {
        if edges > MOST {
            return Err(ReserveError::TooGreat);
        }
        let nodes = BoundedMap::with_capacity(alloc, nodes)?;
        let edges = BoundedMap::with_capacity(alloc, edges)?;
        let mut out = Links::new(alloc);
        let mut into = Links::new(alloc);
        cover_both(&mut out, &mut into, nodes.capacity(), edges.capacity())?;
        Ok(Graph {
            nodes,
            edges,
            out,
            into,
        })
    }

    /// Reserves room for `additional` more nodes: adding them can't fail then, and the capacity stays.
    /// It takes constant time if there is room already, else time linear in the capacity.
    ///
    /// It fails with `TooGreat` if more than 4294967294 nodes would be there, counting those whose slots
    /// are retired, and with `Memory` if memory runs out. The graph has the same nodes then.
    ///
    /// ```
    /// let mut graph: Graph<NodeKey, &str, u64> = Graph::new(alloc)?;
    /// graph.reserve_nodes(2)?;
    /// assert!(rt; graph.add_node("a").is_ok());
    /// ```
    #[inline(never)]
    pub fn reserve_nodes(&mut self, additional: usize) -> Result<(), ReserveError>
        ensures makes_room { MakesRoom true self.old.nodes additional (IsOk result) self.new.nodes }
        ensures err { IfErr result (RefusesCapacity (used self.old.nodes + additional)) }
        ensures reuses { additional ≤ map.len self.old.nodes.next → IsOk result }
        ensures in_place { additional ≤ self.old.nodes.room → self.new ≡ self.old }
        ensures edges { self.new.edges ≡ self.old.edges }
        ensures out { SameEdges self.old.out self.new.out }
        ensures into { SameEdges self.old.into self.new.into }
    {
        let node = self.nodes.capacity_for(additional)?;
        cover_both(&mut self.out, &mut self.into, node, self.edges.capacity())?;
        self.nodes.reserve(additional)
    }

    /// Reserves room for `additional` more edges: adding them can't fail then, if their nodes exist,
    /// and the capacity stays. It takes constant time if there is room already, else time linear in the
    /// capacity.
    ///
    /// It fails with `TooGreat` if more than 4294967294 edges would be there, counting those whose slots
    /// are retired, and with `Memory` if memory runs out. The graph has the same edges then.
    ///
    /// ```
    /// let mut graph: Graph<NodeKey, &str, u64> = Graph::new(alloc)?;
    /// graph.reserve_edges(2)?;
    /// let a = graph.add_node("a")?;
    /// assert!(rt; graph.add_edge(a, a, 5).is_ok());
    /// ```
    #[inline(never)]
    pub fn reserve_edges(&mut self, additional: usize) -> Result<(), ReserveError>
        ensures makes_room { MakesRoom true self.old.edges additional (IsOk result) self.new.edges }
        ensures err { IfErr result (RefusesCapacity (used self.old.edges + additional)) }
        ensures reuses { additional ≤ map.len self.old.edges.next → IsOk result }
        ensures in_place { additional ≤ self.old.edges.room → self.new ≡ self.old }
        ensures nodes { self.new.nodes ≡ self.old.nodes }
        ensures out { SameEdges self.old.out self.new.out }
        ensures into { SameEdges self.old.into self.new.into }
    {
        let edge = self.edges.capacity_for(additional)?;
        cover_both(&mut self.out, &mut self.into, self.nodes.capacity(), edge)?;
        self.edges.reserve(additional)
    }

    /// Returns how many nodes there can be before more room is made, in constant time. It counts the
    /// slots that are retired.
    ///
    /// ```
    /// let graph: Graph<NodeKey, &str, u64> = Graph::with_capacity_and_key(alloc, 2, 4)?;
    /// assert!(rt; graph.node_capacity() >= 2);
    /// ```
    pub fn node_capacity(&self) -> usize
        ensures value { result ≡ bound self.now.nodes }
        ensures exact { result ≡ used self.now.nodes + self.now.nodes.room }
        ensures valid { IsContent true self.now.nodes }
    {
        self.nodes.capacity()
    }

    /// Returns how many edges there can be before more room is made, in constant time. It counts the
    /// slots that are retired.
    ///
    /// ```
    /// let graph: Graph<NodeKey, &str, u64> = Graph::with_capacity_and_key(alloc, 2, 4)?;
    /// assert!(rt; graph.edge_capacity() >= 4);
    /// ```
    pub fn edge_capacity(&self) -> usize
        ensures value { result ≡ bound self.now.edges }
        ensures exact { result ≡ used self.now.edges + self.now.edges.room }
        ensures valid { IsContent true self.now.edges }
    {
        self.edges.capacity()
    }

    /// Returns the number of nodes, in constant time.
    ///
    /// ```
    /// let mut graph: Graph<NodeKey, &str, u64> = Graph::new(alloc)?;
    /// let a = graph.add_node("a")?;
    /// assert_eq!(rt; graph.node_count(), 1);
    /// graph.remove_node(a);
    /// assert_eq!(rt; graph.node_count(), 0);
    /// ```
    pub fn node_count(&self) -> usize
        ensures value { result ≡ map.len self.now.nodes.live }
        ensures joined { IsJoined self.now }
    {
        self.nodes.len()
    }

    /// Returns whether there is no node, and so no edge, in constant time.
    ///
    /// ```
    /// let graph: Graph<NodeKey, &str, u64> = Graph::new(alloc)?;
    /// assert!(rt; graph.is_empty());
    /// ```
    pub fn is_empty(&self) -> bool
        ensures nodes { IsTrue result ↔ (map.len self.now.nodes.live ≡ 0) }
        ensures edges { IsTrue result → map.len self.now.edges.live ≡ 0 }
    {
        self.node_count() == 0
    }

    /// Returns the number of edges, in constant time.
    ///
    /// ```
    /// let mut graph: Graph<NodeKey, &str, u64> = Graph::new(alloc)?;
    /// let a = graph.add_node("a")?;
    /// graph.add_edge(a, a, 5)?;
    /// assert_eq!(rt; graph.edge_count(), 1);
    /// graph.remove_node(a);
    /// assert_eq!(rt; graph.edge_count(), 0);
    /// ```
    pub fn edge_count(&self) -> usize
        ensures value { result ≡ map.len self.now.edges.live }
        ensures joined { IsJoined self.now }
    {
        self.edges.len()
    }

    /// Returns whether a node exists, in constant time.
    ///
    /// ```
    /// let mut graph: Graph<NodeKey, &str, u64> = Graph::new(alloc)?;
    /// let a = graph.add_node("a")?;
    /// assert!(rt; graph.contains_node(a));
    /// graph.remove_node(a);
    /// assert!(rt; !graph.contains_node(a));
    /// ```
    pub fn contains_node(&self, node: K) -> bool
        ensures { result ≡ map.contains_key self.now.nodes.live (K.data_of node) }
    {
        self.nodes.contains_key(node)
    }

    /// Returns whether an edge exists, in constant time.
    ///
    /// ```
    /// let mut graph: Graph<NodeKey, &str, u64> = Graph::new(alloc)?;
    /// let a = graph.add_node("a")?;
    /// let edge = graph.add_edge(a, a, 5)?;
    /// assert!(rt; graph.contains_edge(edge));
    /// graph.remove_node(a);
    /// assert!(rt; !graph.contains_edge(edge));
    /// ```
    pub fn contains_edge(&self, edge: EdgeKey) -> bool
        ensures { result ≡ map.contains_key self.now.edges.live edge }
    {
        self.edges.contains_key(edge)
    }

    /// Returns an iterator over the keys of the nodes, by ascending index.
    ///
    /// All its steps together read each slot once.
    ///
    /// ```
    /// let mut graph: Graph<NodeKey, &str, u64> = Graph::new(alloc)?;
    /// let a = graph.add_node("a")?;
    /// let b = graph.add_node("b")?;
    /// let mut nodes = graph.nodes();
    /// assert_eq!(rt; nodes.next(), Some(a));
    /// assert_eq!(rt; nodes.next(), Some(b));
    /// assert_eq!(rt; nodes.next(), None);
    /// ```
    pub fn nodes(&self) -> Keys<'_, K, N>
        ensures { result ≡ map.keys self.now.nodes.live }
    {
        self.nodes.keys()
    }

    /// Returns an iterator over the keys of the edges, by ascending index.
    ///
    /// All its steps together read each slot once.
    ///
    /// ```
    /// let mut graph: Graph<NodeKey, &str, u64> = Graph::new(alloc)?;
    /// let a = graph.add_node("a")?;
    /// let edge = graph.add_edge(a, a, 5)?;
    /// let mut edges = graph.edges();
    /// assert_eq!(rt; edges.next(), Some(edge));
    /// assert_eq!(rt; edges.next(), None);
    /// ```
    pub fn edges(&self) -> Keys<'_, EdgeKey, Edge<E>>
        ensures { result ≡ map.keys self.now.edges.live }
    {
        self.edges.keys()
    }
}
