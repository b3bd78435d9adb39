//! An order of the nodes in which each edge goes forward.

ghost use Rattle.std.specs.Prelude.{◌≡◌, ◌≢◌, ◌-◌, ◌+◌, ◌<◌, ◌≤◌, ◌++◌, [], ◌∷◌, ℕ, Some, OnOk, IfOk, IfErr, IfSome, IfNone};
ghost use Rattle.std.specs.Prelude.{true, nat_eq, if◌then◌else◌, length, slice_index_or, take, map as list_map};
ghost use Rattle.std.specs.FinMap as map;
ghost use Rattle.slotmap.specs.Words.{Key as KeyOf, IsContent, IsLive, get, contains_key};
ghost use Rattle.slotmap_bounded.specs.KeyLists.{times};
ghost use Rattle.slotmap_graph.specs.TopologicalOrder.{AllPassed, ClosesCycle, ComesFromLeft, Counting, GoesForward, HasCycle, IsLeft, RefusesOrder, Sorting, edge_in, edges_out};
ghost use Rattle.slotmap_graph.specs.Parts.{IsJoined, PutsAlone, edges_at};

use crate::search::{mark, none_seen};
use crate::{EdgeKey, Graph};
use slotmap::{Key, SecondaryMap};
use slotmap_bounded::outer;
use std::alloc::{AllocError, Global};
use thiserror::Error;

/// There is no order of the nodes in which each edge goes forward, or memory ran out.
///
/// ```
/// assert_eq!(rt; format!(in alloc; "{}", OrderError::Memory)?.as_str(), "out of memory");
/// ```
#[derive(Clone, Copy, Debug, Drop, Eq, Error, PartialEq)]
pub enum OrderError {
    /// From the end of this edge a path leads back to its start.
    #[error("the graph has a cycle")]
    Cycle(EdgeKey),
    /// An allocation failed.
    #[error("out of memory")]
    Memory,
}

impl OrderError {
    /// Returns the edge that closes a cycle, or `None` if memory ran out.
    ///
    /// ```
    /// let mut graph: Graph<NodeKey, &str, u64> = Graph::new(alloc)?;
    /// let a = graph.add_node("a")?;
    /// let own = graph.add_edge(a, a, 5)?;
    /// if let Err(error) = graph.topological_order(alloc) {
    ///     assert_eq!(rt; error.edge(), Some(own));
    /// }
    /// ```
    pub fn edge(&self) -> Option<EdgeKey>
        ensures { result ≡ edge_in self.now }
    {
        match self {
            OrderError::Cycle(edge) => Some(*edge),
            OrderError::Memory => None,
        }
    }
}

impl From<AllocError> for OrderError {
    ghost use Rattle.slotmap_graph.specs.declared.order.OrderError.TheVariants as order;

    ghost from_gives = { λ _ error. error ≡ order.Memory };

    fn from(_error: AllocError) -> OrderError {
        OrderError::Memory
    }
}

// How many edges into each node haven't been passed yet.
type Counts<K> = SecondaryMap<K, usize>;

// No node has been counted yet.
fn no_counts<K: Key>(alloc: Global) -> Result<Counts<K>, AllocError>
    ensures { IfOk result (λ counts. counts.pairs ≡ map.empty) }
{
    match SecondaryMap::new(alloc) {
        Ok(counts) => Ok(counts),
        Err(_) => Err(AllocError),
    }
}

// Counts a node, and adds it to those that were found if no edge leads to it.
fn count<K: Key>(
    found: &mut Vec<K>,
    counts: &mut Counts<K>,
    node: K,
    degree: usize,
) -> Result<(), AllocError>
    requires { PutsAlone counts.old.pairs (K.data_of node) }
    ensures here { OnOk result (get counts.new.pairs (K.data_of node) ≡ Some degree) }
    ensures others { (q : KeyOf) → q ≢ K.data_of node → get counts.new.pairs q ≡ get counts.old.pairs q }
    ensures found { OnOk result (list_map K.data_of found.new.items ≡ (if nat_eq degree 0 then list_map K.data_of found.old.items ++ K.data_of node ∷ [] else list_map K.data_of found.old.items)) }
{
    if degree == 0 {
        found.push(node)?;
    }
    match counts.insert(node, degree) {
        Ok(_) => Ok(()),
        Err(_) => Err(AllocError),
    }
}

// Lowers the count of a node, and returns what it was.
fn lower<K: Key>(counts: &mut Counts<K>, node: K) -> usize
    requires { (n : ℕ) × (get counts.old.pairs (K.data_of node) ≡ Some n) × (0 < n) }
    ensures was { get counts.old.pairs (K.data_of node) ≡ Some result }
    ensures here { (n : ℕ) → get counts.old.pairs (K.data_of node) ≡ Some n → get counts.new.pairs (K.data_of node) ≡ Some (n - 1) }
    ensures others { (q : KeyOf) → q ≢ K.data_of node → get counts.new.pairs q ≡ get counts.old.pairs q }
{
    let count = &mut counts[node];
    let left = *count;
    *count = left - 1;
    left
}

// Passes an edge to a node, and adds the node to those that were found if it was the last one.
fn pass<K: Key>(found: &mut Vec<K>, counts: &mut Counts<K>, to: K) -> Result<(), AllocError>
    requires { (n : ℕ) × (get counts.old.pairs (K.data_of to) ≡ Some n) × (0 < n) }
    ensures here { (n : ℕ) → get counts.old.pairs (K.data_of to) ≡ Some n → get counts.new.pairs (K.data_of to) ≡ Some (n - 1) }
    ensures others { (q : KeyOf) → q ≢ K.data_of to → get counts.new.pairs q ≡ get counts.old.pairs q }
    ensures found { OnOk result ((n : ℕ) → get counts.old.pairs (K.data_of to) ≡ Some n
        → list_map K.data_of found.new.items ≡ (if nat_eq n 1 then list_map K.data_of found.old.items ++ K.data_of to ∷ [] else list_map K.data_of found.old.items)) }
{
    if lower(counts, to) == 1 {
        found.push(to)?;
    }
    Ok(())
}

impl<K: Key, N: Drop, E: Drop> Graph<K, N, E> {
    // Counts all nodes, and finds those to which no edge leads.
    fn count_all(&self, found: &mut Vec<K>, counts: &mut Counts<K>) -> Result<(), AllocError>
        requires valid { IsContent true self.now.nodes }
        requires none { counts.old.pairs ≡ map.empty }
        requires empty { found.old.items ≡ [] }
        ensures { OnOk result (Counting self.now counts.new.pairs (list_map K.data_of found.new.items) (map.keys self.now.nodes.live)) }
    {
        for node in self.nodes() {
            let degree = self.in_degree(node);
            count(found, counts, node, degree)?;
        }
        Ok(())
    }

    // Passes the outgoing edges of a node, the one at this index of those that were found.
    fn pass_edges(
        &self,
        found: &mut Vec<K>,
        counts: &mut Counts<K>,
        at: usize,
        node: K,
    ) -> Result<(), AllocError>
        requires within { at < length (list_map K.data_of found.old.items) }
        requires next { K.data_of node ≡ slice_index_or (list_map K.data_of found.old.items) at (K.data_of node) }
        requires sorting { Sorting self.now counts.old.pairs (list_map K.data_of found.old.items) (edges_out self.now.out (take at (list_map K.data_of found.old.items))) }
        ensures { OnOk result (Sorting self.now counts.new.pairs (list_map K.data_of found.new.items) (edges_out self.now.out (take (at + 1) (list_map K.data_of found.new.items)))) }
    {
        for edge in self.edges_from(node) {
            pass(found, counts, outer(self.target(edge)))?;
        }
        Ok(())
    }

    // A node that wasn't found, if there is one.
    fn first_left(&self, counts: &Counts<K>) -> Option<K>
        requires { AllPassed self.now counts.now.pairs }
        ensures some { IfSome result (λ node. IsLeft self.now counts.now.pairs (K.data_of node)) }
        ensures none { IfNone result ((x : KeyOf) → IsLive self.now.nodes x → get counts.now.pairs x ≡ Some 0) }
    {
        for node in self.nodes() {
            if counts[node] > 0 {
                return Some(node);
            }
        }
        None
    }

    // The first edge into a node from one that wasn't found. There is one if the node wasn't found.
    fn edge_from_left(&self, counts: &Counts<K>, node: K) -> Option<EdgeKey>
        requires joined { IsJoined self.now }
        requires passed { AllPassed self.now counts.now.pairs }
        ensures some { IfSome result (λ edge. ComesFromLeft self.now counts.now.pairs (K.data_of node) edge) }
        ensures none { IfNone result (IsLeft self.now counts.now.pairs (K.data_of node) → ⊥) }
    {
        for edge in self.edges_to(node) {
            if counts[outer(self.source(edge))] > 0 {
                return Some(edge);
            }
        }
        None
    }

    // An edge that closes a cycle: back from a node that wasn't found, until one comes again.
    fn closing_edge(
        &self,
        alloc: Global,
        counts: &Counts<K>,
        start: K,
    ) -> Result<EdgeKey, AllocError>
        requires valid { IsContent true self.now.nodes }
        requires joined { IsJoined self.now }
        requires passed { AllPassed self.now counts.now.pairs }
        requires left { IsLeft self.now counts.now.pairs (K.data_of start) }
        ensures { IfOk result (ClosesCycle self.now.edges.live) }
    {
        let mut seen = none_seen(alloc)?;
        let mut passed = Vec::new(alloc);
        let mut node = start;
        loop {
            mark(&mut passed, &mut seen, node)?;
            let edge = self.edge_from_left(counts, node).unwrap();
            node = outer(self.source(edge));
            if seen.contains_key(node) {
                return Ok(edge);
            }
        }
    }

    /// Returns all nodes, each once, in an order in which each edge goes forward.
    ///
    /// It takes time linear in the number of slots of nodes and of edges. It fails with `Memory` if
    /// memory runs out, and else with `Cycle` if there is no such order. That error holds an edge from
    /// whose end a path leads back to its start.
    ///
    /// ```
    /// let mut graph: Graph<NodeKey, &str, u64> = Graph::new(alloc)?;
    /// let a = graph.add_node("a")?;
    /// let b = graph.add_node("b")?;
    /// graph.add_edge(b, a, 5)?;
    /// assert_eq!(rt; graph.topological_order(alloc)?.as_slice(), [b, a].as_slice());
    ///
    /// let own = graph.add_edge(a, a, 6)?;
    /// assert_eq!(rt; graph.topological_order(alloc).err(), Some(OrderError::Cycle(own)));
    /// ```
    pub fn topological_order(&self, alloc: Global) -> Result<Vec<K>, OrderError>
        ensures once { IfOk result (λ found. (x : KeyOf) → times x (list_map K.data_of found.items) ≡ (if map.contains_key self.now.nodes.live x then 1 else 0)) }
        ensures count { IfOk result (λ found. length found.items ≡ map.len self.now.nodes.live) }
        ensures forward { IfOk result (λ found. GoesForward self.now.edges.live (list_map K.data_of found.items)) }
        ensures acyclic { IfOk result (λ found. HasCycle self.now.edges.live → ⊥) }
        ensures err { IfErr result (RefusesOrder self.now.edges.live) }
    {
        let mut found = Vec::with_capacity(alloc, self.nodes.len())?;
        let mut counts = no_counts(alloc)?;
        self.count_all(&mut found, &mut counts)?;
        let mut at = 0;
        while at < found.len() {
            let node = found[at];
            self.pass_edges(&mut found, &mut counts, at, node)?;
            at += 1;
        }
        match self.first_left(&counts) {
            None => Ok(found),
            Some(node) => Err(OrderError::Cycle(self.closing_edge(alloc, &counts, node)?)),
        }
    }
}
