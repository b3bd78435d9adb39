//! Shortest paths, a depth first order and the strongly connected components of a graph.
//!
//! The graph is a [`Graph`] of `slotmap_graph`. For [`shortest_paths`] its edges have costs. These are in
//! a table beside it, a `SecondaryMap`, so one graph can have several: one for time, one for money. An
//! edge without a cost is closed. What is proved, from the contracts of the graph, of the table and of a
//! `Scheduler` alone:
//!
//! - Each node that it finds is reached by a path whose edges cost its distance in all.
//! - No path costs less, and a node to which a path leads is found.
//! - The last edge of a node begins at a node that was found. The distance of that node and the cost of
//!   the edge add up to the node's distance. One after the other, last edges lead back to the start, and
//!   [`path_to`] returns the edges of a shortest path.
//!
//! [`post_order`] and [`kosaraju_scc`] ask for no costs. What is proved of them, from the contract of the
//! graph alone:
//!
//! - The order has each node once. Where a path leads from a node to one behind it, a path leads back,
//!   or one leads to a node that is behind both. Without a cycle, each edge begins behind the node where
//!   it ends.
//! - Each node is in one component, once. Two nodes are in the same one if and only if a path leads from
//!   each of them to the other. No path leads from a component to one before it.
//!
//! ```
//! let mut graph: Graph<NodeKey, &str, u64> = Graph::new(alloc)?;
//! let a = graph.add_node("a")?;
//! let b = graph.add_node("b")?;
//! let slow = graph.add_edge(a, b, 5)?;
//! let fast = graph.add_edge(a, b, 6)?;
//! let mut costs = SecondaryMap::new(alloc)?;
//! costs.insert(slow, 30)?;
//! costs.insert(fast, 20)?;
//! let paths = shortest_paths(alloc, &graph, a, &costs)?;
//! assert_eq!(rt; paths[b], Reached { distance: 20, by: Some(fast) });
//! assert_eq!(rt; path_to(alloc, &graph, &paths, b)?.unwrap().as_slice(), [fast].as_slice());
//! ```
#![tactic(auto, using(slotmap::proofs::Callers::keys))]

ghost use Rattle.std.specs.Prelude.{◌≡◌, ℕ, ◌≤◌, Some, IfOk, IfErr, true};
ghost use Rattle.std.specs.FinMap as map;
ghost use Rattle.slotmap.specs.Words.{Key as KeyOf, IsBeside, IsLive, contains_key, get};
ghost use Rattle.slotmap_graph.specs.Search.{Leads};
ghost use Rattle.slotmap_paths.specs.Costs.{AreTraced, ComesBy, HaveCosts, IsSum, RefusesPaths};
ghost use Rattle.slotmap_paths.specs.declared.Reached.{Reached as ReachedOf};

mod depth;
mod kosaraju;
mod path;
mod search;

use crate::search::{new_search, search_from};
pub use depth::{post_order, post_order_from};
pub use kosaraju::kosaraju_scc;
pub use path::path_to;
use slotmap::{Key, SecondaryMap};
use slotmap_graph::{EdgeKey, Graph};
use std::alloc::Global;
use thiserror::Error;

/// How a node was reached: its distance from the start, and the last edge of a path of that length. The
/// start itself has no edge.
///
/// ```
/// let start = Reached { distance: 0, by: None };
/// assert!(rt; start.by.is_none());
/// ```
#[derive(Clone, Copy, Debug, Eq, PartialEq)]
pub struct Reached {
    /// What the edges of a shortest path cost in all.
    pub distance: u64,
    /// The last edge of such a path, or `None` at the start.
    pub by: Option<EdgeKey>,
}

/// The nodes that were found, each with its distance and its last edge.
pub type Paths<K> = SecondaryMap<K, Reached>;

/// The cost of each edge. One without a cost is closed.
pub type Costs = SecondaryMap<EdgeKey, u64>;

/// The paths from a node were not found.
#[derive(Clone, Copy, Debug, Drop, Eq, Error, PartialEq)]
pub enum PathError {
    /// A path from the start costs more than `u64::MAX` in all.
    #[error("a path is too long")]
    TooLong,
    /// An allocation failed, or more nodes wait than a `Scheduler` holds.
    #[error("out of memory")]
    Memory,
}

/// Returns each node to which a path leads from a node, with the least cost of such a path and its last
/// edge. [`path_to`] then returns the edges of the path.
///
/// A path goes along edges that have a cost in the table. The start itself is at distance 0, by no edge.
/// If it doesn't exist, no node is found. The call fails with `TooLong` if it comes to a path that costs
/// more than `u64::MAX`, and that path has no more edges than there are nodes: small costs never fail.
/// It fails with `Memory` if memory runs out, or if more nodes wait than a `Scheduler` holds.
///
/// Nodes wait in a `Scheduler`, by their distance. So it takes time logarithmic in their number for each
/// edge from a node that was found, and time linear in the largest index of such a node: what was found
/// is in a `SecondaryMap`.
///
/// ```
/// let mut graph: Graph<NodeKey, &str, u64> = Graph::new(alloc)?;
/// let a = graph.add_node("a")?;
/// let b = graph.add_node("b")?;
/// let c = graph.add_node("c")?;
/// let far = graph.add_edge(a, c, 5)?;
/// let near = graph.add_edge(a, b, 6)?;
/// let last = graph.add_edge(b, c, 7)?;
/// let mut costs = SecondaryMap::new(alloc)?;
/// costs.insert(far, 90)?;
/// costs.insert(near, 30)?;
/// costs.insert(last, 40)?;
/// let paths = shortest_paths(alloc, &graph, a, &costs)?;
/// assert_eq!(rt; paths[a], Reached { distance: 0, by: None });
/// assert_eq!(rt; paths[b], Reached { distance: 30, by: Some(near) });
/// assert_eq!(rt; paths[c], Reached { distance: 70, by: Some(last) });
///
/// costs.remove(near);
/// let paths = shortest_paths(alloc, &graph, a, &costs)?;
/// assert!(rt; !paths.contains_key(b));
/// assert_eq!(rt; paths[c].distance, 90);
///
/// costs.insert(near, u64::MAX)?;
/// costs.remove(far);
/// assert_eq!(rt; shortest_paths(alloc, &graph, a, &costs).err(), Some(PathError::TooLong));
/// ```
pub fn shortest_paths<K: Key, N: Drop, E: Drop>(
    alloc: Global,
    graph: &Graph<K, N, E>,
    from: K,
    costs: &Costs,
) -> Result<Paths<K>, PathError>
    // Each distance is the sum of a path, and no path has a lesser sum.
    ensures sum { IfOk result (λ paths. (x : KeyOf) (r : ReachedOf) → get paths.pairs x ≡ Some r
        → IsSum graph.now.edges.live costs.now.pairs (K.data_of from) x r.distance) }
    ensures least { IfOk result (λ paths. (x : KeyOf) (sum : ℕ) → IsLive graph.now.nodes (K.data_of from) → IsSum graph.now.edges.live costs.now.pairs (K.data_of from) x sum
        → (r : ReachedOf) × (get paths.pairs x ≡ Some r) × (r.distance ≤ sum)) }

    // The last edge comes from a node that was found, and its cost leads to the distance.
    ensures by { IfOk result (λ paths. (x : KeyOf) (r : ReachedOf) → get paths.pairs x ≡ Some r
        → ComesBy graph.now.edges.live costs.now.pairs (K.data_of from) paths.pairs x r) }

    // The last edges lead back to the start, one after the other.
    ensures traced { IfOk result (λ paths. AreTraced graph.now.edges.live costs.now.pairs (K.data_of from) paths.pairs) }

    // Which nodes are found: where each edge has a cost, those that are reachable.
    ensures leads { IfOk result (λ paths. (x : KeyOf) (r : ReachedOf) → get paths.pairs x ≡ Some r → Leads graph.now.edges.live (K.data_of from) x) }
    ensures all { IfOk result (λ paths. HaveCosts graph.now.edges.live costs.now.pairs → (x : KeyOf) → IsLive graph.now.nodes (K.data_of from)
        → Leads graph.now.edges.live (K.data_of from) x → contains_key paths.pairs x ≡ true) }
    ensures live { IfOk result (λ paths. IsBeside graph.now.nodes paths.pairs) }
    ensures start { IfOk result (λ paths. (x : KeyOf) (r : ReachedOf) → get paths.pairs x ≡ Some r → IsLive graph.now.nodes (K.data_of from)) }

    // Why the call failed.
    ensures err { IfErr result (RefusesPaths graph.now.edges.live costs.now.pairs (map.len graph.now.nodes.live) (K.data_of from)) }
{
    let mut search = new_search(alloc)?;
    search_from(graph, costs, from, &mut search)?;
    Ok(search.into_paths())
}
