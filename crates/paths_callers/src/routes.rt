//! The fastest way between two places.

ghost use Rattle.std.specs.Prelude.{◌≤◌, ℕ, IfOk, IfSome, IfNone};
ghost use Rattle.slotmap.specs.Words.{IsLive};
ghost use Rattle.slotmap_paths.specs.Costs.{AddUp, IsRoute, IsSum};

use slotmap::Key;
use slotmap_graph::{EdgeKey, Graph};
use slotmap_paths::{Costs, PathError, path_to, shortest_paths};
use std::alloc::Global;

/// Returns how long the fastest way between two places takes. It returns `None` if no way leads there, or
/// if the start doesn't exist.
pub fn travel_time<K: Key, N: Drop, E: Drop>(
    alloc: Global,
    roads: &Graph<K, N, E>,
    times: &Costs,
    from: K,
    to: K,
) -> Result<Option<u64>, PathError>
    ensures way { IfOk result (λ found. IfSome found (λ time. IsSum roads.now.edges.live times.now.pairs (K.data_of from) (K.data_of to) time)) }
    ensures fastest { IfOk result (λ found. IfSome found (λ time. (other : ℕ)
        → IsSum roads.now.edges.live times.now.pairs (K.data_of from) (K.data_of to) other → time ≤ other)) }
    ensures none { IfOk result (λ found. IfNone found ((other : ℕ) → IsLive roads.now.nodes (K.data_of from)
        → IsSum roads.now.edges.live times.now.pairs (K.data_of from) (K.data_of to) other → ⊥)) }
{
    let paths = shortest_paths(alloc, roads, from, times)?;
    match paths.get(to) {
        Some(reached) => Ok(Some(reached.distance)),
        None => Ok(None),
    }
}

/// Returns the roads of the fastest way between two places, the first one first, and how long they take in
/// all. It returns `None` if no way leads there, or if the start doesn't exist.
pub fn route<K: Key, N: Drop, E: Drop>(
    alloc: Global,
    roads: &Graph<K, N, E>,
    times: &Costs,
    from: K,
    to: K,
) -> Result<Option<(Vec<EdgeKey>, u64)>, PathError>
    ensures way { IfOk result (λ found. IfSome found (λ route. IsRoute roads.now.edges.live route.0.items (K.data_of from) (K.data_of to))) }
    ensures time { IfOk result (λ found. IfSome found (λ route. AddUp times.now.pairs route.0.items route.1)) }
    ensures fastest { IfOk result (λ found. IfSome found (λ route. (other : ℕ)
        → IsSum roads.now.edges.live times.now.pairs (K.data_of from) (K.data_of to) other → route.1 ≤ other)) }
    ensures none { IfOk result (λ found. IfNone found ((other : ℕ) → IsLive roads.now.nodes (K.data_of from)
        → IsSum roads.now.edges.live times.now.pairs (K.data_of from) (K.data_of to) other → ⊥)) }
{
    let paths = shortest_paths(alloc, roads, from, times)?;
    let Some(reached) = paths.get(to) else {
        return Ok(None);
    };
    match path_to(alloc, roads, &paths, to) {
        Ok(Some(edges)) => Ok(Some((edges, reached.distance))),
        Ok(None) => Ok(None),
        Err(_) => Err(PathError::Memory),
    }
}
