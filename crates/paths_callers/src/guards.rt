//! Guards of shortest paths: what a user relies on, in other words than the contract of a call, and proved from that one
//! alone.
//!
//! The comment of a clause names what it needs of the contract, and the wrong bodies that it refuses.

ghost use Rattle.std.specs.FinMap as map;
ghost use Rattle.std.specs.Prelude.{◌≡◌, ◌≢◌, ℕ, ◌*◌, ◌<◌, ◌≤◌, ◌^◌, Some, None, IfOk, IfErr, true};
ghost use Rattle.slotmap.specs.Words.{Key as KeyOf, IsLive, contains_key, get};
ghost use Rattle.slotmap_paths.specs.Costs.{IsSum};
ghost use Rattle.slotmap_paths.specs.declared.PathError.TheVariants.{TooLong};
ghost use Rattle.slotmap_paths.specs.declared.Reached.{Reached as ReachedOf};

use slotmap::Key;
use slotmap_graph::Graph;
use slotmap_paths::{Costs, PathError, Paths};
use std::alloc::Global;

/// Guards of `shortest_paths`.
pub fn shortest_paths<K: Key, N: Drop, E: Drop>(
    alloc: Global,
    graph: &Graph<K, N, E>,
    from: K,
    costs: &Costs,
) -> Result<Paths<K>, PathError>
    // No path costs less than a distance.
    // Refuses `offer_leaves_out_dear_edges`: `least` and `start` of `shortest_paths`.
    ensures no_path_costs_less { IfOk result (λ paths. (x : KeyOf) (r : ReachedOf) (sum : ℕ) → get paths.pairs x ≡ Some r
        → IsSum graph.now.edges.live costs.now.pairs (K.data_of from) x sum → r.distance ≤ sum) }
    // Where no node was found, no path leads.
    // Refuses `offer_leaves_out_dear_edges`: `least` of `shortest_paths`.
    ensures no_path_leads_elsewhere { IfOk result (λ paths. (x : KeyOf) (sum : ℕ) → IsLive graph.now.nodes (K.data_of from)
        → get paths.pairs x ≡ None → IsSum graph.now.edges.live costs.now.pairs (K.data_of from) x sum → ⊥) }
    // Only the start was reached by no edge.
    // Refuses `visit_forgets_the_edge`: `by` of `shortest_paths`.
    ensures only_the_start_has_no_edge { IfOk result (λ paths. (x : KeyOf) (r : ReachedOf) → get paths.pairs x ≡ Some r → r.by ≡ None → x ≡ K.data_of from) }
    // What was found are nodes.
    // Holds by `live` of `shortest_paths`.
    ensures nodes_alone_are_found { IfOk result (λ paths. (x : KeyOf) → contains_key paths.pairs x ≡ true → IsLive graph.now.nodes x) }
    // It fails with `TooLong` only where a path is.
    // Holds by `err` of `shortest_paths`.
    ensures too_long_where_a_path_is { IfErr result (λ error. error ≡ TooLong
        → (x : KeyOf) × (sum : ℕ) × IsSum graph.now.edges.live costs.now.pairs (K.data_of from) x sum × (2 ^ 64 ≤ sum)) }
    // Where the greatest cost times the number of nodes fits 64 bits, no path is too long.
    // Holds by `err` of `shortest_paths`.
    ensures small_costs_are_never_too_long { (most : ℕ) → ((k : KeyOf) (cost : ℕ) → get costs.now.pairs k ≡ Some cost → cost ≤ most)
        → map.len graph.now.nodes.live * most < 2 ^ 64 → IfErr result (λ error. error ≢ TooLong) }
{
    slotmap_paths::shortest_paths(alloc, graph, from, costs)
}
