//! Callers of the library, each proved only from its contracts.
#![tactic(auto, using(slotmap::proofs::Callers::keys))]

pub mod any_map;
pub mod clones;
pub mod drains;
pub mod exchange;
pub mod fused;
pub mod hops;
pub mod json;
pub mod lookups;
pub mod null_key;
pub mod packed;
pub mod registry;
pub mod retains;
pub mod reuse;
pub mod runs;
pub mod same_keys;
pub mod scheduler;
pub mod side_runs;
pub mod side_table;
pub mod side_writes;
pub mod sparse_table;
pub mod stale;
pub mod strangers;
pub mod told;
pub mod tour;
pub mod walks;
