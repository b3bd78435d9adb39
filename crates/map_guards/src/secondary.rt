//! Guards of `SecondaryMap`, whose wrong bodies are in `slotmap_secondary`.
#![tactic(auto, using(slotmap_core::proofs::ForCallers::SecondaryCallers::secondary))]

pub mod entries;
pub mod iter;
pub mod lists;
pub mod room;
