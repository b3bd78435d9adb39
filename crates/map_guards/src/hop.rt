//! Guards of `HopSlotMap`, whose wrong bodies are in `slotmap_hop`.
#![tactic(auto, using(slotmap_core::proofs::ForCallers::Callers::keys))]

pub mod blocks;
pub mod iter;
pub mod lists;
