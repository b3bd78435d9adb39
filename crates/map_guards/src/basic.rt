//! Guards of `SlotMap`, whose wrong bodies are in `slotmap_basic`.
#![tactic(auto, using(slotmap_core::proofs::ForCallers::Callers::keys))]

pub mod owned;
pub mod room;
pub mod walks;
