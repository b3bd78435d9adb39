//! Guards of `DenseSlotMap`, whose wrong bodies are in `slotmap_dense`.
#![tactic(auto, using(slotmap_core::proofs::ForCallers::Callers::keys))]

pub mod lends;
pub mod lists;
pub mod owned;
pub mod packed_order;
