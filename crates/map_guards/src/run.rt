//! Guards of the runs, whose wrong bodies are in `slotmap_run`.
//!
//! What follows from the laws of the replies is in `slotmap_run/proofs/WrongReplies.antt`.

pub mod later_runs;
pub mod short_lists;
pub mod side_lists;
