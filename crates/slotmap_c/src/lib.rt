//! The calls of `SlotMap` and `SecondaryMap` for C, as `c/slotmap.h` declares them.
//!
//! A handle is open, with a map from keys to numbers of 64 bits, or closed. A closed handle reads as
//! an empty map. A key crosses as the number that `as_ffi` returns. A call that can fail returns a
//! status, and writes nothing where it fails.
#![tactic(auto)]

mod guards;
mod handle;
mod holder;
mod iterating;
mod keyed;
mod keys;
mod side;
mod status;
mod unboxed;
mod version;
mod whole;
