//! The slots of `SlotMap` and `DenseSlotMap`, over a layout that says how they lie in memory.
#![tactic(auto)]

pub mod layout;
pub mod slots;
