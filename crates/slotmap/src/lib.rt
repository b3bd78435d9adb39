//! Maps that store values under keys of their own, and maps from those keys to more values: all
//! names in one place.
//!
//! - [`SlotMap`] stores values under keys that it makes. Its iterators are in [`basic`].
//! - [`DenseSlotMap`] does the same, with the values packed in one vector. Its iterators are in
//!   [`dense`].
//! - [`HopSlotMap`] does the same, with iterators that skip vacant slots. They are in [`hop`].
//! - [`SecondaryMap`] holds more values under such keys, for most of them. Its iterators and
//!   entries are in [`secondary`].
//! - [`SparseSecondaryMap`] does the same for few of them. Its iterators and entries are in
//!   [`sparse_secondary`].
//!
//! Keys, errors, lists of slots and the traits of the maps are from `slotmap_core`, the JSON of keys
//! and of lists of slots from `slotmap_json`, runs of commands from `slotmap_run`.
#![tactic(auto)]

/// The iterators of [`SlotMap`].
pub mod basic {
    pub use slotmap_basic::{Drain, IntoIter, Iter, Keys, SlotMap, Values};
}

/// The iterators of [`DenseSlotMap`].
pub mod dense {
    pub use slotmap_dense::{
        DenseSlotMap, Drain, IntoIter, Iter, IterMut, Keys, Values, ValuesMut,
    };
}

/// The iterators of [`HopSlotMap`].
pub mod hop {
    pub use slotmap_hop::{Drain, HopSlotMap, IntoIter, Iter, Keys, Values};
}

/// The iterators and the entries of [`SecondaryMap`].
pub mod secondary {
    pub use slotmap_secondary::{
        Drain, Entry, IntoIter, Iter, Keys, OccupiedEntry, SecondaryMap, VacantEntry, Values,
    };
}

/// The iterators and the entries of [`SparseSecondaryMap`], and its default hasher.
pub mod sparse_secondary {
    pub use slotmap_sparse::{
        DefaultHasher, Drain, Entry, IntoIter, Iter, Keys, OccupiedEntry, SparseSecondaryMap,
        VacantEntry, Values,
    };
}

pub use slotmap_basic::SlotMap;
pub use slotmap_core::commands::{Command, DetachCommand, Reply};
pub use slotmap_core::errors::{
    InsertError, InsertWithError, JsonError, OutOfMemory, PutError, ReattachError, ReserveError,
    SlotsError, TryInsertError,
};
pub use slotmap_core::joined::{JoinedCommand, JoinedDetachCommand, JoinedReply};
pub use slotmap_core::keys::{DefaultKey, Key, KeyData, NodeKey, is_older_version};
pub use slotmap_core::primary::{Detaching, Primary};
pub use slotmap_core::secondary::{NoEntry, OrPut, Secondary, SecondaryCommand, SecondaryReply};
pub use slotmap_core::serial::{SlotRecord, check_slots};
pub use slotmap_core::sure::drop_may_unwind;
pub use slotmap_dense::DenseSlotMap;
pub use slotmap_hop::HopSlotMap;
pub use slotmap_json::{
    key_from_value, key_to_value, slot_from_value, slots_from_value, slots_to_value,
};
pub use slotmap_run::joined::{run_joined, run_joined_detaching};
pub use slotmap_run::primary::{run, run_detaching, run_detaching_new, run_new};
pub use slotmap_run::secondary::run_secondary;
pub use slotmap_secondary::SecondaryMap;
pub use slotmap_sparse::SparseSecondaryMap;
