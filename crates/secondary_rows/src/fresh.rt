//! New maps.

use slotmap::{DefaultKey, ReserveError, SecondaryMap, SparseSecondaryMap};
use std::alloc::Global;

/// A map that a run is made on.
pub trait Fresh: Sized {
    /// `new`.
    fn fresh(alloc: Global) -> Result<Self, ReserveError>;
}

impl<V: Drop> Fresh for SecondaryMap<DefaultKey, V> {
    fn fresh(alloc: Global) -> Result<Self, ReserveError> {
        SecondaryMap::new(alloc)
    }
}

impl<V: Drop> Fresh for SparseSecondaryMap<DefaultKey, V> {
    fn fresh(alloc: Global) -> Result<Self, ReserveError> {
        SparseSecondaryMap::new(alloc)
    }
}
