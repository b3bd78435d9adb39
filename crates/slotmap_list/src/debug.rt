//! What a list prints with `{:?}`: its values, in their order.

use crate::{IntoIter, StableList};
use slotmap::Key;
use std::fmt;

/// The values from front to back, as `[2, 1]`.
impl<K: Key, T: fmt::Debug + Drop> fmt::Debug for StableList<K, T> {
    fn fmt<W: fmt::Write>(&self, f: &mut fmt::Formatter<W>) -> fmt::Result {
        f.debug_list().entries(self.values()).finish()
    }
}

/// The values that are left, as `IntoIter([2, 1])`.
impl<K: Key, T: fmt::Debug + Drop> fmt::Debug for IntoIter<K, T> {
    fn fmt<W: fmt::Write>(&self, f: &mut fmt::Formatter<W>) -> fmt::Result {
        f.debug_tuple("IntoIter").field(&self.list).finish()
    }
}
