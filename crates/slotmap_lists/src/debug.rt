//! What several lists print with `{:?}`: the values of each, in their order.

use crate::StableLists;
use slotmap::Key;
use std::fmt;

// One of the lists.
#[derive(Drop)]
struct OneList<'a, K, T> {
    lists: &'a StableLists<K, T>,
    list: usize,
}

impl<'a, K: Key, T: fmt::Debug + Drop> fmt::Debug for OneList<'a, K, T> {
    fn fmt<W: fmt::Write>(&self, f: &mut fmt::Formatter<W>) -> fmt::Result {
        let mut values = f.debug_list();
        if let Some(elements) = self.lists.iter(self.list) {
            for (_, value) in elements {
                values.entry(value);
            }
        }
        values.finish()
    }
}

/// The values of each list from front to back, as `[[2, 1], []]`.
impl<K: Key, T: fmt::Debug + Drop> fmt::Debug for StableLists<K, T> {
    fn fmt<W: fmt::Write>(&self, f: &mut fmt::Formatter<W>) -> fmt::Result {
        let mut lists = f.debug_list();
        for list in 0..self.lists() {
            lists.entry(&OneList { lists: self, list });
        }
        lists.finish()
    }
}
