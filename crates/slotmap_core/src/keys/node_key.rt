//! A second key type, in a file of its own.
//!
//! To make a key type outside this crate, copy `crates/slotmap_list/src/cursor.rt`, whose imports are
//! those of a crate above.

ghost use Rattle.std.specs.Prelude.{◌≡◌, refl};
ghost use Rattle.slotmap_core.specs.Words.{null_key};

use crate::keys::{Key, KeyData};
use std::marker::Model;

/// A second key type, with the same behavior as `DefaultKey`.
///
/// A key of this type can't be passed to a map of `DefaultKey`, nor the other way round. Rust lacks
/// this type.
///
/// ```
/// let mut map: SlotMap<NodeKey, u64> = SlotMap::with_key(alloc)?;
/// let key: NodeKey = map.insert(5)?;
/// assert_eq!(rt; map.get(key), Some(&5));
/// ```
#[derive(Clone, Copy, PartialEq, Eq, PartialOrd, Ord, Hash, Debug)]
pub struct NodeKey(KeyData);

impl Model for NodeKey {
    ghost use Rattle.slotmap_core.specs.Words.{Key};

    ghost Value = { Key };

    ghost view = { λ k. k.0 };

    ghost inverse = { λ k. record { 0 = k } };
}

impl From<KeyData> for NodeKey {
    ghost from_gives = { λ d k. k ≡ d };

    fn from(data: KeyData) -> NodeKey {
        NodeKey(data)
    }
}

impl Default for NodeKey {
    ghost is_default = { λ k. k ≡ null_key };

    fn default() -> NodeKey {
        NodeKey(KeyData::default())
    }
}

impl Key for NodeKey {
    ghost data_of = { λ k. k };

    ghost of_data = { λ d. d };

    fn null() -> NodeKey {
        NodeKey::default()
    }

    fn is_null(&self) -> bool {
        self.0.idx() == u32::MAX
    }

    fn data(&self) -> KeyData {
        let data = self.0;
        // by the contract of `idx`, the data is within its bounds
        let _ = data.idx();
        data
    }

    ghost from_data = { λ d h. refl };

    ghost from_data_of = { λ k h. refl };

    ghost from_gives_key = { λ d k h. h };

    ghost use Rattle.std.proofs.Common.{sym};
    ghost use Rattle.slotmap_core.specs.Words.{same_keys};

    ghost clone_same = { λ a b h. sym h };

    ghost default_null = { λ k h. h };

    ghost eq_by_data = { same_keys };

    ghost cmp_by_data = { λ a b. refl };

    ghost hash_by_data = { λ k. refl };
}
