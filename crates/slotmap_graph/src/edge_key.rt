//! The keys of edges.

ghost use Rattle.std.specs.Prelude.{◌≡◌, refl};
ghost use Rattle.slotmap.specs.Words.{null_key};

use slotmap::{Key, KeyData};
use std::marker::Model;

/// The key of an edge. It can't be passed for the key of a node, unless nodes have keys of this type
/// too.
///
/// ```
/// let mut graph: Graph<NodeKey, &str, u64> = Graph::new(alloc)?;
/// let a = graph.add_node("a")?;
/// let key: EdgeKey = graph.add_edge(a, a, 5)?;
/// assert_eq!(rt; graph.edge(key), Some(&5));
/// ```
#[derive(Clone, Copy, PartialEq, Eq, PartialOrd, Ord, Hash, Debug)]
pub struct EdgeKey(KeyData);

impl Model for EdgeKey {
    ghost use Rattle.slotmap.specs.Words.{Key};

    ghost Value = { Key };

    ghost view = { λ k. k.0 };

    ghost inverse = { λ k. record { 0 = k } };
}

impl From<KeyData> for EdgeKey {
    ghost from_gives = { λ d k. k ≡ d };

    fn from(data: KeyData) -> EdgeKey {
        EdgeKey(data)
    }
}

impl Default for EdgeKey {
    ghost is_default = { λ k. k ≡ null_key };

    fn default() -> EdgeKey {
        EdgeKey(KeyData::default())
    }
}

impl Key for EdgeKey {
    ghost data_of = { λ k. k };

    ghost of_data = { λ d. d };

    fn null() -> EdgeKey {
        EdgeKey::default()
    }

    fn is_null(&self) -> bool {
        self.0.idx() == u32::MAX
    }

    fn data(&self) -> KeyData {
        let data = self.0;
        // by the contract of `idx`, the data is within its bounds
        let _ = data.idx();
        data
    }

    ghost from_data = { λ d h. refl };

    ghost from_data_of = { λ k h. refl };

    ghost from_gives_key = { λ d k h. h };

    ghost use Rattle.slotmap.specs.Words.{same_keys};
    ghost use Rattle.std.proofs.Common.{sym};

    ghost clone_same = { λ a b h. sym h };

    ghost default_null = { λ k h. h };

    ghost eq_by_data = { same_keys };

    ghost cmp_by_data = { λ a b. refl };

    ghost hash_by_data = { λ k. refl };
}
