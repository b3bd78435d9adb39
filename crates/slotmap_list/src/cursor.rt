//! Cursors: the keys of a list's elements.

ghost use Rattle.std.specs.Prelude.{◌≡◌, refl};
ghost use Rattle.slotmap.specs.Words.{null_key};

use slotmap::{Key, KeyData};
use std::marker::Model;

/// The cursor of an element of a [`StableList`](super::StableList). It is a key type of its own, so a
/// `DefaultKey` or a `NodeKey` can't be passed for it. A cursor of another list can, and may find an
/// element of this one.
#[derive(Clone, Copy, PartialEq, Eq, PartialOrd, Ord, Hash, Debug)]
pub struct Cursor(KeyData);

impl Model for Cursor {
    ghost use Rattle.slotmap.specs.Words.{Key};

    ghost Value = { Key };

    ghost view = { λ k. k.0 };

    ghost inverse = { λ k. record { 0 = k } };
}

impl From<KeyData> for Cursor {
    ghost from_gives = { λ d k. k ≡ d };

    fn from(data: KeyData) -> Cursor {
        Cursor(data)
    }
}

impl Default for Cursor {
    ghost is_default = { λ k. k ≡ null_key };

    fn default() -> Cursor {
        Cursor(KeyData::default())
    }
}

impl Key for Cursor {
    ghost data_of = { λ k. k };

    ghost of_data = { λ d. d };

    fn null() -> Cursor {
        Cursor::default()
    }

    fn is_null(&self) -> bool {
        self.0.idx() == u32::MAX
    }

    fn data(&self) -> KeyData {
        let data = self.0;
        // By what `idx` ensures, the data is within its bounds.
        let _ = data.idx();
        data
    }

    ghost from_data = { λ d h. refl };

    ghost from_data_of = { λ k h. refl };

    ghost from_gives_key = { λ d k h. h };

    ghost use Rattle.slotmap.specs.Words.{same_keys};
    ghost use Rattle.std.proofs.Common.{sym};

    ghost clone_same = { λ a b h. sym h };

    ghost default_null = { λ k h. h };

    ghost eq_by_data = { same_keys };

    ghost cmp_by_data = { λ a b. refl };

    ghost hash_by_data = { λ k. refl };
}
