//! The tables of a world, as pairs.

ghost use Rattle.std.specs.FinMap as map;
ghost use Rattle.std.specs.Prelude.{◌≡◌, ◌≢◌, ℕ, ◌+◌, ◌||◌, Bool, false, None, refl, IfOk, IfErr};
ghost use Rattle.slotmap.specs.Words.{Key as KeyOf, get, contains_key};

use crate::tables::Table;
use slotmap::{Key, ReserveError};
use std::alloc::Global;

/// The tables of a world: pairs of a [`Table`] and further tables, down to `()`.
///
/// Pairs nest, for any number of kinds. A struct of tables can have an impl of its
/// own, and each of its kinds one of [`Kind`]. With the attribute below that needs no proof file:
///
/// ```text
/// #[tactic(auto, using(slotmap::proofs::Callers::secondary))]
/// impl Tables<DefaultKey> for Parts {
///     type Parts = (Option<u32>, Option<u8>);
///
///     ghost has = { λ tables k. contains_key tables.health.pairs k || contains_key tables.armour.pairs k };
///
///     ghost parts = { λ tables k. (get tables.health.pairs k, get tables.armour.pairs k) };
///
///     ghost no_parts = { (None, None) };
///
///     ghost keeps_room = { λ old new. (old.health.capacity ≤ new.health.capacity) × (old.armour.capacity ≤ new.armour.capacity) };
///
///     ghost gives_back = { λ old new. (old.health.capacity ≤ new.health.capacity) × (old.armour.capacity ≤ new.armour.capacity) };
///     ..
///     ghost has_none = { λ tables k none. Prim.grind arith };
///
///     ghost same_room = { λ tables. (Prim.omega arith, Prim.omega arith) };
/// }
///
/// impl Kind<DefaultKey, Parts> for Health {
///     type Table = SecondaryMap<DefaultKey, u32>;
///
///     ghost table = { λ tables. tables.health };
///
///     ghost with_table = { λ tables table. record tables { health = table } };
///     ..
///     ghost has_own = { λ tables k. Prim.grind arith };
///
///     ghost own_room = { λ old new keeps i count fit. let grows = keeps.0 in Prim.omega arith };
///
///     ghost own_back = { λ old new back i count fit. let grows = back.0 in Prim.omega arith };
/// }
/// ```
///
/// ```
/// let mut tables: (SecondaryMap<DefaultKey, u8>, (SparseSecondaryMap<DefaultKey, &str>, ())) =
///     Tables::new(alloc)?;
/// let parts = Tables::remove(&mut tables, DefaultKey::null());
/// assert_eq!(rt; parts, (None, (None, ())));
/// ```
pub trait Tables<K: Key>: Drop {
    /// What an entity has in the tables: for each an `Option`, in the same pairs.
    type Parts: Drop;

    ghost use Rattle.slotmap.specs.Words.{Key as KeyOf};

    // Whether an entity has a component in one of the tables.
    ghost has: { Self → KeyOf → Bool };

    // What it has in each of them, and what one without components has.
    ghost parts: { Self → KeyOf → Self.Parts };

    ghost no_parts: { Self.Parts };

    // That no table has less room than before.
    ghost keeps_room: { Self → Self → Type 0 };

    // That each table has room again for what it had, beside the room that it had.
    ghost gives_back: { Self → Self → Type 0 };

    /// Makes empty tables. It fails only if memory runs out.
    ///
    /// ```
    /// let tables: (SecondaryMap<DefaultKey, u32>, ()) = Tables::new(alloc)?;
    /// assert!(rt; tables.0.is_empty());
    /// ```
    fn new(alloc: Global) -> Result<Self, ReserveError>
        ensures empty { IfOk result (λ tables. (q : KeyOf) → has tables q ≡ false) }
        ensures err { IfErr result (λ error. error ≡ ReserveError.Memory) };

    /// Removes the components of an entity from all tables, and returns them.
    ///
    /// ```
    /// let hero = DefaultKey::from(KeyData::new(1, 1));
    /// let mut tables: (SecondaryMap<DefaultKey, u32>, ()) = Tables::new(alloc)?;
    /// tables.0.insert(hero, 7)?;
    /// assert_eq!(rt; Tables::remove(&mut tables, hero), (Some(7), ()));
    /// assert!(rt; tables.0.is_empty());
    /// ```
    fn remove(&mut self, key: K) -> Self::Parts
        ensures value { result ≡ parts self.old (K.data_of key) }
        ensures no_component { has self.new (K.data_of key) ≡ false }
        ensures others { (q : KeyOf) → q ≢ K.data_of key → (has self.new q ≡ has self.old q) × (parts self.new q ≡ parts self.old q) }
        ensures room { keeps_room self.old self.new };

    /// Removes all components of all entities. Each table has room for as many in all as before.
    ///
    /// ```
    /// let hero = DefaultKey::from(KeyData::new(1, 1));
    /// let mut tables: (SecondaryMap<DefaultKey, u32>, ()) = Tables::new(alloc)?;
    /// tables.0.insert(hero, 7)?;
    /// Tables::clear(&mut tables);
    /// assert!(rt; tables.0.is_empty());
    /// ```
    fn clear(&mut self)
        ensures empty { (q : KeyOf) → has self.new q ≡ false }
        ensures room { keeps_room self.old self.new }
        ensures gives_back { gives_back self.old self.new };

    // An entity without components has nothing in each of them.
    ghost has_none: { (t : Self) (k : KeyOf) → has t k ≡ false → parts t k ≡ no_parts };

    // Where nothing changes, no table has less room.
    ghost same_room: { (t : Self) → keeps_room t t };
}

impl<K: Key> Tables<K> for () {
    type Parts = ();

    ghost has = { λ tables k. false };

    ghost parts = { λ tables k. tables };

    ghost no_parts = { tt };

    ghost keeps_room = { λ old new. Unit {0} };

    ghost gives_back = { λ old new. Unit {0} };

    fn new(_alloc: Global) -> Result<(), ReserveError> {
        Ok(())
    }

    fn remove(&mut self, _key: K) {}

    fn clear(&mut self) {}

    ghost has_none = { λ t k none. refl };

    ghost same_room = { λ t. tt };
}

#[tactic(auto, using(slotmap::proofs::Callers::secondary))]
impl<K: Key, A: Table<K>, B: Tables<K>> Tables<K> for (A, B) {
    type Parts = (Option<A::Component>, B::Parts);

    ghost use Rattle.std.proofs.Common.{arith};

    ghost has = { λ tables k. contains_key (A.pairs tables.0) k || B.has tables.1 k };

    ghost parts = { λ tables k. (get (A.pairs tables.0) k, B.parts tables.1 k) };

    ghost no_parts = { (None, B.no_parts) };

    ghost keeps_room = { λ old new. ((i count : ℕ) → A.fits old.0 i count → A.fits new.0 i count) × B.keeps_room old.1 new.1 };

    ghost gives_back = { λ old new. ((i count : ℕ) → A.fits old.0 i count → A.fits new.0 i (map.len (A.pairs old.0) + count)) × B.gives_back old.1 new.1 };

    fn new(alloc: Global) -> Result<(A, B), ReserveError> {
        let table = A::new(alloc)?;
        let others = B::new(alloc)?;
        Ok((table, others))
    }

    fn remove(&mut self, key: K) -> (Option<A::Component>, B::Parts) {
        (self.0.remove(key), self.1.remove(key))
    }

    fn clear(&mut self) {
        self.0.clear();
        self.1.clear();
    }

    ghost has_none = { λ t k none. let rest = B.has_none t.1 k in Prim.grind (arith, rest) };

    ghost same_room = { λ t. (λ i count fit. fit, B.same_room t.1) };
}
