//! Tables of components, one for each kind.

ghost use Rattle.std.specs.FinMap as map;
ghost use Rattle.std.specs.Prelude.{◌≡◌, ℕ, ◌+◌, ◌-◌, ◌≤◌, true, refl, IfOk, OnOk, IsOk, IfErr, OnErr, option_copied};
ghost use Rattle.std.specs.Option.{option_copied_mut};
ghost use Rattle.std.specs.Borrow.{sem, LendsIf};
ghost use Rattle.slotmap.specs.Words.{Key as KeyOf, Pairs, get, contains_key, put, bind, remove, most, RefusesCapacity, RefusesPut, RefusesRoom};
ghost use Rattle.slotmap.specs.Words.{keyed, RetainsBy, CallableOnEach, side_with_value, sparse_with_value};

use slotmap::{Key, PutError, ReserveError, SecondaryMap, SparseSecondaryMap};
use std::alloc::Global;

/// A table of components of one kind: a `SecondaryMap` or a `SparseSecondaryMap`.
///
/// The first suits a kind that most entities have, the other a rare one.
pub trait Table<K: Key>: Drop {
    /// The type of the components.
    type Component: Drop;

    ghost use Rattle.slotmap.specs.Words.{Key as KeyOf};
    ghost use Rattle.slotmap.specs.declared.ReserveError.{ReserveError as WhyNoRoom};
    ghost use Rattle.slotmap.specs.declared.ReserveError.TheVariants.{TooGreat};

    // The components, by their entities.
    ghost pairs: { Self → Pairs Self.Component };

    // The table once the entity has another component.
    ghost with_value: { Self → KeyOf → Self.Component → Self };

    // That so many more components fit, of entities whose index is at most the first number: inserting
    // them can't fail.
    ghost fits: { Self → ℕ → ℕ → Type 0 };

    // Why a `reserve` for so many more components, of entities whose index is at most the first number,
    // fails with this error.
    ghost refuses_room: { Self → ℕ → ℕ → WhyNoRoom → Type 0 };

    // That a table has as much memory as before, where a clause tells it: the capacity of a `SecondaryMap`
    // stays. Of a `SparseSecondaryMap` it says nothing.
    ghost keeps_capacity: { Self → Self → Type 0 };

    /// Makes an empty table. It fails only if memory runs out.
    ///
    /// ```
    /// let table: SparseSecondaryMap<DefaultKey, u32> = Table::new(alloc)?;
    /// assert!(rt; table.is_empty());
    /// ```
    fn new(alloc: Global) -> Result<Self, ReserveError>
        ensures empty { IfOk result (λ table. pairs table ≡ map.empty) }
        ensures err { IfErr result (λ error. error ≡ ReserveError.Memory) };

    /// Makes room for `additional` more components, of entities whose index is at most `last`:
    /// inserting them can't fail then.
    ///
    /// A `SecondaryMap` takes memory for each index up to `last`, and fails with `TooGreat` if `last`
    /// exceeds 4294967294. A `SparseSecondaryMap` takes it for `additional` components, and fails with
    /// `TooGreat` if there would be more than 4294967295. Each fails with `Memory` if memory runs out.
    /// The table has the same components then. If they fit already, nothing changes, and only a number
    /// that is too great is refused.
    ///
    /// ```
    /// let hero = DefaultKey::from(KeyData::new(1, 1));
    /// let mut table: SparseSecondaryMap<DefaultKey, u32> = Table::new(alloc)?;
    /// Table::reserve(&mut table, 1, 1)?;
    /// assert!(rt; Table::insert(&mut table, hero, 7).is_ok());
    /// ```
    fn reserve(&mut self, additional: usize, last: usize) -> Result<(), ReserveError>
        ensures ok { OnOk result (fits self.new last additional) }
        ensures err { IfErr result (refuses_room self.old last additional) }
        ensures keeps { pairs self.new ≡ pairs self.old }
        ensures room { (i count : ℕ) → fits self.old i count → fits self.new i count }
        ensures succeeds { fits self.old last additional → (refuses_room self.old last additional ReserveError.TooGreat → ⊥) → IsOk result }
        ensures had_room { fits self.old last additional → self.new ≡ self.old };

    /// Returns whether an entity has a component here.
    ///
    /// ```
    /// let hero = DefaultKey::from(KeyData::new(1, 1));
    /// let mut table: SparseSecondaryMap<DefaultKey, u32> = Table::new(alloc)?;
    /// assert!(rt; !Table::contains_key(&table, hero));
    /// Table::insert(&mut table, hero, 7)?;
    /// assert!(rt; Table::contains_key(&table, hero));
    /// ```
    fn contains_key(&self, key: K) -> bool
        ensures { result ≡ contains_key (pairs self.now) (K.data_of key) };

    /// Returns the component of an entity, or `None` if it has none here.
    ///
    /// ```
    /// let hero = DefaultKey::from(KeyData::new(1, 1));
    /// let mut table: SparseSecondaryMap<DefaultKey, u32> = Table::new(alloc)?;
    /// assert_eq!(rt; Table::get(&table, hero), None);
    /// Table::insert(&mut table, hero, 7)?;
    /// assert_eq!(rt; Table::get(&table, hero), Some(&7));
    /// ```
    fn get(&self, key: K) -> Option<&Self::Component>
        ensures { option_copied result ≡ get (pairs self.now) (K.data_of key) };

    /// Returns a mutable reference to the component of an entity, or `None` if it has none here.
    ///
    /// ```
    /// let hero = DefaultKey::from(KeyData::new(1, 1));
    /// let mut table: SparseSecondaryMap<DefaultKey, u32> = Table::new(alloc)?;
    /// Table::insert(&mut table, hero, 7)?;
    /// if let Some(component) = Table::get_mut(&mut table, hero) {
    ///     *component = 8;
    /// }
    /// assert_eq!(rt; Table::get(&table, hero), Some(&8));
    /// ```
    fn get_mut(&mut self, key: K) -> Option<&mut Self::Component>
        ensures* writes_back { sem 𝓛 (LendsIf Self.row Self.Component.row self.entry result (with_value self.old (K.data_of key)) self.old) }
        ensures value { option_copied_mut result ≡ get (pairs self.old) (K.data_of key) };

    /// Inserts a component, and returns the one that the entity had. If memory runs out, the error
    /// holds the component, and the table has the same components. A call that fails takes up no room,
    /// and neither does one for an entity that has a component here.
    ///
    /// A null key, or one older than that at its index, changes nothing: the component is dropped, and
    /// the result is `Ok(None)`. A newer key replaces an older one at its index.
    ///
    /// ```
    /// let hero = DefaultKey::from(KeyData::new(1, 1));
    /// let mut table: SparseSecondaryMap<DefaultKey, u32> = Table::new(alloc)?;
    /// assert_eq!(rt; Table::insert(&mut table, hero, 7)?, None);
    /// assert_eq!(rt; Table::insert(&mut table, hero, 8)?, Some(7));
    /// ```
    fn insert(
        &mut self,
        key: K,
        component: Self::Component,
    ) -> Result<Option<Self::Component>, PutError<Self::Component>>
        ensures value { IfOk result (λ before. before ≡ get (pairs self.old) (K.data_of key)) }
        ensures ok { OnOk result (pairs self.new ≡ put (pairs self.old) (K.data_of key) component) }
        ensures err { IfErr result (λ error. RefusesPut (pairs self.old) (K.data_of key) component error.0) }
        ensures unchanged { OnErr result (pairs self.new ≡ pairs self.old) }
        ensures room { fits self.old (K.data_of key).index 1 → IsOk result }
        ensures less_room { (i count : ℕ) → fits self.old i (count + 1) → fits self.new i count }
        ensures refused_room { OnErr result ((i count : ℕ) → fits self.old i count → fits self.new i count) }
        ensures replaced_room { contains_key (pairs self.old) (K.data_of key) ≡ true → (i count : ℕ) → fits self.old i count → fits self.new i count };

    /// Removes the component of an entity, and returns it, or `None` if it has none here.
    ///
    /// ```
    /// let hero = DefaultKey::from(KeyData::new(1, 1));
    /// let mut table: SparseSecondaryMap<DefaultKey, u32> = Table::new(alloc)?;
    /// Table::insert(&mut table, hero, 7)?;
    /// assert_eq!(rt; Table::remove(&mut table, hero), Some(7));
    /// assert_eq!(rt; Table::remove(&mut table, hero), None);
    /// ```
    fn remove(&mut self, key: K) -> Option<Self::Component>
        ensures value { result ≡ get (pairs self.old) (K.data_of key) }
        ensures removes { pairs self.new ≡ remove (pairs self.old) (K.data_of key) }
        ensures room { (i count : ℕ) → fits self.old i count → fits self.new i count }
        ensures capacity { keeps_capacity self.old self.new };

    /// Calls `f` once for each component, which it may change, and removes those for which it returns
    /// false.
    ///
    /// ```
    /// let hero = DefaultKey::from(KeyData::new(1, 1));
    /// let mut table: SparseSecondaryMap<DefaultKey, u32> = Table::new(alloc)?;
    /// Table::insert(&mut table, hero, 7)?;
    /// Table::retain(&mut table, |_, component| *component > 7);
    /// assert!(rt; !Table::contains_key(&table, hero));
    /// ```
    fn retain<F: FnMut(K, &mut Self::Component) -> bool>(&mut self, f: F)
    where
        F: Drop,
        requires { CallableOnEach F.FnMut K.data_of f (keyed (pairs self.old)) }
        ensures retained { RetainsBy F.FnMut K.data_of f (keyed (pairs self.old)) (keyed (pairs self.new)) }
        ensures room { (i count : ℕ) → fits self.old i count → fits self.new i count }
        ensures capacity { keeps_capacity self.old self.new };

    /// Removes all components. There is room for as many in all as before.
    ///
    /// ```
    /// let hero = DefaultKey::from(KeyData::new(1, 1));
    /// let mut table: SparseSecondaryMap<DefaultKey, u32> = Table::new(alloc)?;
    /// Table::insert(&mut table, hero, 7)?;
    /// Table::clear(&mut table);
    /// assert!(rt; table.is_empty());
    /// ```
    fn clear(&mut self)
        ensures empty { pairs self.new ≡ map.empty }
        ensures room { (i count : ℕ) → fits self.old i count → fits self.new i count }
        ensures gives_back { (i count : ℕ) → fits self.old i count → fits self.new i (map.len (pairs self.old) + count) }
        ensures capacity { keeps_capacity self.old self.new };

    ghost with_value_is: { (m : Self) (k : KeyOf) (v : Self.Component) → pairs (with_value m k v) ≡ bind (pairs m) k v };

    // Where some fit, fewer do, and of lower indices.
    ghost fewer_fit: { (m : Self) (i j n p : ℕ) → i ≤ j → n ≤ p → fits m j p → fits m i n };

    // Where some fit, they do once a component that is there has another value.
    ghost with_value_room: { (m : Self) (k : KeyOf) (v : Self.Component) (i n : ℕ) → contains_key (pairs m) k ≡ true → fits m i n → fits (with_value m k v) i n };

    // And no more of them do.
    ghost with_value_no_more: { (m : Self) (k : KeyOf) (v : Self.Component) (i n : ℕ) → contains_key (pairs m) k ≡ true → fits (with_value m k v) i n → fits m i n };

    // Components of as many entities as a world can have aren't too many.
    ghost within_limit: { (m : Self) (i n : ℕ) → i ≤ most → map.len (pairs m) + n ≤ most → refuses_room m i n TooGreat → ⊥ };
}

impl<K: Key, C: Drop> Table<K> for SecondaryMap<K, C> {
    type Component = C;

    ghost use Rattle.std.proofs.Common.{arith};

    ghost pairs = { λ m. m.pairs };

    ghost with_value = { side_with_value };

    ghost fits = { λ m last count. last ≤ m.capacity };

    ghost refuses_room = { λ m last count. RefusesCapacity last };

    ghost keeps_capacity = { λ old new. new.capacity ≡ old.capacity };

    fn new(alloc: Global) -> Result<Self, ReserveError> {
        SecondaryMap::new(alloc)
    }

    fn reserve(&mut self, _additional: usize, last: usize) -> Result<(), ReserveError> {
        SecondaryMap::set_capacity(self, last)
    }

    fn contains_key(&self, key: K) -> bool {
        SecondaryMap::contains_key(self, key)
    }

    fn get(&self, key: K) -> Option<&C> {
        SecondaryMap::get(self, key)
    }

    fn get_mut(&mut self, key: K) -> Option<&mut C> {
        SecondaryMap::get_mut(self, key)
    }

    fn insert(&mut self, key: K, component: C) -> Result<Option<C>, PutError<C>> {
        SecondaryMap::insert(self, key, component)
    }

    fn remove(&mut self, key: K) -> Option<C> {
        SecondaryMap::remove(self, key)
    }

    fn retain<F: FnMut(K, &mut C) -> bool>(&mut self, f: F)
    where
        F: Drop,
    {
        SecondaryMap::retain(self, f);
    }

    fn clear(&mut self) {
        SecondaryMap::clear(self);
    }

    ghost with_value_is = { λ m k v. refl };

    ghost fewer_fit = { λ m i j n p low less fit. Prim.omega arith };

    ghost with_value_room = { λ m k v i n there fit. fit };

    ghost with_value_no_more = { λ m k v i n there fit. fit };

    ghost within_limit = { λ m i n low less great. Prim.omega arith };
}

impl<K: Key, C: Drop> Table<K> for SparseSecondaryMap<K, C> {
    type Component = C;

    ghost use Rattle.std.proofs.Common.{arith};
    ghost use Rattle.std.specs.Cmp.{nat_cmp_total};

    ghost pairs = { λ m. m.pairs };

    ghost with_value = { sparse_with_value };

    ghost fits = { λ m last count. map.len m.pairs + count ≤ m.capacity };

    ghost refuses_room = { λ m last count. RefusesRoom (map.len m.pairs + count) };

    ghost keeps_capacity = { λ old new. Unit {0} };

    fn new(alloc: Global) -> Result<Self, ReserveError> {
        SparseSecondaryMap::new(alloc)
    }

    fn reserve(&mut self, additional: usize, _last: usize) -> Result<(), ReserveError> {
        SparseSecondaryMap::reserve(self, additional)
    }

    fn contains_key(&self, key: K) -> bool {
        SparseSecondaryMap::contains_key(self, key)
    }

    fn get(&self, key: K) -> Option<&C> {
        SparseSecondaryMap::get(self, key)
    }

    fn get_mut(&mut self, key: K) -> Option<&mut C> {
        SparseSecondaryMap::get_mut(self, key)
    }

    fn insert(&mut self, key: K, component: C) -> Result<Option<C>, PutError<C>> {
        SparseSecondaryMap::insert(self, key, component)
    }

    fn remove(&mut self, key: K) -> Option<C> {
        SparseSecondaryMap::remove(self, key)
    }

    fn retain<F: FnMut(K, &mut C) -> bool>(&mut self, f: F)
    where
        F: Drop,
    {
        SparseSecondaryMap::retain(self, f);
    }

    fn clear(&mut self) {
        SparseSecondaryMap::clear(self);
    }

    ghost with_value_is = { λ m k v. refl };

    ghost fewer_fit = { λ m i j n p low less fit. Prim.omega arith };

    ghost with_value_room = { λ m k v i n there fit.
        let long = map.len-insert nat_cmp_total m.pairs k.index (k.version, v) in Prim.grind (arith, long) };

    ghost with_value_no_more = { λ m k v i n there fit.
        let long = map.len-insert nat_cmp_total m.pairs k.index (k.version, v) in Prim.grind (arith, long) };

    ghost within_limit = { λ m i n low less great. Prim.omega arith };
}
