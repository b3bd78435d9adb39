//! The kinds of components: by them a call names the table that it is about.

ghost use Rattle.std.specs.Prelude.{◌≡◌, ◌⊎◌, ◌+◌, ◌||◌, ℕ, true, is_some, refl};
ghost use Rattle.std.specs.Borrow.{sem, Lends};
ghost use Rattle.slotmap.specs.Words.{Key as KeyOf, contains_key, get};
ghost use Rattle.std.specs.FinMap as map;

use crate::tables::Table;
use crate::tuples::Tables;
use slotmap::Key;
use std::marker::PhantomData;

/// One kind of components: it names one of the tables `T`.
pub trait Kind<K: Key, T: Tables<K>> {
    /// The type of its table.
    type Table: Table<K>;

    ghost use Rattle.slotmap.specs.Words.{Key as KeyOf};

    // Its table, and the tables with another one in its place.
    ghost table: { T → Self.Table };

    ghost with_table: { T → Self.Table → T };

    /// Returns its table.
    ///
    /// ```
    /// let hero = DefaultKey::from(KeyData::new(1, 1));
    /// let mut tables: (SecondaryMap<DefaultKey, u32>, ()) = Tables::new(alloc)?;
    /// tables.0.insert(hero, 7)?;
    /// assert_eq!(rt; First::table(&tables).get(hero), Some(&7));
    /// ```
    fn table(tables: &T) -> &Self::Table
        ensures { result.now ≡ table tables.now };

    /// Returns a mutable reference to its table.
    ///
    /// ```
    /// let hero = DefaultKey::from(KeyData::new(1, 1));
    /// let mut tables: (SecondaryMap<DefaultKey, u32>, ()) = Tables::new(alloc)?;
    /// First::table_mut(&mut tables).insert(hero, 7)?;
    /// assert_eq!(rt; tables.0.get(hero), Some(&7));
    /// ```
    fn table_mut(tables: &mut T) -> &mut Self::Table
        ensures* writes_back { sem 𝓛 (Lends T.row Self.Table.row tables.entry result (with_table tables.old)) }
        ensures value { result.now ≡ table tables.old };

    // Its table is what was put there; the one that is there changes nothing.
    ghost table_put: { (t : T) (m : Self.Table) → table (with_table t m) ≡ m };

    ghost same_put: { (t : T) → with_table t (table t) ≡ t };

    // Of two that are put there, one after the other, the second stays.
    ghost put_twice: { (t : T) (m n : Self.Table) → with_table (with_table t m) n ≡ with_table t n };

    // What an entity has in its table it has, and that is all that a new table changes.
    ghost has_own: { (t : T) (k : KeyOf) → contains_key (Self.Table.pairs (table t)) k ≡ true → T.has t k ≡ true };

    ghost has_no_more: { (t : T) (m : Self.Table) (k : KeyOf) → T.has (with_table t m) k ≡ true
        → (T.has t k ≡ true) ⊎ (contains_key (Self.Table.pairs m) k ≡ true) };

    // A new table changes what an entity has in the tables only where it has something else there.
    ghost others_kept: { (t : T) (m : Self.Table) (k : KeyOf) → get (Self.Table.pairs m) k ≡ get (Self.Table.pairs (table t)) k
        → (T.has (with_table t m) k ≡ T.has t k) × (T.parts (with_table t m) k ≡ T.parts t k) };

    // What an entity has in its table is part of what it has in the tables.
    ghost own_part: { (t u : T) (k : KeyOf) → T.parts u k ≡ T.parts t k
        → get (Self.Table.pairs (table u)) k ≡ get (Self.Table.pairs (table t)) k };

    // Where no table has less room than before, its own hasn't.
    ghost own_room: { (t u : T) → T.keeps_room t u → (i count : ℕ) → Self.Table.fits (table t) i count → Self.Table.fits (table u) i count };

    // Where each table has room again for what it had, its own has.
    ghost own_back: { (t u : T) → T.gives_back t u
        → (i count : ℕ) → Self.Table.fits (table t) i count → Self.Table.fits (table u) i (map.len (Self.Table.pairs (table t)) + count) };
}

/// Two kinds of components with a table each: no kind is apart from itself.
///
/// It says which calls on two kinds there are, as [`World::spawn_with_both`](crate::World::spawn_with_both),
/// in either order of the kinds.
///
/// ```
/// type Tables = (
///     SecondaryMap<DefaultKey, u32>,
///     (SparseSecondaryMap<DefaultKey, u64>, ()),
/// );
/// let mut world: World<DefaultKey, u8, Tables> = World::new(alloc)?;
/// let hero = world.spawn_with_both::<Second, First>(1, 8, 7)?;
/// assert_eq!(rt; world.both::<First, Second>(hero), Some((&7, &8)));
/// ```
pub trait Apart<K: Key, T: Tables<K>, B: Kind<K, T>>: Kind<K, T> {
    // A new table of one kind leaves that of the other as it is.
    ghost first_kept: { (t : T) (n : B.Table) → Self.Kind.table (B.with_table t n) ≡ Self.Kind.table t };

    ghost second_kept: { (t : T) (m : Self.Table) → B.table (Self.Kind.with_table t m) ≡ B.table t };

    // The two may be put there in any order.
    ghost any_order: { (t : T) (m : Self.Table) (n : B.Table)
        → Self.Kind.with_table (B.with_table t n) m ≡ B.with_table (Self.Kind.with_table t m) n };
}

/// The kind of the first table.
pub enum First {}

/// `Then<C>` is the kind `C` of the tables behind the first one.
pub struct Then<C>(PhantomData<C>);

/// The kind of the second table.
pub type Second = Then<First>;

/// The kind of the third table.
pub type Third = Then<Second>;

/// The kind of the fourth table.
pub type Fourth = Then<Third>;

impl<K: Key, A: Table<K>, B: Tables<K>> Kind<K, (A, B)> for First {
    type Table = A;

    ghost use Rattle.std.proofs.Common.{arith, ap};

    ghost table = { λ tables. tables.0 };

    ghost with_table = { λ tables m. (m, tables.1) };

    fn table(tables: &(A, B)) -> &A {
        &tables.0
    }

    fn table_mut(tables: &mut (A, B)) -> &mut A {
        &mut tables.0
    }

    ghost table_put = { λ t m. refl };

    ghost same_put = { λ t. refl };

    ghost put_twice = { λ t m n. refl };

    ghost has_own = { λ t k. Prim.grind arith };

    ghost has_no_more = { λ t m k. Prim.grind arith };

    ghost others_kept = { λ t m k same. (ap (λ c. is_some c || B.has t.1 k) same, ap (λ c. (c, B.parts t.1 k)) same) };

    ghost own_part = { λ t u k same. ap (λ p. p.0) same };

    ghost own_room = { λ t u keeps i count fit. keeps.0 i count fit };

    ghost own_back = { λ t u back i count fit. back.0 i count fit };
}

impl<K: Key, A: Table<K>, B: Tables<K>, C: Kind<K, B>> Kind<K, (A, B)> for Then<C> {
    type Table = C::Table;

    ghost use Rattle.std.proofs.Common.{arith, ap};

    ghost table = { λ tables. C.table tables.1 };

    ghost with_table = { λ tables m. (tables.0, C.with_table tables.1 m) };

    fn table(tables: &(A, B)) -> &C::Table {
        C::table(&tables.1)
    }

    fn table_mut(tables: &mut (A, B)) -> &mut C::Table {
        C::table_mut(&mut tables.1)
    }

    ghost table_put = { λ t m. C.table_put t.1 m };

    ghost same_put = { λ t. ap (λ rest. (t.0, rest)) (C.same_put t.1) };

    ghost put_twice = { λ t m n. ap (λ rest. (t.0, rest)) (C.put_twice t.1 m n) };

    ghost has_own = { λ t k h. let own = C.has_own t.1 k in Prim.grind arith };

    ghost has_no_more = { λ t m k h. let more = C.has_no_more t.1 m k in Prim.grind arith };

    ghost others_kept = { λ t m k same. let rest = C.others_kept t.1 m k same in
        (ap (λ b. contains_key (A.pairs t.0) k || b) rest.0, ap (λ p. (get (A.pairs t.0) k, p)) rest.1) };

    ghost own_part = { λ t u k same. C.own_part t.1 u.1 k (ap (λ p. p.1) same) };

    ghost own_room = { λ t u keeps i count fit. C.own_room t.1 u.1 keeps.1 i count fit };

    ghost own_back = { λ t u back i count fit. C.own_back t.1 u.1 back.1 i count fit };
}

impl<K: Key, A: Table<K>, B: Tables<K>, C: Kind<K, B>> Apart<K, (A, B), Then<C>> for First {
    ghost first_kept = { λ t n. refl };

    ghost second_kept = { λ t m. refl };

    ghost any_order = { λ t m n. refl };
}

impl<K: Key, A: Table<K>, B: Tables<K>, C: Kind<K, B>> Apart<K, (A, B), First> for Then<C> {
    ghost first_kept = { λ t n. refl };

    ghost second_kept = { λ t m. refl };

    ghost any_order = { λ t m n. refl };
}

impl<K: Key, A: Table<K>, B: Tables<K>, C: Apart<K, B, D>, D: Kind<K, B>> Apart<K, (A, B), Then<D>>
    for Then<C> {
    ghost use Rattle.std.proofs.Common.{ap};

    ghost first_kept = { λ t n. C.Apart.first_kept t.1 n };

    ghost second_kept = { λ t m. C.Apart.second_kept t.1 m };

    ghost any_order = { λ t m n. ap (λ rest. (t.0, rest)) (C.Apart.any_order t.1 m n) };
}
