//! Copies of a world.

ghost use Rattle.std.specs.Prelude.{◌≡◌, IfOk, ⊤, refl};
ghost use Rattle.slotmap.specs.Words.{Key as KeyOf, ClonesEqual, ClonesInOrder, HasClones, IsCloneBy, IsCopy, SameOrder};

use crate::{First, Kind, Table, Tables, Then, World};
use slotmap::{Key, SecondaryMap, SparseSecondaryMap};
use std::alloc::AllocError;

/// A table whose components can be cloned.
pub trait CloneTable<K: Key>: Table<K> {
    // What a clone of a component may be.
    ghost is_clone: { Self.Component → Self.Component → Type 0 };

    /// Returns a copy of the table: the same entities, each with a clone of its component. It fails only
    /// if memory runs out, or if the clone of a component fails.
    ///
    /// ```
    /// let hero = DefaultKey::from(KeyData::new(1, 1));
    /// let mut table: SparseSecondaryMap<DefaultKey, u32> = Table::new(alloc)?;
    /// Table::insert(&mut table, hero, 7)?;
    /// let copy = CloneTable::clone_table(&table)?;
    /// assert_eq!(rt; Table::get(&copy, hero), Some(&7));
    /// ```
    fn clone_table(&self) -> Result<Self, AllocError>
        ensures { IfOk result (λ copy. HasClones is_clone (Self.Table.pairs self.now) (Self.Table.pairs copy)) };
}

impl<K: Key, C: Clone + Drop> CloneTable<K> for SecondaryMap<K, C> {
    ghost is_clone = { C.is_clone };

    fn clone_table(&self) -> Result<Self, AllocError> {
        SecondaryMap::clone(self)
    }
}

impl<K: Key, C: Clone + Drop> CloneTable<K> for SparseSecondaryMap<K, C> {
    ghost is_clone = { C.is_clone };

    fn clone_table(&self) -> Result<Self, AllocError> {
        SparseSecondaryMap::clone(self)
    }
}

/// Tables whose components can be cloned.
pub trait CloneTables<K: Key>: Tables<K> {
    // What a copy of the tables may be.
    ghost are_clones: { Self → Self → Type 0 };

    // That a clone of a component equals the component.
    ghost clones_equal: { Type 0 };

    /// Returns a copy of the tables: each entity has clones of its components. It fails only if memory
    /// runs out, or if the clone of a component fails.
    ///
    /// ```
    /// let hero = DefaultKey::from(KeyData::new(1, 1));
    /// let mut tables: (SecondaryMap<DefaultKey, u32>, ()) = Tables::new(alloc)?;
    /// tables.0.insert(hero, 7)?;
    /// let copy = CloneTables::clone_tables(&tables)?;
    /// assert_eq!(rt; copy.0.get(hero), Some(&7));
    /// ```
    fn clone_tables(&self) -> Result<Self, AllocError>
        ensures clones { IfOk result (are_clones self.now) }
        ensures same { IfOk result (λ copy. (q : KeyOf) → Self.Tables.has copy q ≡ Self.Tables.has self.now q) };

    // Where clones equal their components, each entity has the same in a copy.
    ghost same_parts: { (t u : Self) (k : KeyOf) → clones_equal → are_clones t u → Self.Tables.parts u k ≡ Self.Tables.parts t k };
}

impl<K: Key> CloneTables<K> for () {
    ghost are_clones = { λ _ _. ⊤ };

    ghost clones_equal = { ⊤ };

    fn clone_tables(&self) -> Result<(), AllocError> {
        Ok(())
    }

    ghost same_parts = { λ t u k equal clones. refl };
}

impl<K: Key, A: CloneTable<K>, B: CloneTables<K>> CloneTables<K> for (A, B) {
    ghost use Rattle.std.proofs.Common.{arith};
    ghost use Rattle.slotmap.specs.Words.{get};

    ghost are_clones = { λ tables copy. HasClones A.is_clone (A.Table.pairs tables.0) (A.Table.pairs copy.0) × B.are_clones tables.1 copy.1 };

    ghost clones_equal = { ClonesEqual A.is_clone × B.clones_equal };

    fn clone_tables(&self) -> Result<(A, B), AllocError> {
        let table = self.0.clone_table()?;
        let others = self.1.clone_tables()?;
        Ok((table, others))
    }

    ghost same_parts = { λ t u k equal clones.
        let own = clones.0 k in let same = equal.0 in let rest = B.same_parts t.1 u.1 k equal.1 clones.1 in Prim.grind arith };
}

/// A kind of components that can be cloned: what a copy of the tables has of it.
///
/// ```
/// type Tables = (SecondaryMap<DefaultKey, u32>, ());
/// let mut world: World<DefaultKey, u8, Tables> = World::new(alloc)?;
/// let hero = world.spawn_with::<First>(1, 7)?;
/// let copy = world.clone()?;
/// assert_eq!(rt; copy.component::<First>(hero), Some(&7));
/// ```
pub trait CloneKind<K: Key, T: CloneTables<K>>: Kind<K, T> {
    // What a clone of a component may be.
    ghost is_clone: { Self.Table.Component → Self.Table.Component → Type 0 };

    // Where clones equal their components, they do in this kind.
    ghost own_equal: { T.clones_equal → ClonesEqual is_clone };

    // In a copy of the tables the table of this kind has the same entities, each with a clone of its component.
    ghost own_clones: { (t u : T) → T.are_clones t u → HasClones is_clone (Self.Table.pairs (Self.Kind.table t)) (Self.Table.pairs (Self.Kind.table u)) };
}

impl<K: Key, A: CloneTable<K>, B: CloneTables<K>> CloneKind<K, (A, B)> for First {
    ghost is_clone = { A.is_clone };

    ghost own_equal = { λ equal. equal.0 };

    ghost own_clones = { λ t u clones. clones.0 };
}

impl<K: Key, A: CloneTable<K>, B: CloneTables<K>, C: CloneKind<K, B>> CloneKind<K, (A, B)>
    for Then<C> {
    ghost is_clone = { C.is_clone };

    ghost own_equal = { λ equal. C.own_equal equal.1 };

    ghost own_clones = { λ t u clones. C.own_clones t.1 u.1 clones.1 };
}

impl<K: Key, E: Clone + Drop, T: CloneTables<K>> World<K, E, T> {
    /// Returns a copy of the world: the same entities under the same keys, with clones of their values
    /// and components.
    ///
    /// Both worlds will return the same new keys. Where clones equal what they are of, the copy has the same
    /// values and components. The room and the capacity of the copy are its own. If memory runs out, or
    /// the clone of a value or of a component fails, the call fails, and what was copied is dropped. It
    /// takes time linear in the number of slots and in the size of the tables.
    ///
    /// ```
    /// let mut world: World<DefaultKey, u8, (SecondaryMap<DefaultKey, u32>, ())> = World::new(alloc)?;
    /// let hero = world.spawn(1)?;
    /// world.attach::<First>(hero, 7)?;
    /// let copy = world.clone()?;
    /// world.despawn(hero);
    /// assert_eq!(rt; copy.component::<First>(hero), Some(&7));
    /// ```
    pub fn clone(&self) -> Result<Self, AllocError>
        ensures entities { IfOk result (λ copy. IsCloneBy E.is_clone self.now.entities.content copy.entities.content) }
        ensures order { IfOk result (λ copy. ClonesInOrder E.is_clone self.now.entities copy.entities) }
        ensures tables { IfOk result (λ copy. T.are_clones self.now.tables copy.tables) }
        ensures same { IfOk result (λ copy. (q : KeyOf) → T.Tables.has copy.tables q ≡ T.Tables.has self.now.tables q) }

        // Where clones equal their values and their components.
        ensures copies_if_clones_equal { IfOk result (λ copy. ClonesEqual E.is_clone → IsCopy self.now.entities.content copy.entities.content) }
        ensures order_if_clones_equal { IfOk result (λ copy. ClonesEqual E.is_clone → SameOrder self.now.entities copy.entities) }
        ensures same_if_clones_equal { IfOk result (λ copy. T.clones_equal → (q : KeyOf) → T.Tables.parts copy.tables q ≡ T.Tables.parts self.now.tables q) }
    {
        let entities = self.entities.clone()?;
        let tables = self.tables.clone_tables()?;
        Ok(World { entities, tables })
    }
}

impl<K: Key, E: Clone + Drop, T: CloneTables<K>> Clone for World<K, E, T> {
    ghost is_clone = { λ world copy. IsCloneBy E.is_clone world.entities.content copy.entities.content
        × ClonesInOrder E.is_clone world.entities copy.entities × T.are_clones world.tables copy.tables };

    fn clone(&self) -> Result<Self, AllocError> {
        World::clone(self)
    }
}
