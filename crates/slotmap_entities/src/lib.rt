//! Entities with components: an entity store.
//!
//! An entity of a [`World`] is a key that no other entity of it ever had, unless `clone_from` makes it a
//! copy of another. Its components are in side tables, one for each kind, under the same keys, and are
//! removed with it. What is proved of it:
//!
//! - A component is never seen under a later entity, even if that has the same slot.
//! - Only live entities have components.
//! - A call on one entity changes no component of another, and none of another kind.
//! - A call that fails leaves the same entities with the same components. One that adds something
//!   returns it.
//! - If there is room for an entity, as after [`World::reserve`], `spawn` can't be refused, and the
//!   capacity stays. If there is room in its table, as after [`World::reserve_components`], no component
//!   of an existing entity can be refused.
//! - Only `reserve` and the calls that spawn an entity change the capacity for entities.
//!
//! The entities are in a `DenseSlotMap`, packed for iteration. The tables are nested pairs of
//! secondary maps: a `SecondaryMap` for a kind that most entities have, a `SparseSecondaryMap` for a
//! rare one. A call names the kind that it is about by a type: [`First`], [`Second`] and so on, best
//! under a name of your own. A call on one entity takes constant time, unless the map or a table grows,
//! or a sparse table is built anew. A step of a join may pass many entities. `clear` takes time linear in
//! the entities and the sizes of the tables, `clone` in the slots and these sizes, `retain_components` in
//! the size of one table.
//!
//! ```
//! type Position = First;
//! type Name = Second;
//! type Tables = (
//!     SecondaryMap<DefaultKey, (i32, i32)>,
//!     (SparseSecondaryMap<DefaultKey, &'static str>, ()),
//! );
//! let mut world: World<DefaultKey, u8, Tables> = World::new(alloc)?;
//! let hero = world.spawn(1)?;
//! world.attach::<Position>(hero, (3, 4))?;
//! assert_eq!(rt; world.component::<Position>(hero), Some(&(3, 4)));
//! assert_eq!(rt; world.despawn(hero), Some((1, (Some((3, 4)), (None, ())))));
//! let other = world.spawn(2)?;
//! assert_eq!(rt; world.component::<Name>(other), None);
//! ```
#![tactic(auto, using(slotmap::proofs::Callers::keys))]

ghost use Rattle.std.specs.Prelude.{◌≡◌, ◌≢◌, ◌+◌, ◌<◌, ◌≤◌, ◌↔◌, Some, None, IfOk, IsOk, OnErr, IfErr, IfSome, OnSome, IfNone, IsTrue};
ghost use Rattle.std.specs.Prelude.{true, false, option_copied, option_map};
ghost use Rattle.std.specs.FinMap as map;
ghost use Rattle.std.specs.Option.{option_copied_mut};
ghost use Rattle.std.specs.Borrow.{sem};
ghost use Rattle.slotmap.specs.Words.{Key as KeyOf, Inserts, IsLive, IsNew, IsSpent, Keeps, KeepsSpent, Leaves, Removes, Refuses, RefusesCapacity, MakesDenseRoom, places, used};
ghost use Rattle.slotmap.specs.Words.{Appends, ClosesGap, IsDense, SameOrder, IsEmpty};

mod both;
mod clone;
mod components;
mod iter;
mod join;
mod join_optional;
mod join_three;
mod join_without;
mod kinds;
mod spawn;
mod spawn_both;
mod spawn_three;
mod tables;
mod tuples;

pub use clone::{CloneKind, CloneTable, CloneTables};
pub use components::AttachError;
pub use join::{With, WithBoth};
pub use join_optional::WithOptional;
pub use join_three::WithThree;
pub use join_without::WithWithout;
pub use kinds::{Apart, First, Fourth, Kind, Second, Then, Third};
use slotmap::{DefaultKey, DenseSlotMap, InsertError, Key, ReserveError};
pub use spawn::SpawnError;
use std::alloc::Global;
use std::fmt;
use std::marker::Model;
use std::ops::Index;
pub use tables::Table;
pub use tuples::Tables;

/// Entities with values of type `E` under keys of type `K`, and their components in the tables `T`.
///
/// A clause sees `entities`, which has the value of each entity and their packed order, and the
/// tables. An entity `has` a component in one of them, or it doesn't, and `parts` is what it has in
/// each.
pub struct World<K: Key, E, T: Tables<K>> {
    entities: DenseSlotMap<K, E>,
    tables: T,
}

impl<K: Key, E: Drop, T: Tables<K> + Drop> Drop for World<K, E, T> {
    fn drop(self) {
        let World {
            entities: _entities,
            tables: _tables,
        } = self;
    }
}

impl<K: Key, E, T: Tables<K>> Model for World<K, E, T> {
    ghost use Rattle.slotmap_entities.specs.World.{World as Seen, world_code, OnlyLive};

    ghost Value = { Seen E T };

    ghost coded = { world_code E.code T.code };

    ghost view = { λ w. record { entities = w.entities; tables = w.tables } };

    ghost invariant = { λ w. OnlyLive w.entities.content (T.has w.tables) };
}

impl<E: Drop, T: Tables<DefaultKey>> World<DefaultKey, E, T> {
    /// Makes a world with no entity, whose entities have keys of type `DefaultKey`.
    ///
    /// It fails only if memory runs out.
    ///
    /// ```
    /// let world: World<DefaultKey, u8, ()> = World::new(alloc)?;
    /// assert!(rt; world.is_empty());
    /// ```
    pub fn new(alloc: Global) -> Result<Self, ReserveError>
        ensures entities { IfOk result (λ world. IsNew world.entities.content × IsEmpty world.entities) }
        ensures tables { IfOk result (λ world. (q : KeyOf) → T.has world.tables q ≡ false) }
        ensures err { IfErr result (λ error. error ≡ ReserveError.Memory) }
    {
        World::with_key(alloc)
    }

    /// Makes a world with no entity and with room for `capacity` of them, whose entities have keys of
    /// type `DefaultKey`.
    ///
    /// It fails with `TooGreat` if `capacity` is over 4294967294, and with `Memory` if memory runs
    /// out.
    ///
    /// ```
    /// let mut world: World<DefaultKey, u8, ()> = World::with_capacity(alloc, 2)?;
    /// assert!(rt; world.capacity() >= 2);
    /// assert!(rt; world.spawn(1).is_ok());
    /// ```
    pub fn with_capacity(alloc: Global, capacity: usize) -> Result<Self, ReserveError>
        ensures entities { IfOk result (λ world. IsNew world.entities.content × IsEmpty world.entities) }
        ensures tables { IfOk result (λ world. (q : KeyOf) → T.has world.tables q ≡ false) }
        ensures room { IfOk result (λ world. capacity ≤ world.entities.content.room) }
        ensures err { IfErr result (RefusesCapacity capacity) }
    {
        World::with_capacity_and_key(alloc, capacity)
    }
}

impl<K: Key, E: Drop, T: Tables<K>> World<K, E, T> {
    ghost use Rattle.slotmap_entities.specs.Lends.{lends_entity};

    /// Makes a world with no entity, with any type of keys.
    ///
    /// It fails only if memory runs out.
    ///
    /// ```
    /// let world: World<NodeKey, u8, ()> = World::with_key(alloc)?;
    /// assert!(rt; world.is_empty());
    /// ```
    pub fn with_key(alloc: Global) -> Result<Self, ReserveError>
        ensures entities { IfOk result (λ world. IsNew world.entities.content × IsEmpty world.entities) }
        ensures tables { IfOk result (λ world. (q : KeyOf) → T.has world.tables q ≡ false) }
        ensures err { IfErr result (λ error. error ≡ ReserveError.Memory) }
    {
        World::with_capacity_and_key(alloc, 0)
    }

    /// Makes a world with no entity and with room for `capacity` of them, with any type of keys.
    ///
    /// It fails with `TooGreat` if `capacity` is over 4294967294, and with `Memory` if memory runs
    /// out.
    ///
    /// ```
    /// let world: World<NodeKey, u8, ()> = World::with_capacity_and_key(alloc, 2)?;
    /// assert!(rt; world.capacity() >= 2);
    /// ```
    pub fn with_capacity_and_key(alloc: Global, capacity: usize) -> Result<Self, ReserveError>
        ensures entities { IfOk result (λ world. IsNew world.entities.content × IsEmpty world.entities) }
        ensures tables { IfOk result (λ world. (q : KeyOf) → T.has world.tables q ≡ false) }
        ensures room { IfOk result (λ world. capacity ≤ world.entities.content.room) }
        ensures err { IfErr result (RefusesCapacity capacity) }
    {
        let entities = DenseSlotMap::with_capacity_and_key(alloc, capacity)?;
        let tables = T::new(alloc)?;
        Ok(World { entities, tables })
    }

    /// Reserves room for `additional` more entities. Then [`World::spawn`] can't fail for them, and the
    /// capacity stays. For their components see [`World::reserve_components`]. It takes constant time if
    /// there is room already, else time linear in the number of slots.
    ///
    /// It fails with `TooGreat` if more than 4294967294 entities would be there, counting those whose
    /// slots are retired, and with `Memory` if memory runs out. The world has the same entities then.
    ///
    /// ```
    /// let mut world: World<DefaultKey, u8, ()> = World::new(alloc)?;
    /// world.reserve(2)?;
    /// assert!(rt; world.spawn(1).is_ok());
    /// ```
    pub fn reserve(&mut self, additional: usize) -> Result<(), ReserveError>
        ensures makes_room { MakesDenseRoom self.old.entities additional (IsOk result) self.new.entities }
        ensures err { IfErr result (RefusesCapacity (used self.old.entities.content + additional)) }
        ensures tables { self.new.tables ≡ self.old.tables }
    {
        self.entities.reserve(additional)
    }

    /// Returns for how many entities there is memory, in constant time.
    ///
    /// ```
    /// let mut world: World<DefaultKey, u8, ()> = World::with_capacity_and_key(alloc, 2)?;
    /// let capacity = world.capacity();
    /// assert!(rt; capacity >= 2);
    /// world.spawn(1)?;
    /// assert_eq!(rt; world.capacity(), capacity);
    /// ```
    pub fn capacity(&self) -> usize
        ensures { result ≡ self.now.entities.content.capacity }
    {
        self.entities.capacity()
    }

    /// Returns how many entities there are, in constant time.
    ///
    /// ```
    /// let mut world: World<DefaultKey, u8, ()> = World::new(alloc)?;
    /// let hero = world.spawn(1)?;
    /// assert_eq!(rt; world.len(), 1);
    /// world.despawn(hero);
    /// assert_eq!(rt; world.len(), 0);
    /// ```
    pub fn len(&self) -> usize
        ensures value { result ≡ map.len self.now.entities.content.live }
        ensures valid { IsDense self.now.entities }
    {
        self.entities.len()
    }

    /// Returns whether there is no entity, in constant time.
    ///
    /// ```
    /// let mut world: World<DefaultKey, u8, ()> = World::new(alloc)?;
    /// assert!(rt; world.is_empty());
    /// world.spawn(1)?;
    /// assert!(rt; !world.is_empty());
    /// ```
    pub fn is_empty(&self) -> bool
        ensures { IsTrue result ↔ (map.len self.now.entities.content.live ≡ 0) }
    {
        self.len() == 0
    }

    /// Returns whether an entity exists, in constant time.
    ///
    /// ```
    /// let mut world: World<DefaultKey, u8, ()> = World::new(alloc)?;
    /// let hero = world.spawn(1)?;
    /// assert!(rt; world.contains_key(hero));
    /// world.despawn(hero);
    /// assert!(rt; !world.contains_key(hero));
    /// ```
    pub fn contains_key(&self, key: K) -> bool
        ensures { result ≡ map.contains_key self.now.entities.content.live (K.data_of key) }
    {
        self.entities.contains_key(key)
    }

    /// Adds an entity with no component, and returns its key, which no entity had before.
    ///
    /// If there is room, it can't fail, and the capacity stays. If the call fails, the error holds the
    /// value, and the world has the same entities and components.
    ///
    /// ```
    /// let mut world: World<DefaultKey, u8, ()> = World::new(alloc)?;
    /// let hero = world.spawn(1)?;
    /// assert_eq!(rt; world.len(), 1);
    /// assert!(rt; world.contains_key(hero));
    /// ```
    pub fn spawn(&mut self, entity: E) -> Result<K, InsertError<E>>
        // A new entity, with no component.
        ensures adds { IfOk result (λ key. Inserts self.old.entities.content (K.data_of key) entity self.new.entities.content) }
        ensures fresh { IfOk result (λ key. map.get self.old.entities.content.live (K.data_of key) ≡ None) }
        ensures unspent { IfOk result (λ key. IsSpent self.old.entities.content (K.data_of key) → ⊥) }
        ensures no_component { IfOk result (λ key. T.has self.new.tables (K.data_of key) ≡ false) }
        // Its index is at most one more than there were slots.
        ensures index { IfOk result (λ key. (K.data_of key).index ≤ places self.old.entities.content + 1) }
        // It is the last in the packed order.
        ensures order { IfOk result (λ key. Appends self.old.entities (K.data_of key) entity self.new.entities) }

        // If there is room, it can't fail, and the capacity stays.
        ensures room { 0 < self.old.entities.content.room → IsOk result }
        ensures in_place { 0 < self.old.entities.content.room → self.new.entities.content.capacity ≡ self.old.entities.content.capacity }
        ensures capacity { self.old.entities.content.capacity ≤ self.new.entities.content.capacity }

        // Why the call failed, and what that leaves.
        ensures err { IfErr result (Refuses self.old.entities.content entity) }
        ensures unchanged { OnErr result (Keeps self.old.entities.content self.new.entities.content) }
        ensures same_order { OnErr result (SameOrder self.old.entities self.new.entities) }

        // All else is as before.
        ensures tables { self.new.tables ≡ self.old.tables }
        ensures gone { KeepsSpent self.old.entities.content self.new.entities.content }
    {
        self.entities.insert(entity)
    }

    /// Removes an entity with its components. It returns the entity's value and what it had in each
    /// table. The key is never used again. The capacity stays, and there is room for one more entity,
    /// unless the key was the last of its slot. No table loses room. If the entity doesn't exist, the
    /// call returns `None` and changes nothing.
    ///
    /// ```
    /// let mut world: World<DefaultKey, u8, (SecondaryMap<DefaultKey, u32>, ())> = World::new(alloc)?;
    /// let hero = world.spawn(1)?;
    /// world.attach::<First>(hero, 7)?;
    /// assert_eq!(rt; world.despawn(hero), Some((1, (Some(7), ()))));
    /// assert_eq!(rt; world.despawn(hero), None);
    /// ```
    pub fn despawn(&mut self, key: K) -> Option<(E, T::Parts)>
        // The entity is gone, with its components.
        ensures value { result ≡ option_map (λ value. (value, T.parts self.old.tables (K.data_of key))) (map.get self.old.entities.content.live (K.data_of key)) }
        ensures removed { self.new.entities.content.live ≡ map.remove self.old.entities.content.live (K.data_of key) }
        ensures no_component { T.has self.new.tables (K.data_of key) ≡ false }
        ensures for_good { IsLive self.old.entities.content (K.data_of key) → IsSpent self.new.entities.content (K.data_of key) }
        // There is room for one more entity, unless its slot is retired.
        ensures removes { OnSome result (Removes self.old.entities.content (K.data_of key) self.new.entities.content) }
        // The last entity takes its position in the packed order.
        ensures order { IfSome result (λ removed. ClosesGap self.old.entities (K.data_of key) removed.0 self.new.entities) }

        // All else is as before.
        ensures leaves { Leaves self.old.entities.content self.new.entities.content }
        ensures capacity { self.new.entities.content.capacity ≡ self.old.entities.content.capacity }
        ensures room { T.keeps_room self.old.tables self.new.tables }
        ensures others { (q : KeyOf) → q ≢ K.data_of key → (T.has self.new.tables q ≡ T.has self.old.tables q) × (T.parts self.new.tables q ≡ T.parts self.old.tables q) }
        ensures gone { KeepsSpent self.old.entities.content self.new.entities.content }
        ensures unchanged { IfNone result (self.new ≡ self.old) }
    {
        let value = self.entities.remove(key)?;
        Some((value, self.tables.remove(key)))
    }

    /// Removes all entities and all components. The keys are never used again. The capacity stays, and
    /// there is room for as many entities more as were removed, but for the keys that were the last of
    /// their slots. Each table has room for as many components in all as before. It takes time linear in the
    /// number of entities and in the sizes of the tables.
    ///
    /// ```
    /// let mut world: World<DefaultKey, u8, ()> = World::new(alloc)?;
    /// let hero = world.spawn(1)?;
    /// world.clear();
    /// assert!(rt; !world.contains_key(hero));
    /// ```
    pub fn clear(&mut self)
        ensures removed { self.new.entities.content.live ≡ map.empty }
        ensures empty { IsEmpty self.new.entities }
        ensures leaves { Leaves self.old.entities.content self.new.entities.content }
        ensures capacity { self.new.entities.content.capacity ≡ self.old.entities.content.capacity }
        ensures for_good { (k : KeyOf) → IsLive self.old.entities.content k → IsSpent self.new.entities.content k }
        ensures gone { KeepsSpent self.old.entities.content self.new.entities.content }
        ensures tables { (q : KeyOf) → T.has self.new.tables q ≡ false }
        ensures room { T.keeps_room self.old.tables self.new.tables }
        ensures gives_back { T.gives_back self.old.tables self.new.tables }
    {
        // In this order, a component belongs to a live entity at each moment.
        self.tables.clear();
        self.entities.clear();
    }

    /// Returns the value of an entity, or `None` if it doesn't exist.
    ///
    /// ```
    /// let mut world: World<DefaultKey, u8, ()> = World::new(alloc)?;
    /// let hero = world.spawn(1)?;
    /// assert_eq!(rt; world.get(hero), Some(&1));
    /// ```
    pub fn get(&self, key: K) -> Option<&E>
        ensures { option_copied result ≡ map.get self.now.entities.content.live (K.data_of key) }
    {
        self.entities.get(key)
    }

    /// Returns a mutable reference to the value of an entity, or `None` if it doesn't exist.
    ///
    /// ```
    /// let mut world: World<DefaultKey, u8, ()> = World::new(alloc)?;
    /// let hero = world.spawn(1)?;
    /// if let Some(value) = world.get_mut(hero) {
    ///     *value = 2;
    /// }
    /// assert_eq!(rt; world.get(hero), Some(&2));
    /// ```
    pub fn get_mut(&mut self, key: K) -> Option<&mut E>
        ensures* writes_back { sem 𝓛 (lends_entity K.row E.row T.row T.Parts.row K.Key T.Tables self.entry (K.data_of key) result) }
        ensures value { option_copied_mut result ≡ map.get self.old.entities.content.live (K.data_of key) }
    {
        match self.entities.get_mut(key) {
            Some(value) => Some(value),
            None => None,
        }
    }

    /// Returns the tables, for example to go through one with few components. Only entities have
    /// components.
    ///
    /// ```
    /// let mut world: World<DefaultKey, u8, (SparseSecondaryMap<DefaultKey, u32>, ())> = World::new(alloc)?;
    /// let hero = world.spawn(1)?;
    /// world.attach::<First>(hero, 7)?;
    /// assert_eq!(rt; world.tables().0.iter().next(), Some((hero, &7)));
    /// ```
    pub fn tables(&self) -> &T
        ensures tables { result.now ≡ self.now.tables }
        ensures live { (k : KeyOf) → T.has result.now k ≡ true → IsLive self.now.entities.content k }
    {
        &self.tables
    }
}

/// `world[key]` is the value of an entity. The caller proves that the entity exists.
impl<K: Key, E: Drop, T: Tables<K>> Index<K> for World<K, E, T> {
    type Output = E;

    ghost can_index = { λ world key. IsLive world.entities.content (K.data_of key) };

    ghost index_gives = { λ world key value. map.get world.entities.content.live (K.data_of key) ≡ Some value };

    fn index(&self, key: K) -> &E {
        &self.entities[key]
    }
}

impl<K: Key, E: fmt::Debug, T: Tables<K> + fmt::Debug> fmt::Debug for World<K, E, T> {
    fn fmt<W: fmt::Write>(&self, f: &mut fmt::Formatter<W>) -> fmt::Result {
        f.debug_struct("World")
            .field("entities", &self.entities)
            .field("tables", &self.tables)
            .finish()
    }
}
