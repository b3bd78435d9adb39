//! A scene: nodes in trees, where each has a parent or is a root, and an ordered list of children.
//!
//! A [`Scene`] gives each node a key, and knows the parent and the children of each. What is proved
//! of it:
//!
//! - The nodes form trees: each has a root above it, [`Scene::depth`] steps away.
//! - Each node appears exactly once in its parent's list of children, and in no other.
//! - [`Scene::descendants`] lists the nodes below a node, each once: depth-first, in the order of the
//!   children. [`Scene::keys_below`] yields them one by one, and [`Scene::next_below`] goes from one to
//!   the next, while values may change. [`Scene::walk`] enters each node before those below it, and
//!   leaves it after them. These three need no memory.
//! - [`Scene::reparent`] moves a node with its subtree, as the last child of its new parent, and
//!   [`Scene::move_before`] and [`Scene::move_after`] to a place beside a sibling. `reparent` is refused
//!   exactly if a node doesn't exist or the move would make a cycle. A move beside a sibling is also
//!   refused if the sibling is a root or the node itself.
//! - [`Scene::remove`] removes a node with its subtree, and no other node. Their keys are never used
//!   again, unless `clone_from` makes the scene a copy of another.
//! - A call that fails leaves the same trees, and uses up no key. One that adds a node returns its value.
//!
//! The children of a node are kept as links between siblings, beside the map of the values, by the
//! indices of their keys. Of the calls that add, move or remove nodes, only those that add one may need
//! memory. They don't fail for it if a slot is vacant or room was reserved. Where there is room, the
//! capacity stays, and so it does in a move or a removal. No removal loses room.
//!
//! A call takes constant time, unless the scene grows, with these exceptions:
//!
//! - [`Scene::depth`], [`Scene::fold_up`], [`Scene::world`], [`Scene::world_transform`] and
//!   [`Scene::is_within`] take time linear in the number of nodes above the node. So does
//!   [`Scene::reparent`] in the number of those above the new parent. [`Scene::move_before`] and
//!   [`Scene::move_after`] take time linear in the number of those above the sibling, unless both nodes
//!   have the same parent.
//! - [`Scene::next_below`] takes time linear in the depth of the key at most. All steps of a walk below
//!   a node together take time linear in the number of its nodes.
//! - [`Scene::remove`] takes time linear in the number of nodes that it removes, and
//!   [`Scene::descendants`] in the number of those that it lists. So do all steps of
//!   [`Scene::keys_below`] together, and one of them at most in the depth of the trees.
//! - [`Scene::clear`] takes time linear in the number of slots that have had a node. It also resets the
//!   ends of the list of children of each node that there is room for, 12 bytes a node.
//! - [`Scene::clone`], [`Scene::with_capacity`] and [`Scene::with_capacity_and_key`] take time linear in
//!   the capacity.
//! - All steps of [`Scene::walk`] together take time linear in the number of nodes that it visits.
//! - [`Scene::world_transforms`] takes time linear in the number of slots. So do all steps of
//!   [`Scene::iter`], [`Scene::keys`], [`Scene::values`] or [`Scene::roots`] together.
//!
//! ```
//! let mut scene: Scene<DefaultKey, &str> = Scene::new(alloc)?;
//! let car = scene.add_root("car")?;
//! let wheel = scene.add_child(car, "wheel")?;
//! let door = scene.add_child(car, "door")?;
//! let mut children = scene.children(car);
//! assert_eq!(rt; children.next(), Some(wheel));
//! assert_eq!(rt; children.next(), Some(door));
//! assert_eq!(rt; scene.depth(wheel), Some(1));
//! assert!(rt; scene.reparent(car, wheel).is_err());
//! assert_eq!(rt; scene.remove(car), Some("car"));
//! assert_eq!(rt; scene.len(), 0);
//! ```
#![tactic(auto, using(slotmap::proofs::Callers::keys))]

ghost use Rattle.std.specs.Prelude.{◌≡◌, ◌↔◌, ◌≤◌, ◌+◌, IfOk, IfErr, IsOk, IfSome, IsTrue, Some, option_copied, option_map, true};
ghost use Rattle.std.specs.FinMap as map;
ghost use Rattle.std.specs.Borrow.{sem};
ghost use Rattle.std.specs.Option.{option_copied_mut};
ghost use Rattle.slotmap.specs.Words.{Key as KeyOf, IsContent, IsNew, MakesRoom, RefusesCapacity, used};
ghost use Rattle.slotmap_bounded.specs.Bounded.{bound};
ghost use Rattle.slotmap_bounded.specs.KeyLists.{times};
ghost use Rattle.slotmap_scene.specs.Climb.{has_node, parent_of};
ghost use Rattle.slotmap_scene.specs.Family.{IsScene, children_of, is_parent, value_of};

use crate::family::Nodes;
pub use above::{Ancestors, Roots};
pub use below::KeysBelow;
pub use children::ChildKeys;
pub use iter::{Iter, Keys, Values};
use slotmap::{DefaultKey, InsertError, Key, ReserveError};
use slotmap_bounded::{inner, outer};
use std::alloc::Global;
use std::marker::{Model, PhantomData};
use std::ops::Index;
use thiserror::Error;
pub use walk::{Visit, Walk};

mod above;
mod below;
mod children;
mod climb;
mod clone;
mod debug;
mod family;
mod insert;
mod iter;
mod levels;
mod links;
mod nodes;
mod siblings;
mod tree;
mod walk;
pub mod world;

/// Nodes in trees, under keys of type `K`.
///
/// A clause sees `nodes`, a content as of a map of nodes. Its `live` is the finite map from the keys to
/// the nodes, each with its value, its parent and its children, and `IsSpent` says which keys are never
/// used again. `memory` is how much the scene counts as reserved. A test shows that a call that keeps it
/// asks for none.
pub struct Scene<K, T> {
    alloc: Global,
    nodes: Nodes<T>,
    key_type: PhantomData<K>,
}

impl<K, T: Drop> Drop for Scene<K, T> {
    fn drop(self) {
        let Scene {
            alloc: _alloc,
            nodes: _nodes,
            key_type: _key_type,
        } = self;
    }
}

impl<K, T> Model for Scene<K, T> {
    ghost use Rattle.slotmap_scene.specs.Node.{Forest, forest_code};
    ghost use Rattle.slotmap_scene.specs.Family.{IsScene};

    ghost Value = { Forest T };

    ghost coded = { forest_code T.code };

    ghost view = { λ scene. scene.nodes };

    ghost invariant = { λ scene. IsScene scene.nodes.nodes.live };
}

/// A node was not added. The error holds its value.
#[derive(Debug, Drop, Error)]
pub enum AddError<T> {
    /// The parent doesn't exist.
    #[error("the parent is gone")]
    Gone(T),
    /// The sibling doesn't exist, or is a root.
    #[error("the sibling is gone, or a root")]
    GoneSibling(T),
    /// The nodes and the retired slots are as many as a map can hold, 4294967294.
    #[error("the scene is full")]
    Full(T),
    /// An allocation failed.
    #[error("out of memory")]
    Memory(T),
}

impl<T> From<InsertError<T>> for AddError<T> {
    ghost use Rattle.slotmap_scene.specs.Refusals.{as_add_error};

    ghost from_gives = { λ from error. error ≡ as_add_error from };

    fn from(error: InsertError<T>) -> AddError<T> {
        match error {
            InsertError::Full(value) => AddError::Full(value),
            InsertError::Memory(value) => AddError::Memory(value),
        }
    }
}

/// A node was not moved. The scene is unchanged.
#[derive(Clone, Copy, Debug, Drop, PartialEq, Eq, Error)]
pub enum ReparentError {
    /// The node doesn't exist.
    #[error("the node is gone")]
    GoneNode,
    /// The new parent doesn't exist.
    #[error("the new parent is gone")]
    GoneParent,
    /// The new parent is the node itself, or below it.
    #[error("the new parent is below the node")]
    Cycle,
}

/// A node was not moved beside another one. The scene is unchanged.
#[derive(Clone, Copy, Debug, Drop, PartialEq, Eq, Error)]
pub enum MoveError {
    /// The node doesn't exist.
    #[error("the node is gone")]
    GoneNode,
    /// The sibling doesn't exist, or is a root.
    #[error("the sibling is gone, or a root")]
    GoneSibling,
    /// The sibling is the node itself.
    #[error("the sibling is the node itself")]
    Same,
    /// The sibling is below the node.
    #[error("the sibling is below the node")]
    Cycle,
}

impl<T: Drop> Scene<DefaultKey, T> {
    /// Makes a scene with no node, with the default type of keys.
    ///
    /// It fails only if memory runs out.
    ///
    /// ```
    /// let scene: Scene<DefaultKey, &str> = Scene::new(alloc)?;
    /// assert!(rt; scene.is_empty());
    /// ```
    pub fn new(alloc: Global) -> Result<Self, ReserveError>
        ensures empty { IfOk result (λ scene. IsNew scene.nodes) }
        ensures err { IfErr result (λ error. error ≡ ReserveError.Memory) }
    {
        Scene::with_key(alloc)
    }

    /// Makes a scene with no node and with room for `capacity` nodes, with the default type of keys.
    ///
    /// It fails with `TooGreat` if `capacity` is over 4294967294, and with `Memory` if memory runs out.
    /// It takes time linear in `capacity`.
    ///
    /// ```
    /// let scene: Scene<DefaultKey, &str> = Scene::with_capacity(alloc, 2)?;
    /// assert!(rt; scene.capacity() >= 2);
    /// ```
    pub fn with_capacity(alloc: Global, capacity: usize) -> Result<Self, ReserveError>
        ensures empty { IfOk result (λ scene. IsNew scene.nodes) }
        ensures room { IfOk result (λ scene. capacity ≤ scene.nodes.room) }
        ensures err { IfErr result (RefusesCapacity capacity) }
    {
        Scene::with_capacity_and_key(alloc, capacity)
    }
}

impl<K: Key, T: Drop> Scene<K, T> {
    ghost use Rattle.slotmap_scene.specs.Lends.{lends_value_of};

    /// Makes a scene with no node, with any type of keys.
    ///
    /// It fails only if memory runs out.
    ///
    /// ```
    /// let scene: Scene<NodeKey, &str> = Scene::with_key(alloc)?;
    /// assert!(rt; scene.is_empty());
    /// ```
    pub fn with_key(alloc: Global) -> Result<Self, ReserveError>
        ensures empty { IfOk result (λ scene. IsNew scene.nodes) }
        ensures err { IfErr result (λ error. error ≡ ReserveError.Memory) }
    {
        Scene::with_capacity_and_key(alloc, 0)
    }

    /// Makes a scene with no node and with room for `capacity` nodes, with any type of keys.
    ///
    /// It fails with `TooGreat` if `capacity` is over 4294967294, and with `Memory` if memory runs out.
    /// It takes time linear in `capacity`.
    ///
    /// ```
    /// let scene: Scene<NodeKey, &str> = Scene::with_capacity_and_key(alloc, 2)?;
    /// assert!(rt; scene.capacity() >= 2);
    /// ```
    pub fn with_capacity_and_key(alloc: Global, capacity: usize) -> Result<Self, ReserveError>
        ensures empty { IfOk result (λ scene. IsNew scene.nodes) }
        ensures room { IfOk result (λ scene. capacity ≤ scene.nodes.room) }
        ensures err { IfErr result (RefusesCapacity capacity) }
    {
        let nodes = Nodes::with_capacity(alloc, capacity)?;
        Ok(Scene {
            alloc,
            nodes,
            key_type: PhantomData,
        })
    }

    /// Reserves room for `additional` more nodes. Adding them can't fail then, if their parents exist, or
    /// their siblings have one, and the capacity stays. It takes constant time if there is room already,
    /// else time linear in the capacity.
    ///
    /// It fails with `TooGreat` if more than 4294967294 nodes would be there, counting those whose slots
    /// are retired, and with `Memory` if memory runs out. The scene has the same nodes then.
    ///
    /// ```
    /// let mut scene: Scene<DefaultKey, &str> = Scene::new(alloc)?;
    /// scene.reserve(2)?;
    /// assert!(rt; scene.add_root("car").is_ok());
    /// ```
    pub fn reserve(&mut self, additional: usize) -> Result<(), ReserveError>
        ensures makes_room { MakesRoom true self.old.nodes additional (IsOk result) self.new.nodes }
        ensures err { IfErr result (RefusesCapacity (used self.old.nodes + additional)) }
        ensures reuses { additional ≤ map.len self.old.nodes.next → IsOk result }
        ensures in_place { additional ≤ self.old.nodes.room → self.new ≡ self.old }
    {
        self.nodes.reserve(additional)
    }

    /// Returns how many nodes there are, in constant time.
    ///
    /// They form trees, and each appears exactly once in its parent's list of children, and in no other.
    ///
    /// ```
    /// let mut scene: Scene<DefaultKey, &str> = Scene::new(alloc)?;
    /// let car = scene.add_root("car")?;
    /// scene.add_child(car, "wheel")?;
    /// assert_eq!(rt; scene.len(), 2);
    /// scene.remove(car);
    /// assert_eq!(rt; scene.len(), 0);
    /// ```
    pub fn len(&self) -> usize
        ensures value { result ≡ map.len self.now.nodes.live }
        ensures scene { IsScene self.now.nodes.live }
    {
        self.nodes.len()
    }

    /// Returns how many nodes there can be before more room is made, in constant time.
    ///
    /// It counts the slots that are retired.
    ///
    /// ```
    /// let mut scene: Scene<DefaultKey, &str> = Scene::with_capacity_and_key(alloc, 2)?;
    /// assert!(rt; scene.capacity() >= 2);
    /// ```
    pub fn capacity(&self) -> usize
        ensures value { result ≡ bound self.now.nodes }
        ensures exact { result ≡ used self.now.nodes + self.now.nodes.room }
        ensures valid { IsContent true self.now.nodes }
    {
        self.nodes.capacity()
    }

    /// Returns whether there is no node, in constant time.
    ///
    /// ```
    /// let mut scene: Scene<DefaultKey, &str> = Scene::new(alloc)?;
    /// assert!(rt; scene.is_empty());
    /// scene.add_root("car")?;
    /// assert!(rt; !scene.is_empty());
    /// ```
    pub fn is_empty(&self) -> bool
        ensures { IsTrue result ↔ (map.len self.now.nodes.live ≡ 0) }
    {
        self.len() == 0
    }

    /// Returns whether a node exists, in constant time.
    ///
    /// ```
    /// let mut scene: Scene<DefaultKey, &str> = Scene::new(alloc)?;
    /// let car = scene.add_root("car")?;
    /// let wheel = scene.add_child(car, "wheel")?;
    /// assert!(rt; scene.contains_key(wheel));
    /// scene.remove(car);
    /// assert!(rt; !scene.contains_key(wheel));
    /// ```
    pub fn contains_key(&self, node: K) -> bool
        ensures { result ≡ map.contains_key self.now.nodes.live (K.data_of node) }
    {
        self.nodes.contains_key(inner(node))
    }

    /// Returns the value of a node, or `None` if it doesn't exist, in constant time.
    ///
    /// ```
    /// let mut scene: Scene<DefaultKey, &str> = Scene::new(alloc)?;
    /// let car = scene.add_root("car")?;
    /// assert_eq!(rt; scene.get(car), Some(&"car"));
    /// scene.remove(car);
    /// assert_eq!(rt; scene.get(car), None);
    /// ```
    pub fn get(&self, node: K) -> Option<&T>
        ensures { option_copied result ≡ value_of self.now.nodes.live (K.data_of node) }
    {
        self.nodes.get(inner(node))
    }

    /// Returns a mutable reference to the value of a node, or `None` if it doesn't exist, in constant
    /// time.
    ///
    /// ```
    /// let mut scene: Scene<DefaultKey, u64> = Scene::new(alloc)?;
    /// let car = scene.add_root(1)?;
    /// if let Some(value) = scene.get_mut(car) {
    ///     *value = 2;
    /// }
    /// assert_eq!(rt; scene.get(car), Some(&2));
    /// ```
    pub fn get_mut(&mut self, node: K) -> Option<&mut T>
        ensures* writes_back { sem 𝓛 (lends_value_of K.row T.row self.entry (K.data_of node) result) }
        ensures value { option_copied_mut result ≡ value_of self.old.nodes.live (K.data_of node) }
    {
        self.nodes.value_mut(inner(node))
    }

    /// Returns an iterator over the keys of the children of a node, in order: each node whose parent it
    /// is, once.
    ///
    /// A node that doesn't exist has none. It is made in constant time, and each step takes constant time.
    ///
    /// ```
    /// let mut scene: Scene<DefaultKey, &str> = Scene::new(alloc)?;
    /// let car = scene.add_root("car")?;
    /// let wheel = scene.add_child(car, "wheel")?;
    /// let door = scene.add_child(car, "door")?;
    /// let mut children = scene.children(car);
    /// assert_eq!(rt; children.next(), Some(wheel));
    /// assert_eq!(rt; children.next(), Some(door));
    /// assert_eq!(rt; children.next(), None);
    /// ```
    pub fn children(&self, node: K) -> ChildKeys<'_, K, T>
        ensures value { result ≡ children_of self.now.nodes.live (K.data_of node) }
        ensures listed { (k : KeyOf) → times k result ≡ is_parent (parent_of self.now.nodes.live k) (K.data_of node) }
    {
        self.nodes.children(inner(node))
    }

    /// Returns the key of the parent of a node, or `None` if the node is a root or doesn't
    /// exist. The parent exists.
    ///
    /// ```
    /// let mut scene: Scene<DefaultKey, &str> = Scene::new(alloc)?;
    /// let car = scene.add_root("car")?;
    /// let wheel = scene.add_child(car, "wheel")?;
    /// assert_eq!(rt; scene.parent(wheel), Some(car));
    /// assert_eq!(rt; scene.parent(car), None);
    /// ```
    pub fn parent(&self, node: K) -> Option<K>
        ensures value { option_map K.data_of result ≡ parent_of self.now.nodes.live (K.data_of node) }
        ensures live { IfSome result (λ parent. has_node self.now.nodes.live (K.data_of parent)) }
    {
        Some(outer(self.parent_key(inner(node))?))
    }
}

/// `scene[node]` is the value of a node. The caller proves that the node exists.
impl<K: Key, T: Drop> Index<K> for Scene<K, T> {
    type Output = T;

    ghost can_index = { λ scene node. has_node scene.nodes.live (K.data_of node) };

    ghost index_gives = { λ scene node value. value_of scene.nodes.live (K.data_of node) ≡ Some value };

    fn index(&self, node: K) -> &T {
        &self.nodes[inner(node)]
    }
}
