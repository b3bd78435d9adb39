//! The nodes under their keys. A clause sees each with the keys of its parent and of its children.

ghost use Rattle.std.specs.Prelude.{◌≡◌, ◌≢◌, ◌<◌, ◌≤◌, ◌+◌, ◌++◌, ◌∷◌, ◌↔◌, [], Some, None, IfOk};
ghost use Rattle.std.specs.Prelude.{IfErr, IsOk, IsSome, IsTrue, OnErr, List, true, map as list_map, option_copied, option_map, IfNone, IfSome};
ghost use Rattle.std.specs.FinMap as map;
ghost use Rattle.std.specs.Borrow.{sem};
ghost use Rattle.std.specs.Option.{option_copied_mut};
ghost use Rattle.slotmap.specs.Words.{Key as KeyOf, HasVacant, IsContent, IsNew, IsSpent, KeepsSpent, Inserts, Keeps, Leaves, MakesRoom, RefusesCapacity, index_after, used};
ghost use Rattle.slotmap_bounded.specs.Bounded.{bound};
ghost use Rattle.slotmap_bounded.specs.KeyLists.{last_or, times};
ghost use Rattle.slotmap_links.specs.Lists.{first_or};
ghost use Rattle.slotmap_scene.specs.Above.{roots_in};
ghost use Rattle.slotmap_scene.specs.Climb.{has_node, lacks_node, parent_of, with_parent};
ghost use Rattle.slotmap_scene.specs.Family.{IsScene, behind, child, children_of, in_front, siblings_of, value_of};
ghost use Rattle.slotmap_scene.specs.Kept.{IsParent, owner_of, roots_of};
ghost use Rattle.slotmap_scene.specs.Node.{key_and_value, memory, with_trees};
ghost use Rattle.slotmap_scene.specs.Refusals.{RefusesNode};

use crate::children::ChildKeys;
use crate::links::{NOBODY, cover, index_of, key_of, parent_index, parent_number};
use slotmap::{DefaultKey, InsertError, Key, ReserveError, basic};
use slotmap_bounded::BoundedMap;
use slotmap_links::Links;
use std::alloc::Global;
use std::marker::{Model, PhantomData};
use std::ops::Index;

pub(crate) struct Nodes<T> {
    // The values, each under the key of its node.
    pub(crate) values: BoundedMap<DefaultKey, T>,
    // By the index of a key the index of its parent, or that of no key.
    pub(crate) parents: Vec<u32>,
    // By the index of a key the indices of its children, in order.
    pub(crate) children: Links,
}

impl<T: Drop> Drop for Nodes<T> {
    fn drop(self) {
        let Nodes {
            values: _values,
            parents: _parents,
            children: _children,
        } = self;
    }
}

impl<T> Model for Nodes<T> {
    ghost use Rattle.slotmap_scene.specs.Node.{Forest, forest_code};

    ghost Value = { Forest T };

    ghost coded = { forest_code T.code };

    ghost use Rattle.std.specs.Prelude.{vec_capacity};
    ghost use Rattle.slotmap_scene.specs.Kept.{HoldsNodes, forest};

    ghost view = { λ nodes. forest nodes.values nodes.parents.items nodes.children (vec_capacity nodes.parents) };

    ghost invariant = { λ nodes. HoldsNodes nodes.values nodes.parents.items nodes.children };
}

impl<T: Drop> Nodes<T> {
    ghost use Rattle.slotmap_scene.specs.Lends.{lends_node_value};

    // No node, with room for so many.
    pub fn with_capacity(alloc: Global, capacity: usize) -> Result<Self, ReserveError>
        ensures empty { IfOk result (λ nodes. IsNew nodes.nodes) }
        ensures room { IfOk result (λ nodes. capacity ≤ nodes.nodes.room) }
        ensures err { IfErr result (RefusesCapacity capacity) }
    {
        let values = BoundedMap::with_capacity(alloc, capacity)?;
        let mut parents = Vec::new(alloc);
        let mut children = Links::new(alloc);
        cover(&mut parents, &mut children, values.capacity())?;
        Ok(Nodes {
            values,
            parents,
            children,
        })
    }

    // Reserves room for more nodes.
    #[inline(never)]
    pub fn reserve(&mut self, additional: usize) -> Result<(), ReserveError>
        ensures makes_room { MakesRoom true self.old.nodes additional (IsOk result) self.new.nodes }
        ensures err { IfErr result (RefusesCapacity (used self.old.nodes + additional)) }
        ensures reuses { additional ≤ map.len self.old.nodes.next → IsOk result }
        ensures in_place { additional ≤ self.old.nodes.room → self.new ≡ self.old }
    {
        let capacity = self.values.capacity_for(additional)?;
        cover(&mut self.parents, &mut self.children, capacity)?;
        self.values.reserve(additional)
    }

    // How many nodes there are.
    pub fn len(&self) -> usize
        ensures { result ≡ map.len self.now.nodes.live }
    {
        self.values.len()
    }

    // How many nodes there can be before more room is made.
    pub fn capacity(&self) -> usize
        ensures value { result ≡ bound self.now.nodes }
        ensures exact { result ≡ used self.now.nodes + self.now.nodes.room }
        ensures valid { IsContent true self.now.nodes }
    {
        self.values.capacity()
    }

    // Whether there is such a node.
    pub fn contains_key(&self, node: DefaultKey) -> bool
        ensures value { result ≡ map.contains_key self.now.nodes.live node }
        ensures valid { IsContent true self.now.nodes }
    {
        self.values.contains_key(node)
    }

    // The value of a node, if there is one.
    pub fn get(&self, node: DefaultKey) -> Option<&T>
        ensures { option_copied result ≡ value_of self.now.nodes.live node }
    {
        self.values.get(node)
    }

    // The value of a node, if there is one.
    pub fn value_mut(&mut self, node: DefaultKey) -> Option<&mut T>
        ensures* writes_back { sem 𝓛 (lends_node_value T.row self.entry node result) }
        ensures value { option_copied_mut result ≡ value_of self.old.nodes.live node }
    {
        match self.values.get_mut(node) {
            Some(value) => Some(value),
            None => None,
        }
    }

    // The parent of a node, if it has one.
    pub fn parent(&self, node: DefaultKey) -> Option<DefaultKey>
        ensures { result ≡ parent_of self.now.nodes.live node }
    {
        if !self.values.contains_key(node) {
            return None;
        }
        self.up(node)
    }

    // The same of a node that is there. Nothing is tested but whether it is a root.
    #[inline(always)]
    pub fn up(&self, node: DefaultKey) -> Option<DefaultKey>
        requires { has_node self.now.nodes.live node }
        ensures { result ≡ parent_of self.now.nodes.live node }
    {
        let parent = parent_number(&self.parents, node);
        if parent == NOBODY {
            return None;
        }
        Some(self.values.live_key(parent))
    }

    // The nodes, by ascending index of their keys.
    pub fn iter(&self) -> basic::Iter<'_, DefaultKey, T>
        ensures { result ≡ list_map key_and_value (map.entries self.now.nodes.live) }
    {
        self.values.iter()
    }

    // Their keys.
    pub fn keys(&self) -> basic::Keys<'_, DefaultKey, T>
        ensures value { result ≡ map.keys self.now.nodes.live }
    {
        self.values.keys()
    }

    // The indices of the parents, by which the roots are found.
    pub fn parents(&self) -> &[u32]
        ensures { roots_of result.now (map.keys self.now.nodes.live) ≡ roots_in self.now.nodes.live }
    {
        &self.parents
    }

    // The index of a node, or that of none.
    fn owner(&self, node: DefaultKey) -> u32
        ensures { result ≡ owner_of self.now.nodes.live node }
    {
        if self.values.contains_key(node) {
            return index_of(node);
        }
        NOBODY
    }

    // The keys of the children of a node.
    pub fn children<K: Key>(&self, node: DefaultKey) -> ChildKeys<'_, K, T>
        ensures { result ≡ children_of self.now.nodes.live node }
    {
        ChildKeys {
            nodes: &self.values,
            members: self.children.iter(self.owner(node)),
            key_type: PhantomData,
        }
    }

    // The first child of a node.
    pub fn first(&self, node: DefaultKey) -> Option<DefaultKey>
        ensures { result ≡ first_or (children_of self.now.nodes.live node) None }
    {
        key_of(&self.values, self.children.first(self.owner(node)))
    }

    // The last child of a node.
    pub fn last(&self, node: DefaultKey) -> Option<DefaultKey>
        ensures { result ≡ last_or (children_of self.now.nodes.live node) None }
    {
        key_of(&self.values, self.children.last(self.owner(node)))
    }

    // The sibling behind a child.
    pub fn next(&self, node: DefaultKey) -> Option<DefaultKey>
        requires scene { IsScene self.now.nodes.live }
        requires child { IsSome (parent_of self.now.nodes.live node) }
        ensures { result ≡ behind node (siblings_of self.now.nodes.live node) }
    {
        key_of(&self.values, self.children.next(index_of(node)))
    }

    // The sibling in front of a child.
    pub fn prev(&self, node: DefaultKey) -> Option<DefaultKey>
        requires scene { IsScene self.now.nodes.live }
        requires child { IsSome (parent_of self.now.nodes.live node) }
        ensures { result ≡ in_front None node (siblings_of self.now.nodes.live node) }
    {
        key_of(&self.values, self.children.prev(index_of(node)))
    }

    // The node with the least index above that of `node`. With none it is the first node.
    pub fn next_after(&self, node: Option<DefaultKey>) -> Option<DefaultKey>
        ensures live { IfSome result (λ found. has_node self.now.nodes.live found) }
        ensures first { IfSome result (λ found. (other : KeyOf) → has_node self.now.nodes.live other →
            index_after (λ k. k) node ≤ other.index → found.index ≤ other.index) }
        ensures none { IfNone result ((other : KeyOf) → has_node self.now.nodes.live other → other.index < index_after (λ k. k) node) }
        ensures valid { IsContent true self.now.nodes }
    {
        self.values.next_after(node)
    }

    // Adds a node with this parent and no children. It is in no list.
    #[inline(always)]
    pub fn insert(
        &mut self,
        value: T,
        parent: Option<DefaultKey>,
    ) -> Result<DefaultKey, InsertError<T>>
        requires { IsParent self.old.nodes.live parent }
        ensures adds { IfOk result (λ key. Inserts self.old.nodes key (child parent value) self.new.nodes) }
        ensures fresh { IfOk result (λ key. lacks_node self.old.nodes.live key) }
        ensures unspent { IfOk result (λ key. IsSpent self.old.nodes key → ⊥) }
        ensures stale { KeepsSpent self.old.nodes self.new.nodes }
        ensures err { IfErr result (RefusesNode self.old.nodes value) }
        ensures reuses { HasVacant self.old.nodes → IsOk result }
        ensures room { 0 < self.old.nodes.room → IsOk result }
        ensures capacity { self.old.nodes.capacity ≤ self.new.nodes.capacity }
        ensures in_place { 0 < self.old.nodes.room → memory self.new ≡ memory self.old }
        ensures unchanged { OnErr result (Keeps self.old.nodes self.new.nodes) }
    {
        if self.values.has_room() {
            return Ok(self.put(value, parent));
        }
        match self.reserve(1) {
            Ok(()) => Ok(self.put_apart(value, parent)),
            Err(ReserveError::TooGreat) => Err(InsertError::Full(value)),
            Err(ReserveError::Memory) => Err(InsertError::Memory(value)),
        }
    }

    // The same, where there is room.
    #[inline(always)]
    fn put(&mut self, value: T, parent: Option<DefaultKey>) -> DefaultKey
        requires room { 0 < self.old.nodes.room }
        requires parent { IsParent self.old.nodes.live parent }
        ensures adds { Inserts self.old.nodes result (child parent value) self.new.nodes }
        ensures capacity { memory self.new ≡ memory self.old }
        ensures valid { IsContent true self.old.nodes }
    {
        let _ = self.values.capacity();
        let key = self.values.insert_reserved(value);
        self.parents[index_of(key) as usize] = parent_index(parent);
        key
    }

    // The same after the vectors have grown. Not inlined, so that `insert` has no way back from there.
    #[cold]
    #[inline(never)]
    fn put_apart(&mut self, value: T, parent: Option<DefaultKey>) -> DefaultKey
        requires room { 0 < self.old.nodes.room }
        requires parent { IsParent self.old.nodes.live parent }
        ensures adds { Inserts self.old.nodes result (child parent value) self.new.nodes }
        ensures capacity { memory self.new ≡ memory self.old }
        ensures valid { IsContent true self.old.nodes }
    {
        self.put(value, parent)
    }

    // Lets a node have this parent, or none. The lists of children are the same.
    pub fn set_parent(&mut self, node: DefaultKey, parent: Option<DefaultKey>)
        requires node { has_node self.old.nodes.live node }
        requires parent { IsParent self.old.nodes.live parent }
        ensures { self.new ≡ with_trees self.old (with_parent self.old.nodes.live node parent) }
    {
        self.parents[index_of(node) as usize] = parent_index(parent);
    }

    // Removes a node that has no children, is in no list and is no parent, and returns its value.
    pub fn remove(&mut self, node: DefaultKey) -> T
        requires there { has_node self.old.nodes.live node }
        requires leaf { children_of self.old.nodes.live node ≡ [] }
        requires alone { (p : KeyOf) → times node (children_of self.old.nodes.live p) ≡ 0 }
        requires childless { (k : KeyOf) → parent_of self.old.nodes.live k ≢ Some node }
        ensures value { value_of self.old.nodes.live node ≡ Some result }
        ensures live { self.new.nodes.live ≡ map.remove self.old.nodes.live node }
        ensures leaves { Leaves self.old.nodes self.new.nodes }
        ensures capacity { memory self.new ≡ memory self.old }
    {
        let Some(value) = self.values.remove(node) else {
            unreachable!()
        };
        value
    }

    // Removes all nodes.
    pub fn clear(&mut self)
        ensures empty { self.new.nodes.live ≡ map.empty }
        ensures leaves { Leaves self.old.nodes self.new.nodes }
        ensures capacity { memory self.new ≡ memory self.old }
        ensures valid { IsContent true self.old.nodes }
    {
        self.values.clear();
        self.children.clear();
    }
}

impl<T: Drop> Index<DefaultKey> for Nodes<T> {
    type Output = T;

    ghost can_index = { λ nodes node. has_node nodes.nodes.live node };

    ghost index_gives = { λ nodes key value. value_of nodes.nodes.live key ≡ Some value };

    fn index(&self, node: DefaultKey) -> &T {
        self.values.value(node)
    }
}
