//! The calls that add, move and remove nodes.

ghost use Rattle.std.specs.Prelude.{◌≡◌, ◌↔◌, ◌+◌, ◌<◌, ◌≤◌, ◌++◌, ◌∷◌, [], Some, None, IfOk, IfErr, IsOk, OnOk, OnErr, IfSome, IfNone, OnSome};
ghost use Rattle.std.specs.Prelude.{IsTrue, true, length, option_map};
ghost use Rattle.std.specs.FinMap as map;
ghost use Rattle.slotmap.specs.Words.{Key as KeyOf, HasVacant, IsSpent, IsContent, KeepsSpent, Inserts, Keeps, Leaves, index_after};
ghost use Rattle.slotmap_scene.specs.Below.{all_below};
ghost use Rattle.slotmap_scene.specs.Climb.{IsWithin, has_node, lacks_node};
ghost use Rattle.slotmap_scene.specs.Family.{IsMoved, IsNewChild, IsScene, as_last_child, as_root, child, children_of, forgets, value_of, with_child};
ghost use Rattle.slotmap_scene.specs.Node.{memory, with_trees};
ghost use Rattle.slotmap_scene.specs.Refusals.{RefusesNode, RefusesChild, RefusesParent};

use crate::tree::Side;
use crate::{AddError, ReparentError, Scene};
use slotmap::{DefaultKey, InsertError, Key, drop_may_unwind};
use slotmap_bounded::{inner, outer};

impl<K: Key, T: Drop> Scene<K, T> {
    /// Adds a root with no children, and returns its key, which no node had before.
    ///
    /// If a slot is vacant or room was reserved, the call can't fail, and the capacity stays. If the
    /// call fails, the error holds the value, and the scene has the same trees.
    ///
    /// ```
    /// let mut scene: Scene<DefaultKey, &str> = Scene::new(alloc)?;
    /// let car = scene.add_root("car")?;
    /// assert_eq!(rt; scene.parent(car), None);
    /// assert_eq!(rt; scene.children(car).len(), 0);
    /// ```
    pub fn add_root(&mut self, value: T) -> Result<K, InsertError<T>>
        ensures adds { IfOk result (λ key. Inserts self.old.nodes (K.data_of key) (child None value) self.new.nodes) }
        ensures fresh { IfOk result (λ key. lacks_node self.old.nodes.live (K.data_of key)) }
        ensures children { IfOk result (λ key. children_of self.new.nodes.live (K.data_of key) ≡ []) }
        ensures unspent { IfOk result (λ key. IsSpent self.old.nodes (K.data_of key) → ⊥) }
        ensures stale { KeepsSpent self.old.nodes self.new.nodes }
        ensures err { IfErr result (RefusesNode self.old.nodes value) }
        ensures reuses { HasVacant self.old.nodes → IsOk result }
        ensures room { 0 < self.old.nodes.room → IsOk result }
        ensures capacity { self.old.nodes.capacity ≤ self.new.nodes.capacity }
        ensures in_place { 0 < self.old.nodes.room → memory self.new ≡ memory self.old }
        ensures unchanged { OnErr result (Keeps self.old.nodes self.new.nodes) }
    {
        Ok(outer(self.nodes.insert(value, None)?))
    }

    /// Adds a node with no children as the last child of another one, and returns its key, which no node
    /// had before.
    ///
    /// If a slot is vacant or room was reserved, it fails exactly if the parent doesn't exist, and the
    /// capacity stays. If the call fails, the error holds the value, and the scene has the same trees.
    ///
    /// ```
    /// let mut scene: Scene<DefaultKey, &str> = Scene::new(alloc)?;
    /// let car = scene.add_root("car")?;
    /// let wheel = scene.add_child(car, "wheel")?;
    /// assert_eq!(rt; scene.children(car).next(), Some(wheel));
    /// scene.remove(wheel);
    /// assert!(rt; matches!(scene.add_child(wheel, "tyre"), Err(AddError::Gone("tyre"))));
    /// ```
    pub fn add_child(&mut self, parent: K, value: T) -> Result<K, AddError<T>>
        // The parent has one more child, under a new key.
        ensures adds { IfOk result (λ key. Inserts (record self.old.nodes { live = with_child self.old.nodes.live (K.data_of parent) (K.data_of key) })
            (K.data_of key) (child (Some (K.data_of parent)) value) self.new.nodes) }
        ensures gains { IfOk result (λ key. IsNewChild self.old.nodes.live self.new.nodes.live (K.data_of key) (K.data_of parent) value
            (children_of self.old.nodes.live (K.data_of parent) ++ K.data_of key ∷ [])) }
        ensures fresh { IfOk result (λ key. lacks_node self.old.nodes.live (K.data_of key)) }
        ensures unspent { IfOk result (λ key. IsSpent self.old.nodes (K.data_of key) → ⊥) }
        ensures stale { KeepsSpent self.old.nodes self.new.nodes }
        ensures live { OnOk result (has_node self.old.nodes.live (K.data_of parent)) }

        // Why the call failed, and what that leaves.
        ensures err { IfErr result (RefusesChild self.old.nodes (K.data_of parent) value) }
        ensures reuses { has_node self.old.nodes.live (K.data_of parent) → HasVacant self.old.nodes → IsOk result }
        ensures room { has_node self.old.nodes.live (K.data_of parent) → 0 < self.old.nodes.room → IsOk result }
        ensures capacity { self.old.nodes.capacity ≤ self.new.nodes.capacity }
        ensures in_place { 0 < self.old.nodes.room → memory self.new ≡ memory self.old }
        ensures unchanged { OnErr result (Keeps self.old.nodes self.new.nodes) }
    {
        let parent = inner(parent);
        if !self.nodes.contains_key(parent) {
            return Err(AddError::Gone(value));
        }
        Ok(outer(self.nodes.add(value, parent, Side::Before, None)?))
    }

    /// Makes a node the last child of another one, with its subtree.
    ///
    /// It is the last child even if it was a child of the new parent before.
    ///
    /// It fails exactly if one of the two doesn't exist, or if the new parent is the node or below it. The
    /// scene is then unchanged. The capacity stays.
    ///
    /// ```
    /// let mut scene: Scene<DefaultKey, &str> = Scene::new(alloc)?;
    /// let car = scene.add_root("car")?;
    /// let wheel = scene.add_root("wheel")?;
    /// assert!(rt; scene.reparent(wheel, car).is_ok());
    /// assert_eq!(rt; scene.parent(wheel), Some(car));
    /// assert_eq!(rt; scene.reparent(car, wheel), Err(ReparentError::Cycle));
    /// ```
    pub fn reparent(&mut self, node: K, parent: K) -> Result<(), ReparentError>
        ensures moved { OnOk result (self.new ≡ with_trees self.old (as_last_child self.old.nodes.live (K.data_of node) (K.data_of parent))) }
        ensures trees { OnOk result (IsMoved self.old.nodes.live self.new.nodes.live (K.data_of node) (Some (K.data_of parent)) (λ ks. ks ++ K.data_of node ∷ [])) }
        ensures values { (k : KeyOf) → value_of self.new.nodes.live k ≡ value_of self.old.nodes.live k }
        ensures capacity { memory self.new ≡ memory self.old }
        ensures nodes { OnOk result (has_node self.old.nodes.live (K.data_of node) × has_node self.old.nodes.live (K.data_of parent)) }
        ensures no_cycle { OnOk result (IsWithin self.old.nodes.live (K.data_of parent) (K.data_of node) → ⊥) }
        ensures stale { KeepsSpent self.old.nodes self.new.nodes }
        ensures scene { IsScene self.old.nodes.live }
        ensures err { IfErr result (RefusesParent self.old.nodes.live (K.data_of node) (K.data_of parent)) }
        ensures unchanged { OnErr result (self.new ≡ self.old) }
    {
        if !self.contains_key(node) {
            return Err(ReparentError::GoneNode);
        }
        if !self.contains_key(parent) {
            return Err(ReparentError::GoneParent);
        }
        if self.is_within(parent, node) {
            return Err(ReparentError::Cycle);
        }
        let node = inner(node);
        let parent = inner(parent);
        self.nodes.move_to(node, parent, Side::Before, None);
        Ok(())
    }

    /// Makes a node a root, with its subtree, and returns whether the node exists.
    ///
    /// It takes constant time. It can't fail, and the capacity stays.
    ///
    /// ```
    /// let mut scene: Scene<DefaultKey, &str> = Scene::new(alloc)?;
    /// let car = scene.add_root("car")?;
    /// let wheel = scene.add_child(car, "wheel")?;
    /// assert!(rt; scene.make_root(wheel));
    /// assert_eq!(rt; scene.parent(wheel), None);
    /// assert_eq!(rt; scene.children(car).len(), 0);
    /// ```
    pub fn make_root(&mut self, node: K) -> bool
        ensures which { IsTrue result ↔ has_node self.old.nodes.live (K.data_of node) }
        ensures new { self.new ≡ with_trees self.old (as_root self.old.nodes.live (K.data_of node)) }
        ensures trees { IsMoved self.old.nodes.live self.new.nodes.live (K.data_of node) None (λ ks. ks) }
        ensures values { (k : KeyOf) → value_of self.new.nodes.live k ≡ value_of self.old.nodes.live k }
        ensures capacity { memory self.new ≡ memory self.old }
        ensures stale { KeepsSpent self.old.nodes self.new.nodes }
    {
        let node = inner(node);
        if !self.nodes.contains_key(node) {
            return false;
        }
        self.nodes.detach(node);
        true
    }

    /// Removes a node with its subtree, and returns its value. Their keys are never used again.
    ///
    /// If the node doesn't exist, the call returns `None` and changes nothing. No room is lost, and the
    /// capacity stays.
    ///
    /// ```
    /// let mut scene: Scene<DefaultKey, &str> = Scene::new(alloc)?;
    /// let car = scene.add_root("car")?;
    /// let wheel = scene.add_child(car, "wheel")?;
    /// assert_eq!(rt; scene.remove(car), Some("car"));
    /// assert!(rt; !scene.contains_key(wheel));
    /// assert_eq!(rt; scene.remove(car), None);
    /// ```
    pub fn remove(&mut self, node: K) -> Option<T>
        ensures value { result ≡ value_of self.old.nodes.live (K.data_of node) }
        ensures removed { (k : KeyOf) → IsWithin self.old.nodes.live k (K.data_of node) → lacks_node self.new.nodes.live k }
        ensures others { (k : KeyOf) → (IsWithin self.old.nodes.live k (K.data_of node) → ⊥) →
            map.get self.new.nodes.live k ≡ option_map (forgets (K.data_of node)) (map.get self.old.nodes.live k) }
        ensures leaves { Leaves self.old.nodes self.new.nodes }
        ensures capacity { memory self.new ≡ memory self.old }
        ensures for_good { (k : KeyOf) → has_node self.old.nodes.live k → IsWithin self.old.nodes.live k (K.data_of node) → IsSpent self.new.nodes k }
        ensures stale { KeepsSpent self.old.nodes self.new.nodes }
        ensures fewer { OnSome result (map.len self.new.nodes.live + length (all_below self.old.nodes.live (K.data_of node)) + 1 ≡ map.len self.old.nodes.live) }
        ensures unchanged { IfNone result (self.new ≡ self.old) }
    {
        let node = inner(node);
        if !self.nodes.contains_key(node) {
            return None;
        }
        Some(self.nodes.remove_tree(node))
    }

    // The node with the least index above that of `node`. With none it is the first node.
    fn node_after(&self, node: Option<DefaultKey>) -> Option<K>
        ensures live { IfSome result (λ found. has_node self.now.nodes.live (K.data_of found)) }
        ensures first { IfSome result (λ found. (other : KeyOf) → has_node self.now.nodes.live other →
            index_after (λ k. k) node ≤ other.index → (K.data_of found).index ≤ other.index) }
        ensures none { IfNone result ((other : KeyOf) → has_node self.now.nodes.live other → other.index < index_after (λ k. k) node) }
        ensures valid { IsContent true self.now.nodes }
    {
        Some(outer(self.nodes.next_after(node)?))
    }

    // Removes all nodes, subtree by subtree. While a value is dropped, the nodes and the lists of children
    // agree.
    fn clear_each(&mut self)
        ensures empty { self.new.nodes.live ≡ map.empty }
        ensures leaves { Leaves self.old.nodes self.new.nodes }
        ensures capacity { memory self.new ≡ memory self.old }
        ensures for_good { (k : KeyOf) → has_node self.old.nodes.live k → IsSpent self.new.nodes k }
        ensures stale { KeepsSpent self.old.nodes self.new.nodes }
    {
        // By what `capacity` ensures, the nodes are well formed.
        let _ = self.capacity();
        let mut last = None;
        while let Some(node) = self.node_after(last) {
            self.remove(node);
            last = Some(inner(node));
        }
    }

    /// Removes all nodes. Their keys, and those that were spent before, are never used again. No room is
    /// lost, and the capacity stays.
    ///
    /// It takes time linear in the number of slots that have had a node. It also resets the ends of the list
    /// of children of each node that there is room for, 12 bytes a node.
    ///
    /// ```
    /// let mut scene: Scene<DefaultKey, &str> = Scene::new(alloc)?;
    /// let car = scene.add_root("car")?;
    /// scene.clear();
    /// assert!(rt; !scene.contains_key(car));
    /// ```
    pub fn clear(&mut self)
        ensures empty { self.new.nodes.live ≡ map.empty }
        ensures leaves { Leaves self.old.nodes self.new.nodes }
        ensures capacity { memory self.new ≡ memory self.old }
        ensures for_good { (k : KeyOf) → has_node self.old.nodes.live k → IsSpent self.new.nodes k }
        ensures stale { KeepsSpent self.old.nodes self.new.nodes }
    {
        if drop_may_unwind::<T>() {
            self.clear_each();
            return;
        }
        self.nodes.clear();
    }
}
