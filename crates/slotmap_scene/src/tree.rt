//! The trees of the nodes: a child is added, a node moves or becomes a root, and a tree is removed.

ghost use Rattle.std.specs.Prelude.{◌≡◌, ◌<◌, ◌≤◌, ◌≢◌, [], List, Some, None, IfErr, IfOk, IfSome, IsOk, OnErr, option_map};
ghost use Rattle.std.specs.FinMap as map;
ghost use Rattle.slotmap.specs.Words.{Key as KeyOf, HasVacant, Inserts, IsSpent, Keeps, KeepsSpent, Leaves};
ghost use Rattle.slotmap_bounded.specs.KeyLists.{times};
ghost use Rattle.slotmap_scene.specs.Climb.{IsWithin, has_node, lacks_node, parent_of};
ghost use Rattle.slotmap_scene.specs.Family.{IsMoved, IsNewChild, IsScene, as_child, as_root, child, children_of, forgets, put_in_place, value_of, with_children_of, without_child};
ghost use Rattle.slotmap_scene.specs.Node.{memory, with_trees};
ghost use Rattle.slotmap_scene.specs.Refusals.{RefusesNode};

use crate::family::Nodes;
use crate::links::{NOBODY, parent_number, put, take_out};
use slotmap::{DefaultKey, InsertError};

// On which side of a sibling a node is put. Before none it comes last, and after none it comes first.
#[derive(Clone, Copy, Debug, Drop)]
pub(crate) enum Side {
    Before,
    After,
}

impl<T: Drop> Nodes<T> {
    // Puts a node that is in no list among the children of a parent.
    #[inline(always)]
    fn attach(
        &mut self,
        node: DefaultKey,
        parent: DefaultKey,
        side: Side,
        sibling: Option<DefaultKey>,
    )
        requires node { has_node self.old.nodes.live node }
        requires parent { has_node self.old.nodes.live parent }
        requires sibling { IfSome sibling (λ s. times s (children_of self.old.nodes.live parent) ≡ 1) }
        requires alone { (p : KeyOf) → times node (children_of self.old.nodes.live p) ≡ 0 }
        ensures { self.new ≡ with_trees self.old (with_children_of self.old.nodes.live (Some parent) (put_in_place side sibling node)) }
    {
        put(&mut self.children, parent, side, sibling, node);
    }

    // Adds a node with no children at a place among the children of a parent.
    #[inline(always)]
    pub fn add(
        &mut self,
        value: T,
        parent: DefaultKey,
        side: Side,
        sibling: Option<DefaultKey>,
    ) -> Result<DefaultKey, InsertError<T>>
        requires scene { IsScene self.old.nodes.live }
        requires parent { has_node self.old.nodes.live parent }
        requires sibling { IfSome sibling (λ s. parent_of self.old.nodes.live s ≡ Some parent) }
        ensures adds { IfOk result (λ key. Inserts (record self.old.nodes { live = with_children_of self.old.nodes.live (Some parent) (put_in_place side sibling key) })
            key (child (Some parent) value) self.new.nodes) }
        ensures gains { IfOk result (λ key. IsNewChild self.old.nodes.live self.new.nodes.live key parent value (put_in_place side sibling key (children_of self.old.nodes.live parent))) }
        ensures scene { IsScene self.new.nodes.live }
        ensures fresh { IfOk result (λ key. lacks_node self.old.nodes.live key) }
        ensures unspent { IfOk result (λ key. IsSpent self.old.nodes key → ⊥) }
        ensures stale { KeepsSpent self.old.nodes self.new.nodes }
        ensures err { IfErr result (RefusesNode self.old.nodes value) }
        ensures reuses { HasVacant self.old.nodes → IsOk result }
        ensures room { 0 < self.old.nodes.room → IsOk result }
        ensures capacity { self.old.nodes.capacity ≤ self.new.nodes.capacity }
        ensures in_place { 0 < self.old.nodes.room → memory self.new ≡ memory self.old }
        ensures unchanged { OnErr result (Keeps self.old.nodes self.new.nodes) }
    {
        let key = self.insert(value, Some(parent))?;
        self.attach(key, parent, side, sibling);
        Ok(key)
    }

    // Takes a node out of the list of its parent, if it has one.
    fn leave(&mut self, node: DefaultKey)
        requires there { has_node self.old.nodes.live node }
        requires scene { IsScene self.old.nodes.live }
        ensures { self.new ≡ with_trees self.old (without_child self.old.nodes.live (parent_of self.old.nodes.live node) node) }
    {
        let parent = parent_number(&self.parents, node);
        if parent != NOBODY {
            take_out(&mut self.children, parent, node);
        }
    }

    // Makes a node a root.
    pub fn detach(&mut self, node: DefaultKey)
        requires there { has_node self.old.nodes.live node }
        requires scene { IsScene self.old.nodes.live }
        ensures detaches { self.new ≡ with_trees self.old (as_root self.old.nodes.live node) }
        ensures trees { IsMoved self.old.nodes.live self.new.nodes.live node None (λ ks. ks) }
        ensures values { (k : KeyOf) → value_of self.new.nodes.live k ≡ value_of self.old.nodes.live k }
        ensures capacity { memory self.new ≡ memory self.old }
        ensures scene { IsScene self.new.nodes.live }
        ensures stale { KeepsSpent self.old.nodes self.new.nodes }
    {
        self.leave(node);
        self.set_parent(node, None);
    }

    // Moves a node to a place among the children of a parent, which is neither the node nor below it.
    pub fn move_to(
        &mut self,
        node: DefaultKey,
        parent: DefaultKey,
        side: Side,
        sibling: Option<DefaultKey>,
    )
        requires node { has_node self.old.nodes.live node }
        requires parent { has_node self.old.nodes.live parent }
        requires sibling { IfSome sibling (λ s. (parent_of self.old.nodes.live s ≡ Some parent) × (node ≢ s)) }
        requires no_cycle { IsWithin self.old.nodes.live parent node → ⊥ }
        requires scene { IsScene self.old.nodes.live }
        ensures moved { self.new ≡ with_trees self.old (as_child self.old.nodes.live node parent (put_in_place side sibling node)) }
        ensures trees { IsMoved self.old.nodes.live self.new.nodes.live node (Some parent) (put_in_place side sibling node) }
        ensures values { (k : KeyOf) → value_of self.new.nodes.live k ≡ value_of self.old.nodes.live k }
        ensures capacity { memory self.new ≡ memory self.old }
        ensures scene { IsScene self.new.nodes.live }
        ensures stale { KeepsSpent self.old.nodes self.new.nodes }
    {
        self.leave(node);
        self.set_parent(node, Some(parent));
        self.attach(node, parent, side, sibling);
    }

    // Removes a node that has no children, and takes it out of the list of its parent.
    fn prune(&mut self, node: DefaultKey) -> T
        requires there { has_node self.old.nodes.live node }
        requires leaf { children_of self.old.nodes.live node ≡ [] }
        requires scene { IsScene self.old.nodes.live }
        ensures value { value_of self.old.nodes.live node ≡ Some result }
        ensures live { self.new.nodes.live ≡ map.remove (without_child self.old.nodes.live (parent_of self.old.nodes.live node) node) node }
        ensures leaves { Leaves self.old.nodes self.new.nodes }
        ensures capacity { memory self.new ≡ memory self.old }
    {
        self.leave(node);
        self.remove(node)
    }

    // Removes a node with all that is below it, and returns its value.
    //
    // It goes down by the last child of each node, as far as a leaf. It removes the leaf, and goes on from
    // the parent.
    pub fn remove_tree(&mut self, root: DefaultKey) -> T
        requires there { has_node self.old.nodes.live root }
        requires scene { IsScene self.old.nodes.live }
        ensures value { value_of self.old.nodes.live root ≡ Some result }
        ensures removed { (k : KeyOf) → IsWithin self.old.nodes.live k root → lacks_node self.new.nodes.live k }
        ensures others { (k : KeyOf) → (IsWithin self.old.nodes.live k root → ⊥) → map.get self.new.nodes.live k ≡ option_map (forgets root) (map.get self.old.nodes.live k) }
        ensures scene { IsScene self.new.nodes.live }
        ensures leaves { Leaves self.old.nodes self.new.nodes }
        ensures capacity { memory self.new ≡ memory self.old }
    {
        let mut at = root;
        loop {
            match self.last(at) {
                Some(child) => at = child,
                None => {
                    let parent = self.parent(at);
                    let value = self.prune(at);
                    if at == root {
                        return value;
                    }
                    let Some(parent) = parent else { unreachable!() };
                    at = parent;
                }
            }
        }
    }
}
