//! A walk that enters each node before those below it, and leaves it after them.

ghost use Rattle.std.specs.Prelude.{◌≡◌, ◌∷◌, ◌++◌, [], Some, option_map};
ghost use Rattle.std.specs.Iterator.{YieldsFirstBy, item_count};
ghost use Rattle.slotmap.specs.Words.{Key as KeyOf};
ghost use Rattle.slotmap_scene.specs.Climb.{has_node, lacks_node};
ghost use Rattle.slotmap_scene.specs.Family.{children_of};
ghost use Rattle.slotmap_scene.specs.Visits.{IsWalk, entering, of_each, leaving, visit_of, visits_from, visits_of};

use crate::Scene;
use slotmap::Key;
use slotmap_bounded::inner;
use std::iter::FusedIterator;
use std::marker::Model;

/// A visit of a node: see [`Scene::walk`].
#[derive(Clone, Copy, Debug, Drop, PartialEq, Eq)]
pub enum Visit<K> {
    /// The node comes before those below it.
    Enter(K),
    /// The node comes after those below it.
    Leave(K),
}

/// An iterator over the visits of a node and of all below it: see [`Scene::walk`].
///
/// A contract sees it as the list of the visits that it will still yield. After its end it yields
/// nothing.
#[derive(Drop)]
pub struct Walk<'a, K: Key, T> {
    scene: &'a Scene<K, T>,
    node: K,
    // The visit that comes next.
    at: Option<Visit<K>>,
}

impl<'a, K: Key, T> Model for Walk<'a, K, T> {
    ghost use Rattle.std.specs.Prelude.{List, option_map};
    ghost use Rattle.slotmap.specs.Words.{Key};
    ghost use Rattle.slotmap_scene.specs.Visits.{IsWalk, SeenVisit, visit_of, visits_from};

    ghost Value = { List SeenVisit };

    ghost view = { λ it. visits_from it.scene.now.nodes.live (K.data_of it.node) (option_map (visit_of K.data_of) it.at) };

    ghost invariant = { λ it. IsWalk it.scene.now.nodes.live (K.data_of it.node) (option_map (visit_of K.data_of) it.at) };
}

impl<'a, K: Key, T: Drop> Iterator for Walk<'a, K, T> {
    type Item = Visit<K>;

    ghost next_gives = { YieldsFirstBy (visit_of K.data_of) (λ rest. rest) };

    ghost remaining = { item_count (λ rest. rest) };

    fn next(&mut self) -> Option<Visit<K>> {
        let visit = self.at?;
        self.at = self.scene.next_visit(self.node, visit);
        Some(visit)
    }
}

impl<'a, K: Key, T: Drop> FusedIterator for Walk<'a, K, T> {}

impl<K: Key, T: Drop> Scene<K, T> {
    // What comes once a node was left: its next sibling is entered, or its parent is left.
    fn next_left(&self, node: K, key: K) -> Option<Visit<K>>
        requires { IsWalk self.now.nodes.live (K.data_of node) (Some (leaving (K.data_of key))) }
        ensures walk { IsWalk self.now.nodes.live (K.data_of node) (option_map (visit_of K.data_of) result) }
        ensures rest { visits_from self.now.nodes.live (K.data_of node) (Some (leaving (K.data_of key)))
            ≡ leaving (K.data_of key) ∷ visits_from self.now.nodes.live (K.data_of node) (option_map (visit_of K.data_of) result) }
    {
        let end = inner(node);
        if inner(key) == end {
            return None;
        }
        if let Some(next) = self.next_sibling(key) {
            return Some(Visit::Enter(next));
        }
        let parent = self.parent(key)?;
        Some(Visit::Leave(parent))
    }

    // What comes once a node was entered: its first child is entered, or it is left.
    fn next_entered(&self, node: K, key: K) -> Option<Visit<K>>
        requires { IsWalk self.now.nodes.live (K.data_of node) (Some (entering (K.data_of key))) }
        ensures walk { IsWalk self.now.nodes.live (K.data_of node) (option_map (visit_of K.data_of) result) }
        ensures rest { visits_from self.now.nodes.live (K.data_of node) (Some (entering (K.data_of key)))
            ≡ entering (K.data_of key) ∷ visits_from self.now.nodes.live (K.data_of node) (option_map (visit_of K.data_of) result) }
    {
        if let Some(child) = self.first_child(key) {
            return Some(Visit::Enter(child));
        }
        Some(Visit::Leave(key))
    }

    // The visit behind this one.
    fn next_visit(&self, node: K, visit: Visit<K>) -> Option<Visit<K>>
        requires { IsWalk self.now.nodes.live (K.data_of node) (Some (visit_of K.data_of visit)) }
        ensures walk { IsWalk self.now.nodes.live (K.data_of node) (option_map (visit_of K.data_of) result) }
        ensures rest { visits_from self.now.nodes.live (K.data_of node) (Some (visit_of K.data_of visit))
            ≡ visit_of K.data_of visit ∷ visits_from self.now.nodes.live (K.data_of node) (option_map (visit_of K.data_of) result) }
    {
        match visit {
            Visit::Enter(key) => self.next_entered(node, key),
            Visit::Leave(key) => self.next_left(node, key),
        }
    }

    /// Returns an iterator over the visits of a node and of all below it: each node is entered before its
    /// children, and left after them. The children are visited in their order.
    ///
    /// A node that doesn't exist has no visits. The iterator allocates nothing: it goes by the links between
    /// the nodes. It is made in constant time, and each step takes constant time.
    ///
    /// ```
    /// let mut scene: Scene<DefaultKey, &str> = Scene::new(alloc)?;
    /// let car = scene.add_root("car")?;
    /// let door = scene.add_child(car, "door")?;
    /// let mut walk = scene.walk(car);
    /// assert_eq!(rt; walk.next(), Some(Visit::Enter(car)));
    /// assert_eq!(rt; walk.next(), Some(Visit::Enter(door)));
    /// assert_eq!(rt; walk.next(), Some(Visit::Leave(door)));
    /// assert_eq!(rt; walk.next(), Some(Visit::Leave(car)));
    /// assert_eq!(rt; walk.next(), None);
    /// ```
    pub fn walk(&self, node: K) -> Walk<'_, K, T>
        ensures visits { has_node self.now.nodes.live (K.data_of node) → result ≡ visits_of self.now.nodes.live (K.data_of node) }
        ensures none { lacks_node self.now.nodes.live (K.data_of node) → result ≡ [] }

        // Each node is entered, its children are visited in their order, and it is left.
        ensures each { (k : KeyOf) → has_node self.now.nodes.live k
            → visits_of self.now.nodes.live k ≡ entering k ∷ of_each (visits_of self.now.nodes.live) (children_of self.now.nodes.live k) ++ leaving k ∷ [] }
    {
        let _ = &self.alloc;
        if !self.contains_key(node) {
            return Walk {
                scene: self,
                node,
                at: None,
            };
        }
        Walk {
            scene: self,
            node,
            at: Some(Visit::Enter(node)),
        }
    }
}
