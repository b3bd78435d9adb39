//! Iterators over the nodes above a node, and over the roots.

ghost use Rattle.std.specs.Prelude.{◌≡◌, ◌<◌, nat_eq};
ghost use Rattle.std.specs.Iterator.{YieldsFirstBy, item_count};
ghost use Rattle.slotmap.specs.Words.{Key as KeyOf};
ghost use Rattle.slotmap_bounded.specs.KeyLists.{times};
ghost use Rattle.slotmap_scene.specs.Climb.{has_node, parent_of};
ghost use Rattle.slotmap_scene.specs.Above.{GoesUp, HasRoot, roots_in};
ghost use Rattle.slotmap_scene.specs.Kept.{parent_at};

use crate::Scene;
use crate::family::Nodes;
use crate::links::{NOBODY, index_of};
use slotmap::{DefaultKey, Key, basic};
use slotmap_bounded::{inner, outer};
use std::iter::FusedIterator;
use std::marker::{Model, PhantomData};

/// An iterator over the keys of the nodes above a node: see [`Scene::ancestors`].
///
/// A contract sees it as the list of the keys that it will still yield. After its end it yields
/// nothing.
#[derive(Drop)]
pub struct Ancestors<'a, K, T> {
    nodes: &'a Nodes<T>,
    at: Option<DefaultKey>,
    key_type: PhantomData<K>,
}

impl<'a, K, T> Model for Ancestors<'a, K, T> {
    ghost use Rattle.std.specs.Prelude.{List};
    ghost use Rattle.std.specs.FinMap as map;
    ghost use Rattle.slotmap.specs.Words.{Key};
    ghost use Rattle.slotmap_scene.specs.Above.{keys_up, HasRoot};

    ghost Value = { List Key };

    ghost view = { λ it. keys_up it.nodes.now.nodes.live (map.len it.nodes.now.nodes.live) it.at };

    ghost invariant = { λ it. HasRoot it.nodes.now.nodes.live it.at };
}

impl<'a, K: Key, T: Drop> Iterator for Ancestors<'a, K, T> {
    type Item = K;

    ghost next_gives = { YieldsFirstBy K.data_of (λ rest. rest) };

    ghost remaining = { item_count (λ rest. rest) };

    fn next(&mut self) -> Option<K> {
        let key = self.at?;
        self.at = self.nodes.parent(key);
        Some(outer(key))
    }
}

impl<'a, K: Key, T: Drop> FusedIterator for Ancestors<'a, K, T> {}

/// An iterator over the keys of the roots: see [`Scene::roots`].
///
/// A contract sees it as the list of the keys that it will still yield. After its end it yields nothing.
#[derive(Drop)]
pub struct Roots<'a, K, T> {
    nodes: basic::Keys<'a, DefaultKey, T>,
    parents: &'a [u32],
    key_type: PhantomData<K>,
}

impl<'a, K, T> Model for Roots<'a, K, T> {
    ghost use Rattle.std.specs.Prelude.{List};
    ghost use Rattle.slotmap.specs.Words.{Key};
    ghost use Rattle.slotmap_scene.specs.Kept.{roots_of};

    ghost Value = { List Key };

    ghost view = { λ it. roots_of it.parents.now it.nodes };
}

// Whether a node has no parent.
fn is_root(parents: &[u32], node: DefaultKey) -> bool
    ensures { result ≡ nat_eq (parent_at parents.now node.index) 0 }
{
    match parents.get(index_of(node) as usize) {
        Some(parent) => *parent == NOBODY,
        None => true,
    }
}

impl<'a, K: Key, T: Drop> Iterator for Roots<'a, K, T> {
    type Item = K;

    ghost next_gives = { YieldsFirstBy K.data_of (λ rest. rest) };

    ghost remaining = { item_count (λ rest. rest) };

    fn next(&mut self) -> Option<K> {
        while let Some(node) = self.nodes.next() {
            if is_root(self.parents, node) {
                return Some(outer(node));
            }
        }
        None
    }
}

impl<'a, K: Key, T: Drop> FusedIterator for Roots<'a, K, T> {}

impl<K: Key, T: Drop> Scene<K, T> {
    // The key of the parent of a node.
    pub(crate) fn parent_key(&self, node: DefaultKey) -> Option<DefaultKey>
        ensures value { result ≡ parent_of self.now.nodes.live node }
        ensures rooted { HasRoot self.now.nodes.live result }
    {
        self.nodes.parent(node)
    }

    /// Returns an iterator over the keys of the nodes above a node: its parent first, and its root
    /// last.
    ///
    /// A root has none, and neither has a node that doesn't exist. Each key is that of a node that
    /// exists. It is made in constant time, and each step takes constant time.
    ///
    /// ```
    /// let mut scene: Scene<DefaultKey, &str> = Scene::new(alloc)?;
    /// let car = scene.add_root("car")?;
    /// let wheel = scene.add_child(car, "wheel")?;
    /// let mut above = scene.ancestors(wheel);
    /// assert_eq!(rt; above.next(), Some(car));
    /// assert_eq!(rt; above.next(), None);
    /// ```
    pub fn ancestors(&self, node: K) -> Ancestors<'_, K, T>
        ensures order { GoesUp self.now.nodes.live (parent_of self.now.nodes.live (K.data_of node)) result }
        ensures only { (k : KeyOf) → 0 < times k result → has_node self.now.nodes.live k }
    {
        Ancestors {
            nodes: &self.nodes,
            at: self.parent_key(inner(node)),
            key_type: PhantomData,
        }
    }

    /// Returns an iterator over the keys of the roots, by ascending index.
    ///
    /// It is made in constant time. All its steps together read each slot once.
    ///
    /// ```
    /// let mut scene: Scene<DefaultKey, &str> = Scene::new(alloc)?;
    /// let car = scene.add_root("car")?;
    /// scene.add_child(car, "wheel")?;
    /// let mut roots = scene.roots();
    /// assert_eq!(rt; roots.next(), Some(car));
    /// assert_eq!(rt; roots.next(), None);
    /// ```
    pub fn roots(&self) -> Roots<'_, K, T>
        ensures { result ≡ roots_in self.now.nodes.live }
    {
        Roots {
            nodes: self.nodes.keys(),
            parents: self.nodes.parents(),
            key_type: PhantomData,
        }
    }
}
