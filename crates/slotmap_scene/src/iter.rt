//! Iterators over all nodes.

ghost use Rattle.std.specs.Prelude.{◌≡◌, ◌≤◌, length, Some, IfSome, map as list_map};
ghost use Rattle.std.specs.Iterator.{YieldsFirstBy, item_count, at_most, UpTo};
ghost use Rattle.std.specs.FinMap as map;
ghost use Rattle.slotmap_scene.specs.Node.{key_and_value};

use crate::Scene;
use slotmap::{DefaultKey, Key, basic};
use slotmap_bounded::outer;
use std::iter::FusedIterator;
use std::marker::{Model, PhantomData};

/// An iterator over the nodes of a scene, each with its key and its value: see [`Scene::iter`].
///
/// A contract sees it as the list of what it will still yield. After its end it yields nothing.
#[derive(Drop)]
pub struct Iter<'a, K, T> {
    nodes: basic::Iter<'a, DefaultKey, T>,
    key_type: PhantomData<K>,
}

impl<'a, K, T> Model for Iter<'a, K, T> {
    ghost use Rattle.std.specs.Prelude.{List};
    ghost use Rattle.slotmap.specs.Words.{Key};

    ghost Value = { List (Key × T) };

    ghost view = { λ it. it.nodes };
}

impl<'a, K, T> Iter<'a, K, T> {
    /// Returns how many nodes are left, in constant time.
    ///
    /// ```
    /// let mut scene: Scene<DefaultKey, &str> = Scene::new(alloc)?;
    /// scene.add_root("car")?;
    /// assert_eq!(rt; scene.iter().len(), 1);
    /// ```
    pub fn len(&self) -> usize
        ensures { result ≡ length self.now }
    {
        self.nodes.len()
    }
}

impl<'a, K: Key, T: Drop> Iterator for Iter<'a, K, T> {
    type Item = (K, &'a T);

    ghost next_gives = { YieldsFirstBy (λ item. (K.data_of item.0, item.1.now)) (λ rest. rest) };

    ghost remaining = { item_count (λ rest. rest) };

    fn next(&mut self) -> Option<(K, &'a T)> {
        match self.nodes.next() {
            Some((key, value)) => Some((outer(key), value)),
            None => None,
        }
    }

    fn size_hint(&self) -> (usize, Option<usize>)
        ensures lower { result.0 ≤ length self.now }
        ensures upper { IfSome result.1 (UpTo (at_most (length self.now))) }
        ensures exact { result ≡ (length self.now, Some (length self.now)) }
    {
        let len = self.len();
        (len, Some(len))
    }
}

impl<'a, K: Key, T: Drop> ExactSizeIterator for Iter<'a, K, T> {
    fn len(&self) -> usize {
        Iter::len(self)
    }
}

impl<'a, K: Key, T: Drop> FusedIterator for Iter<'a, K, T> {}

impl<'a, K: Key, T: Drop> IntoIterator for &'a Scene<K, T> {
    type Item = (K, &'a T);

    type IntoIter = Iter<'a, K, T>;

    ghost into_iter_gives = { λ scene it. it ≡ list_map key_and_value (map.entries scene.now.nodes.live) };

    fn into_iter(self) -> Iter<'a, K, T> {
        self.iter()
    }
}

/// An iterator over the keys of the nodes: see [`Scene::keys`].
///
/// A contract sees it as the list of the keys that it will still yield. After its end it yields
/// nothing.
#[derive(Drop)]
pub struct Keys<'a, K, T> {
    nodes: Iter<'a, K, T>,
}

impl<'a, K, T> Model for Keys<'a, K, T> {
    ghost use Rattle.std.specs.Prelude.{List, map as list_map};
    ghost use Rattle.slotmap.specs.Words.{Key};

    ghost Value = { List Key };

    ghost view = { λ it. list_map (λ e. e.0) it.nodes };
}

impl<'a, K: Key, T: Drop> Iterator for Keys<'a, K, T> {
    type Item = K;

    ghost next_gives = { YieldsFirstBy K.data_of (λ rest. rest) };

    ghost remaining = { item_count (λ rest. rest) };

    fn next(&mut self) -> Option<K> {
        match self.nodes.next() {
            Some((key, _)) => Some(key),
            None => None,
        }
    }

    fn size_hint(&self) -> (usize, Option<usize>)
        ensures lower { result.0 ≤ length self.now }
        ensures upper { IfSome result.1 (UpTo (at_most (length self.now))) }
        ensures exact { result ≡ (length self.now, Some (length self.now)) }
    {
        self.nodes.size_hint()
    }
}

impl<'a, K: Key, T: Drop> ExactSizeIterator for Keys<'a, K, T> {
    fn len(&self) -> usize {
        self.nodes.len()
    }
}

impl<'a, K: Key, T: Drop> FusedIterator for Keys<'a, K, T> {}

/// An iterator over the values of the nodes: see [`Scene::values`].
///
/// A contract sees it as the list of the values that it will still yield. After its end it yields
/// nothing.
#[derive(Drop)]
pub struct Values<'a, K, T> {
    nodes: Iter<'a, K, T>,
}

impl<'a, K, T> Model for Values<'a, K, T> {
    ghost use Rattle.std.specs.Prelude.{List, map as list_map};

    ghost Value = { List T };

    ghost view = { λ it. list_map (λ e. e.1) it.nodes };
}

impl<'a, K: Key, T: Drop> Iterator for Values<'a, K, T> {
    type Item = &'a T;

    ghost next_gives = { YieldsFirstBy (λ item. item.now) (λ rest. rest) };

    ghost remaining = { item_count (λ rest. rest) };

    fn next(&mut self) -> Option<&'a T> {
        match self.nodes.next() {
            Some((_, value)) => Some(value),
            None => None,
        }
    }

    fn size_hint(&self) -> (usize, Option<usize>)
        ensures lower { result.0 ≤ length self.now }
        ensures upper { IfSome result.1 (UpTo (at_most (length self.now))) }
        ensures exact { result ≡ (length self.now, Some (length self.now)) }
    {
        self.nodes.size_hint()
    }
}

impl<'a, K: Key, T: Drop> ExactSizeIterator for Values<'a, K, T> {
    fn len(&self) -> usize {
        self.nodes.len()
    }
}

impl<'a, K: Key, T: Drop> FusedIterator for Values<'a, K, T> {}

impl<K: Key, T: Drop> Scene<K, T> {
    /// Returns an iterator over the nodes of all trees, each with its key and its value, by ascending
    /// index. A `for` loop over `&scene` goes over the same.
    ///
    /// It is made in constant time. All its steps together read each slot once.
    ///
    /// ```
    /// let mut scene: Scene<DefaultKey, &str> = Scene::new(alloc)?;
    /// let car = scene.add_root("car")?;
    /// let wheel = scene.add_child(car, "wheel")?;
    /// let mut nodes = scene.iter();
    /// assert_eq!(rt; nodes.next(), Some((car, &"car")));
    /// assert_eq!(rt; nodes.next(), Some((wheel, &"wheel")));
    /// assert!(rt; nodes.next().is_none());
    /// ```
    pub fn iter(&self) -> Iter<'_, K, T>
        ensures { result ≡ list_map key_and_value (map.entries self.now.nodes.live) }
    {
        Iter {
            nodes: self.nodes.iter(),
            key_type: PhantomData,
        }
    }

    /// Returns an iterator over the keys of the nodes of all trees, by ascending index.
    ///
    /// It is made in constant time. All its steps together read each slot once.
    ///
    /// ```
    /// let mut scene: Scene<DefaultKey, &str> = Scene::new(alloc)?;
    /// let car = scene.add_root("car")?;
    /// let wheel = scene.add_child(car, "wheel")?;
    /// let mut keys = scene.keys();
    /// assert_eq!(rt; keys.next(), Some(car));
    /// assert_eq!(rt; keys.next(), Some(wheel));
    /// ```
    pub fn keys(&self) -> Keys<'_, K, T>
        ensures { result ≡ map.keys self.now.nodes.live }
    {
        Keys { nodes: self.iter() }
    }

    /// Returns an iterator over the values of the nodes of all trees, in the order of
    /// [`Scene::iter`].
    ///
    /// It is made in constant time. All its steps together read each slot once.
    ///
    /// ```
    /// let mut scene: Scene<DefaultKey, &str> = Scene::new(alloc)?;
    /// let car = scene.add_root("car")?;
    /// scene.add_child(car, "wheel")?;
    /// let mut values = scene.values();
    /// assert_eq!(rt; values.next(), Some(&"car"));
    /// assert_eq!(rt; values.next(), Some(&"wheel"));
    /// ```
    pub fn values(&self) -> Values<'_, K, T>
        ensures { result ≡ list_map (λ e. e.1.value) (map.entries self.now.nodes.live) }
    {
        Values { nodes: self.iter() }
    }
}
