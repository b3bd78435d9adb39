//! The iterator over the keys of a node's children.

ghost use Rattle.std.specs.Prelude.{◌≡◌, ◌≤◌, length, Some, IfSome, ⊤};
ghost use Rattle.std.specs.Iterator.{YieldsFirstBy, YieldsLastBy, item_count, at_most, UpTo};

use slotmap::{DefaultKey, Key};
use slotmap_bounded::{BoundedMap, outer};
use slotmap_links::Members;
use std::alloc::AllocError;
use std::fmt;
use std::iter::FusedIterator;
use std::marker::{Model, PhantomData};

/// An iterator over the keys of a node's children, in order, from both ends: see [`Scene::children`].
///
/// A contract sees it as the list of the keys that it will still yield. After its end it yields
/// nothing. A clone yields the same keys; cloning can't fail.
///
/// [`Scene::children`]: crate::Scene::children
#[derive(Drop)]
pub struct ChildKeys<'a, K, T> {
    pub(crate) nodes: &'a BoundedMap<DefaultKey, T>,
    pub(crate) members: Members<'a>,
    pub(crate) key_type: PhantomData<K>,
}

impl<'a, K, T> Model for ChildKeys<'a, K, T> {
    ghost use Rattle.std.specs.Prelude.{List};
    ghost use Rattle.slotmap.specs.Words.{Key};

    ghost Value = { List Key };

    ghost use Rattle.slotmap_bounded.specs.Indices.{AreIndices, HaveIndices, keys_at};

    ghost view = { λ it. keys_at it.nodes.now.live it.members };

    ghost invariant = { λ it. HaveIndices it.nodes.now × AreIndices it.nodes.now it.members };
}

impl<'a, K, T> ChildKeys<'a, K, T> {
    /// Returns how many keys are left, in constant time.
    ///
    /// ```
    /// let mut scene: Scene<DefaultKey, &str> = Scene::new(alloc)?;
    /// let car = scene.add_root("car")?;
    /// scene.add_child(car, "wheel")?;
    /// let mut children = scene.children(car);
    /// assert_eq!(rt; children.len(), 1);
    /// children.next();
    /// assert_eq!(rt; children.len(), 0);
    /// ```
    pub fn len(&self) -> usize
        ensures { result ≡ length self.now }
    {
        self.members.len()
    }
}

impl<'a, K, T> Clone for ChildKeys<'a, K, T> {
    ghost is_clone = { λ it copy. copy ≡ it };

    ghost is_infallible = { λ _. ⊤ };

    fn clone(&self) -> Result<Self, AllocError> {
        Ok(ChildKeys {
            nodes: self.nodes,
            members: self.members.clone()?,
            key_type: PhantomData,
        })
    }
}

impl<'a, K: Key, T: Drop> Iterator for ChildKeys<'a, K, T> {
    type Item = K;

    ghost next_gives = { YieldsFirstBy K.data_of (λ rest. rest) };

    ghost remaining = { item_count (λ rest. rest) };

    fn next(&mut self) -> Option<K> {
        let index = self.members.next()?;
        Some(outer(self.nodes.live_key(index)))
    }

    fn size_hint(&self) -> (usize, Option<usize>)
        ensures lower { result.0 ≤ length self.now }
        ensures upper { IfSome result.1 (UpTo (at_most (length self.now))) }
        ensures exact { result ≡ (length self.now, Some (length self.now)) }
    {
        let len = self.len();
        (len, Some(len))
    }
}

impl<'a, K: Key, T: Drop> DoubleEndedIterator for ChildKeys<'a, K, T> {
    ghost next_back_gives = { YieldsLastBy K.data_of (λ rest. rest) };

    fn next_back(&mut self) -> Option<K> {
        let index = self.members.next_back()?;
        Some(outer(self.nodes.live_key(index)))
    }
}

impl<'a, K: Key, T: Drop> ExactSizeIterator for ChildKeys<'a, K, T> {
    fn len(&self) -> usize {
        ChildKeys::len(self)
    }
}

impl<'a, K: Key, T: Drop> FusedIterator for ChildKeys<'a, K, T> {}

impl<'a, K, T> fmt::Debug for ChildKeys<'a, K, T> {
    fn fmt<W: fmt::Write>(&self, f: &mut fmt::Formatter<W>) -> fmt::Result {
        f.debug_struct("ChildKeys")
            .field("remaining", &self.len())
            .finish()
    }
}
