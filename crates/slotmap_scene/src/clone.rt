//! Copies of a scene.

ghost use Rattle.std.specs.Prelude.{◌≡◌, IfOk};
ghost use Rattle.slotmap.specs.Words.{ClonesEqual, IsCloneBy, IsCopy};
ghost use Rattle.slotmap_bounded.specs.Bounded.{bound};
ghost use Rattle.slotmap_scene.specs.Family.{IsNodeClone};

use crate::Scene;
use crate::family::Nodes;
use slotmap::Key;
use std::alloc::AllocError;
use std::marker::PhantomData;

impl<T: Clone> Clone for Nodes<T> {
    ghost is_clone = { λ nodes copy. IsCloneBy (IsNodeClone T.is_clone) nodes.nodes copy.nodes × (bound copy.nodes ≡ bound nodes.nodes) × (copy.nodes.room ≡ nodes.nodes.room) };

    fn clone(&self) -> Result<Self, AllocError> {
        Ok(Nodes {
            values: self.values.clone()?,
            parents: self.parents.clone()?,
            children: self.children.clone()?,
        })
    }
}

impl<K: Key, T: Clone> Scene<K, T> {
    /// Returns a copy of the scene: the same trees, with clones of the values under the same keys.
    ///
    /// Both scenes will return the same new keys. The copy has the same room and the same capacity. If
    /// memory runs out, or the clone of a value fails, the call fails, and what was copied is dropped. It
    /// takes time linear in the capacity.
    ///
    /// ```
    /// let mut scene: Scene<DefaultKey, u64> = Scene::new(alloc)?;
    /// let car = scene.add_root(1)?;
    /// let copy = scene.clone()?;
    /// scene.remove(car);
    /// assert_eq!(rt; copy.get(car), Some(&1));
    /// ```
    pub fn clone(&self) -> Result<Self, AllocError>
        ensures clones { IfOk result (λ copy. IsCloneBy (IsNodeClone T.is_clone) self.now.nodes copy.nodes) }
        ensures copies_if_clones_equal { IfOk result (λ copy. ClonesEqual T.is_clone → IsCopy self.now.nodes copy.nodes) }
        ensures capacity { IfOk result (λ copy. bound copy.nodes ≡ bound self.now.nodes) }
        ensures room { IfOk result (λ copy. copy.nodes.room ≡ self.now.nodes.room) }
    {
        Ok(Scene {
            alloc: self.alloc,
            nodes: self.nodes.clone()?,
            key_type: PhantomData,
        })
    }
}

impl<K: Key, T: Clone> Clone for Scene<K, T> {
    ghost is_clone = { λ scene copy. IsCloneBy (IsNodeClone T.is_clone) scene.nodes copy.nodes };

    fn clone(&self) -> Result<Self, AllocError> {
        Scene::clone(self)
    }
}
