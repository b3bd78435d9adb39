//! The calls that go up from a node.

ghost use Rattle.std.specs.Prelude.{◌↔◌, IfSome, IfNone, IsTrue};
ghost use Rattle.slotmap_scene.specs.Climb.{ClimbsTo, IsWithin, has_node, lacks_node};

use crate::Scene;
use slotmap::Key;
use slotmap_bounded::inner;

impl<K: Key, T: Drop> Scene<K, T> {
    /// Returns how many nodes are above a node, or `None` if it doesn't exist.
    ///
    /// ```
    /// let mut scene: Scene<DefaultKey, &str> = Scene::new(alloc)?;
    /// let car = scene.add_root("car")?;
    /// let wheel = scene.add_child(car, "wheel")?;
    /// assert_eq!(rt; scene.depth(car), Some(0));
    /// assert_eq!(rt; scene.depth(wheel), Some(1));
    /// scene.remove(wheel);
    /// assert_eq!(rt; scene.depth(wheel), None);
    /// ```
    pub fn depth(&self, node: K) -> Option<usize>
        ensures some { IfSome result (λ steps. ClimbsTo self.now.nodes.live steps (K.data_of node)) }
        ensures none { IfNone result (lacks_node self.now.nodes.live (K.data_of node)) }
    {
        let mut at = inner(node);
        if !self.nodes.contains_key(at) {
            return None;
        }
        for depth in 0..self.nodes.len() {
            match self.nodes.up(at) {
                None => return Some(depth),
                Some(parent) => at = parent,
            }
        }
        None
    }

    /// Returns whether a node exists, and is the other node or below it.
    ///
    /// ```
    /// let mut scene: Scene<DefaultKey, &str> = Scene::new(alloc)?;
    /// let car = scene.add_root("car")?;
    /// let wheel = scene.add_child(car, "wheel")?;
    /// assert!(rt; scene.is_within(wheel, car));
    /// assert!(rt; !scene.is_within(car, wheel));
    /// ```
    pub fn is_within(&self, node: K, other: K) -> bool
        ensures { IsTrue result ↔ (has_node self.now.nodes.live (K.data_of node) × IsWithin self.now.nodes.live (K.data_of node) (K.data_of other)) }
    {
        let mut at = inner(node);
        if !self.nodes.contains_key(at) {
            return false;
        }
        let other = inner(other);
        for _step in 0..self.nodes.len() {
            if at == other {
                return true;
            }
            match self.nodes.up(at) {
                None => return false,
                Some(parent) => at = parent,
            }
        }
        false
    }
}
