//! A log on the water, and a leaf on it.

use slotmap::DefaultKey;
use slotmap_scene::Scene;
use slotmap_scene::world::Offset;
use std::alloc::Global;

/// The log lies somewhere on the pond, and the leaf somewhere on the log.
#[derive(Drop)]
pub struct Log {
    scene: Scene<DefaultKey, Offset>,
    log: DefaultKey,
    leaf: DefaultKey,
}

impl Log {
    /// Makes a log with a leaf, or returns `None` if memory runs out.
    pub fn new(alloc: Global) -> Option<Log> {
        let mut scene = Scene::new(alloc).ok()?;
        let log = scene.add_root(Offset { x: 1, y: 0 }).ok()?;
        let leaf = scene.add_child(log, Offset { x: 0, y: 2 }).ok()?;
        Some(Log { scene, log, leaf })
    }

    /// The log moves by three steps.
    pub fn drift(&mut self) {
        if let Some(place) = self.scene.get_mut(self.log) {
            place.x = place.x.wrapping_add(3);
        }
    }

    /// Where the leaf lies on the pond.
    pub fn leaf(&self) -> Option<Offset> {
        self.scene.world(self.leaf)
    }
}
