//! A scene with room that is emptied and takes more, which can't fail.

use slotmap::{DefaultKey, ReserveError};
use slotmap_scene::Scene;
use std::alloc::Global;

/// Makes a scene with room for two nodes, adds a root, clears the scene and adds another one. Only the
/// making may fail, and the capacity stays.
pub fn refilled_scene(alloc: Global, value: u64) -> Result<Scene<DefaultKey, u64>, ReserveError> {
    let mut scene = Scene::with_capacity_and_key(alloc, 2)?;
    let capacity = scene.capacity();
    let Ok(_) = scene.add_root(0) else {
        unreachable!()
    };
    scene.clear();
    let Ok(_) = scene.add_root(value) else {
        unreachable!()
    };
    prove_eq!(scene.capacity(), capacity);
    Ok(scene)
}
