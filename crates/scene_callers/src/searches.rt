//! Searches of a scene: below a node without memory, and among the places of all nodes.

ghost use Rattle.std.specs.Prelude.{◌≡◌, ◌≢◌, Some, IfOk, IfNone, IfSome};
ghost use Rattle.slotmap.specs.Words.{Key as KeyOf};
ghost use Rattle.slotmap_scene.specs.Climb.{IsWithin};
ghost use Rattle.slotmap_scene.specs.Family.{value_of};
ghost use Rattle.slotmap_scene.specs.Offset.{shifted};
ghost use Rattle.slotmap_scene.specs.WorldValue.{IsWorldOf};

use slotmap::DefaultKey;
use slotmap_scene::Scene;
use slotmap_scene::world::Offset;
use std::alloc::AllocError;

/// Returns the first node below another one that has this value, or `None` if there is none.
pub fn find_below(
    scene: &Scene<DefaultKey, u64>,
    node: DefaultKey,
    value: u64,
) -> Option<DefaultKey>
    ensures some { IfSome result (λ found. IsWithin scene.now.nodes.live found node × (found ≢ node) × (value_of scene.now.nodes.live found ≡ Some value)) }
    ensures none { IfNone result ((k : KeyOf) → IsWithin scene.now.nodes.live k node → k ≢ node → value_of scene.now.nodes.live k ≢ Some value) }
{
    for below in scene.keys_below(node) {
        if scene[below] == value {
            return Some(below);
        }
    }
    None
}

/// Returns a node that lies at this place, or `None` if there is none.
pub fn find_at(
    scene: &Scene<DefaultKey, Offset>,
    place: Offset,
) -> Result<Option<DefaultKey>, AllocError>
    ensures some { IfOk result (λ found. IfSome found (λ node. IsWorldOf shifted (λ own. own) scene.now.nodes.live node place)) }
    ensures none { IfOk result (λ found. IfNone found ((k : KeyOf) → IsWorldOf shifted (λ own. own) scene.now.nodes.live k place → ⊥)) }
{
    let places = scene.world_transforms()?;
    for (node, at) in places.as_slice() {
        if *at == place {
            return Ok(Some(*node));
        }
    }
    Ok(None)
}
