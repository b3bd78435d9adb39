//! A loop that removes the nodes that it goes along, and needs no memory.

ghost use Rattle.std.specs.Prelude.{◌≡◌, []};
ghost use Rattle.slotmap_scene.specs.Family.{children_of};

use slotmap::DefaultKey;
use slotmap_scene::Scene;

/// Removes all children of a node, with what is below them. The node stays.
pub fn remove_children(scene: &mut Scene<DefaultKey, u64>, node: DefaultKey)
    ensures { children_of scene.new.nodes.live node ≡ [] }
{
    while let Some(child) = scene.first_child(node) {
        // By what `len` ensures, the nodes form trees: so there is one child less.
        let _ = scene.len();
        scene.remove(child);
    }
}
