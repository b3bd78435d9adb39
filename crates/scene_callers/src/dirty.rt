//! A loop that writes each node below a node on its way, and needs no memory.

ghost use Rattle.std.specs.Prelude.{◌≡◌, ◌<◌, option_map};
ghost use Rattle.std.specs.FinMap as map;
ghost use Rattle.slotmap.specs.Words.{Key as KeyOf};
ghost use Rattle.slotmap_bounded.specs.Changed.{changed};
ghost use Rattle.slotmap_bounded.specs.KeyLists.{times};
ghost use Rattle.slotmap_scene.specs.Below.{all_below};
ghost use Rattle.slotmap_scene.specs.Node.{with_trees};
ghost use Rattle.scene_callers.specs.Marked.{dirtied};

use slotmap::Key;
use slotmap_scene::Scene;

/// A part of a picture, and whether it has to be drawn again.
#[derive(Clone, Copy, Debug, Drop)]
pub struct Part {
    pub shift: u64,
    pub is_dirty: bool,
}

// Marks one node, if it exists.
fn mark<K: Key>(scene: &mut Scene<K, Part>, key: K)
    ensures { scene.new ≡ with_trees scene.old (changed scene.old.nodes.live (K.data_of key) dirtied) }
{
    if let Some(part) = scene.get_mut(key) {
        part.is_dirty = true;
    }
}

/// Marks each node below a node as dirty, in place. Nothing else changes.
pub fn mark_below<K: Key>(scene: &mut Scene<K, Part>, node: K)
    ensures marked { (k : KeyOf) → 0 < times k (all_below scene.old.nodes.live (K.data_of node))
        → map.get scene.new.nodes.live k ≡ option_map dirtied (map.get scene.old.nodes.live k) }
    ensures others { (k : KeyOf) → times k (all_below scene.old.nodes.live (K.data_of node)) ≡ 0 → map.get scene.new.nodes.live k ≡ map.get scene.old.nodes.live k }
    ensures rest { scene.new ≡ with_trees scene.old scene.new.nodes.live }
{
    // By what `len` ensures, the nodes form trees: so each of them comes once.
    let _ = scene.len();
    let mut at = scene.next_below(node, node);
    while let Some(key) = at {
        mark(scene, key);
        at = scene.next_below(node, key);
    }
}
