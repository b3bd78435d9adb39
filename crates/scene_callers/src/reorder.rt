//! Moves of a node of a scene, after which all other nodes stand in the same order among their siblings.

ghost use Rattle.std.specs.Prelude.{◌≡◌, ◌≢◌, ◌++◌, ◌∷◌, [], Some, None, IsTrue, IsFalse};
ghost use Rattle.std.specs.FinMap as map;
ghost use Rattle.slotmap.specs.Words.{Key as KeyOf};
ghost use Rattle.slotmap_bounded.specs.KeyLists.{without};
ghost use Rattle.slotmap_scene.specs.Climb.{parent_of};
ghost use Rattle.slotmap_scene.specs.Family.{children_of, siblings_of, in_front, placed, right_before, value_of};

use slotmap::DefaultKey;
use slotmap_scene::Scene;

/// Moves a node right before another one, and returns whether it could.
///
/// The nodes and their values are the same, and so are the parents of all others.
pub fn place_before(
    scene: &mut Scene<DefaultKey, u64>,
    node: DefaultKey,
    sibling: DefaultKey,
) -> bool
    ensures place { IsTrue result → (p : KeyOf) → parent_of scene.old.nodes.live sibling ≡ Some p
        → children_of scene.new.nodes.live p ≡ placed right_before sibling node (without node (children_of scene.old.nodes.live p)) }
    ensures values { (k : KeyOf) → value_of scene.new.nodes.live k ≡ value_of scene.old.nodes.live k }
    ensures nodes { (k : KeyOf) → map.contains_key scene.new.nodes.live k ≡ map.contains_key scene.old.nodes.live k }
    ensures parents { (k : KeyOf) → k ≢ node → parent_of scene.new.nodes.live k ≡ parent_of scene.old.nodes.live k }
    ensures order { (p : KeyOf) → without node (children_of scene.new.nodes.live p) ≡ without node (children_of scene.old.nodes.live p) }
    ensures unchanged { IsFalse result → scene.new ≡ scene.old }
{
    let Some(_) = scene.parent(sibling) else {
        return false;
    };
    match scene.move_before(node, sibling) {
        Ok(()) => true,
        Err(_) => false,
    }
}

/// Makes a node the last child of another one, and returns whether it could.
pub fn hand_over(scene: &mut Scene<DefaultKey, u64>, node: DefaultKey, parent: DefaultKey) -> bool
    ensures last { IsTrue result → children_of scene.new.nodes.live parent ≡ without node (children_of scene.old.nodes.live parent) ++ node ∷ [] }
    ensures nodes { (k : KeyOf) → map.contains_key scene.new.nodes.live k ≡ map.contains_key scene.old.nodes.live k }
    ensures order { (p : KeyOf) → without node (children_of scene.new.nodes.live p) ≡ without node (children_of scene.old.nodes.live p) }
    ensures unchanged { IsFalse result → scene.new ≡ scene.old }
{
    match scene.reparent(node, parent) {
        Ok(()) => true,
        Err(_) => false,
    }
}

/// Moves a node one place to the front among its siblings, as an editor's "move up" does. It returns
/// `false`, and changes nothing, if the node has no sibling before it.
pub fn move_up(scene: &mut Scene<DefaultKey, u64>, node: DefaultKey) -> bool
    ensures place { IsTrue result → (s p : KeyOf) → in_front None node (siblings_of scene.old.nodes.live node) ≡ Some s → parent_of scene.old.nodes.live s ≡ Some p
        → children_of scene.new.nodes.live p ≡ placed right_before s node (without node (children_of scene.old.nodes.live p)) }
    ensures nodes { (k : KeyOf) → map.contains_key scene.new.nodes.live k ≡ map.contains_key scene.old.nodes.live k }
    ensures parents { (k : KeyOf) → k ≢ node → parent_of scene.new.nodes.live k ≡ parent_of scene.old.nodes.live k }
    ensures unchanged { IsFalse result → scene.new ≡ scene.old }
{
    let Some(sibling) = scene.prev_sibling(node) else {
        return false;
    };
    match scene.move_before(node, sibling) {
        Ok(()) => true,
        Err(_) => false,
    }
}
