//! Guards of scenes: what a user relies on, in other words than the contract of a call, and proved from that one alone.
//!
//! The comment of a clause names what it needs of the contract, and the wrong bodies that it refuses.

ghost use Rattle.std.specs.FinMap as map;
ghost use Rattle.std.specs.Int.{int_wrap, w32};
ghost use Rattle.std.specs.Prelude.{◌≡◌, ◌++◌, ◌∷◌, ◌+ℤ◌, [], Some, None, Err, IfOk, OnOk, IfSome, IfNone};
ghost use Rattle.slotmap.specs.Words.{Key as KeyOf, IsCloneOf};
ghost use Rattle.slotmap_bounded.specs.KeyLists.{without};
ghost use Rattle.slotmap_scene.specs.Climb.{IsWithin, has_node, parent_of};
ghost use Rattle.slotmap_scene.specs.Family.{IsNodeClone, child, children_of, placed, right_before, right_behind};
ghost use Rattle.slotmap_scene.specs.Visits.{entering, leaving, of_each, visit_of, visits_of};

use slotmap::Key;
use slotmap_scene::world::{Offset, Transform};
use slotmap_scene::{
    AddError, Ancestors, ChildKeys, Iter, KeysBelow, MoveError, ReparentError, Roots, Scene, Visit,
    Walk,
};
use std::alloc::AllocError;

/// Guards of `add_child`.
pub fn add_child<K: Key, T: Drop>(
    scene: &mut Scene<K, T>,
    parent: K,
    value: T,
) -> Result<K, AddError<T>>
    // It is behind the other children.
    // Refuses `add_child_comes_first`: `gains` of `add_child`.
    ensures added_child_is_the_last { IfOk result (λ key. children_of scene.new.nodes.live (K.data_of parent)
        ≡ children_of scene.old.nodes.live (K.data_of parent) ++ K.data_of key ∷ []) }
    // It has the parent, the value, and no children.
    // Refuses `add_child_stays_a_root`: `gains` of `add_child`.
    ensures added_child_has_the_parent { IfOk result (λ key. map.get scene.new.nodes.live (K.data_of key) ≡ Some (child (Some (K.data_of parent)) value)) }
{
    scene.add_child(parent, value)
}

/// Guards of `insert_before`.
pub fn insert_before<K: Key, T: Drop>(
    scene: &mut Scene<K, T>,
    sibling: K,
    value: T,
) -> Result<K, AddError<T>>
    // It is right before the sibling.
    // Refuses `insert_before_comes_behind`: `gains` of `insert_before`.
    ensures inserted_child_comes_before { IfOk result (λ key. (p : KeyOf) → parent_of scene.old.nodes.live (K.data_of sibling) ≡ Some p
        → children_of scene.new.nodes.live p ≡ placed right_before (K.data_of sibling) (K.data_of key) (children_of scene.old.nodes.live p)) }
    // It never fails with `Gone`, which is of a parent, and fails with `GoneSibling` only where the
    // sibling has no parent.
    // Refuses `insert_tells_a_gone_sibling_as_a_gone_parent`: `err` of `insert_before`.
    ensures insert_tells_no_gone_parent { (back : T) → result ≡ Err (AddError.Gone back) → ⊥ }
    ensures insert_tells_a_gone_sibling { (back : T) → result ≡ Err (AddError.GoneSibling back) → parent_of scene.old.nodes.live (K.data_of sibling) ≡ None }
{
    scene.insert_before(sibling, value)
}

/// Guards of `insert_after`.
pub fn insert_after<K: Key, T: Drop>(
    scene: &mut Scene<K, T>,
    sibling: K,
    value: T,
) -> Result<K, AddError<T>>
    // It is right behind the sibling.
    // Refuses `put_beside_puts_before`: `gains` of `insert_after`.
    ensures inserted_child_comes_behind { IfOk result (λ key. (p : KeyOf) → parent_of scene.old.nodes.live (K.data_of sibling) ≡ Some p
        → children_of scene.new.nodes.live p ≡ placed right_behind (K.data_of sibling) (K.data_of key) (children_of scene.old.nodes.live p)) }
{
    scene.insert_after(sibling, value)
}

/// Guards of `reparent`.
pub fn reparent<K: Key, T: Drop>(
    scene: &mut Scene<K, T>,
    node: K,
    parent: K,
) -> Result<(), ReparentError>
    // The node is the last child of the parent, also where it was one of its children.
    // Refuses `reparent_leaves_a_child_in_its_place`: `trees` of `reparent`.
    ensures moved_node_is_the_last_child { OnOk result (children_of scene.new.nodes.live (K.data_of parent)
        ≡ without (K.data_of node) (children_of scene.old.nodes.live (K.data_of parent)) ++ K.data_of node ∷ []) }
    // No other node has it as a child, and each keeps its other children.
    // Refuses `reparent_forgets_the_old_list`, `take_out_takes_the_parent`: `trees` of `reparent`.
    ensures moved_node_leaves_its_old_parent { OnOk result ((q : KeyOf) → (Some (K.data_of parent) ≡ Some q → ⊥)
        → children_of scene.new.nodes.live q ≡ without (K.data_of node) (children_of scene.old.nodes.live q)) }
    // It fails with `Cycle` only where the parent is the node, or below it.
    // Refuses `reparent_asks_the_other_way_round`: `err` of `reparent`.
    ensures reparent_tells_cycles { result ≡ Err ReparentError.Cycle → IsWithin scene.old.nodes.live (K.data_of parent) (K.data_of node) }
{
    scene.reparent(node, parent)
}

/// Guards of `move_before`.
pub fn move_before<K: Key, T: Drop>(
    scene: &mut Scene<K, T>,
    node: K,
    sibling: K,
) -> Result<(), MoveError>
    // The node is right before the sibling.
    // Refuses `move_before_comes_behind`: `trees` of `move_before`.
    ensures moved_node_comes_before { OnOk result ((p : KeyOf) → parent_of scene.old.nodes.live (K.data_of sibling) ≡ Some p
        → children_of scene.new.nodes.live p ≡ placed right_before (K.data_of sibling) (K.data_of node) (without (K.data_of node) (children_of scene.old.nodes.live p))) }
    // It fails with `Cycle` only where the sibling is below the node.
    // Refuses `move_beside_asks_the_other_way_round`, `is_below_finds_no_cycle_under_a_parent`: `err` of
    // `move_before`.
    ensures move_tells_cycles { result ≡ Err MoveError.Cycle → IsWithin scene.old.nodes.live (K.data_of sibling) (K.data_of node) }
{
    scene.move_before(node, sibling)
}

/// Guards of `move_to_front`.
pub fn move_to_front<K: Key, T: Drop>(scene: &mut Scene<K, T>, node: K) -> bool
    // A child is in front of its siblings.
    // Refuses `move_to_front_goes_to_the_back`: `trees` of `move_to_front`.
    ensures moved_child_is_the_first { (p : KeyOf) → parent_of scene.old.nodes.live (K.data_of node) ≡ Some p
        → children_of scene.new.nodes.live p ≡ K.data_of node ∷ without (K.data_of node) (children_of scene.old.nodes.live p) }
{
    scene.move_to_front(node)
}

/// Guards of `clone`.
pub fn clone<K: Key, T: Clone>(scene: &Scene<K, T>) -> Result<Scene<K, T>, AllocError>
    // Each node of a copy has a clone of the value, the same parent and the same children.
    // Refuses `clone_forgets_the_parents`: `clones` of `clone`.
    ensures copy_has_the_same_trees { IfOk result (λ copy. (key : KeyOf) → IsCloneOf (IsNodeClone T.is_clone) (map.get scene.now.nodes.live key) (map.get copy.nodes.live key)) }
{
    scene.clone()
}

/// Guards of `walk`.
pub fn walk<K: Key, T: Drop>(scene: &Scene<K, T>, node: K) -> Walk<'_, K, T>
    // The node is entered, its children are visited in their order, and it is left.
    // Holds by `visits` and `each` of `walk`.
    ensures walk_enters_and_leaves_each_node { has_node scene.now.nodes.live (K.data_of node)
        → result ≡ entering (K.data_of node) ∷ of_each (visits_of scene.now.nodes.live) (children_of scene.now.nodes.live (K.data_of node)) ++ leaving (K.data_of node) ∷ [] }
{
    scene.walk(node)
}

/// Guards of `next` of `Walk`.
pub fn walk_next<'a, K: Key, T: Drop>(visits: &mut Walk<'a, K, T>) -> Option<Visit<K>>
    // The first visit that is left is yielded, and then the others are left.
    // Holds by `next_gives` of `Walk`.
    ensures walk_yields_its_first { IfSome result (λ visit. visits.old ≡ visit_of K.data_of visit ∷ visits.new) }
    ensures walk_ends_where_none_is_left { IfNone result (visits.old ≡ []) }
{
    visits.next()
}

/// Guards of `next` of `Ancestors`.
pub fn ancestors_next<'a, K: Key, T: Drop>(keys: &mut Ancestors<'a, K, T>) -> Option<K>
    // The first key that is left is yielded, and then the others are left.
    // Refuses `ancestors_stop_at_the_parent`: `next_gives` of `Ancestors`.
    ensures ancestors_yields_its_first { IfSome result (λ key. keys.old ≡ K.data_of key ∷ keys.new) }
    ensures ancestors_ends_where_none_is_left { IfNone result (keys.old ≡ []) }
{
    keys.next()
}

/// Guards of `next` of `Roots`.
pub fn roots_next<'a, K: Key, T: Drop>(keys: &mut Roots<'a, K, T>) -> Option<K>
    // The first root that is left is yielded, and then the others are left.
    // Refuses `is_root_finds_the_others`, `roots_stop_at_a_child`: `next_gives` of `Roots`.
    ensures roots_yields_its_first { IfSome result (λ key. keys.old ≡ K.data_of key ∷ keys.new) }
    ensures roots_ends_where_none_is_left { IfNone result (keys.old ≡ []) }
{
    keys.next()
}

/// Guards of `next_back` of `ChildKeys`.
pub fn child_keys_next_back<'a, K: Key, T: Drop>(keys: &mut ChildKeys<'a, K, T>) -> Option<K>
    // The last child that is left is yielded, and then the others are left.
    // Refuses `children_from_the_back_yield_another`: `next_back_gives` of `ChildKeys`.
    ensures child_keys_yields_its_last { IfSome result (λ key. keys.old ≡ keys.new ++ K.data_of key ∷ []) }
    ensures child_keys_ends_where_none_is_left { IfNone result (keys.old ≡ []) }
{
    keys.next_back()
}

/// Guards of `next` of `Iter`.
pub fn iter_next<'a, K: Key, T: Drop>(nodes: &mut Iter<'a, K, T>) -> Option<(K, &'a T)>
    // The first node that is left is yielded, and then the others are left.
    // Refuses `iter_ends_at_the_second_slot`: `next_gives` of `Iter`.
    ensures iter_yields_its_first { IfSome result (λ node. nodes.old ≡ (K.data_of node.0, node.1.now) ∷ nodes.new) }
    ensures iter_ends_where_none_is_left { IfNone result (nodes.old ≡ []) }
{
    nodes.next()
}

/// Guards of `next` of `KeysBelow`.
pub fn keys_below_next<'a, K: Key, T: Drop>(keys: &mut KeysBelow<'a, K, T>) -> Option<K>
    // The first key that is left is yielded, and then the others are left.
    // Refuses `keys_below_go_on_from_the_node`: `next_gives` of `KeysBelow`.
    ensures keys_below_yields_its_first { IfSome result (λ key. keys.old ≡ K.data_of key ∷ keys.new) }
    ensures keys_below_ends_where_none_is_left { IfNone result (keys.old ≡ []) }
{
    keys.next()
}

/// Guards of `under` of `Offset`.
pub fn offset_under(offset: &Offset, parent: &Offset) -> Offset
    // Each axis is shifted by its own distance.
    // Refuses `under_adds_the_other_axis`: `under` of `Offset`.
    ensures offset_shifts_along_x { result.x ≡ int_wrap w32 (offset.now.x +ℤ parent.now.x) }
    ensures offset_shifts_along_y { result.y ≡ int_wrap w32 (offset.now.y +ℤ parent.now.y) }
{
    offset.under(parent)
}
