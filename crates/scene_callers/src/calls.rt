//! Calls of each kind on scenes of numbers. Those that return a `bool` say whether all that may fail succeeded.

use callers_sums::{EMPTY, SIZE, Sum, keep, pick, tell};
use slotmap::DefaultKey;
use slotmap_scene::world::Offset;
use slotmap_scene::{Scene, Visit};

type Trees = Scene<DefaultKey, u64>;

// Adds a root, and the numbers from 1 to `SIZE` below nodes that are there and beside them, by chance. A root has no siblings.
fn add_all(scene: &mut Trees, nodes: &mut Vec<DefaultKey>) -> bool {
    let mut done = keep(nodes, scene.add_root(0).ok());
    for number in 1..=SIZE {
        let at = pick(nodes.as_slice(), number);
        let is_root = scene.parent(at).is_none();
        let added = match number % 3 {
            0 if !is_root => scene.insert_after(at, number).ok(),
            1 if !is_root => scene.insert_before(at, number).ok(),
            _ => scene.add_child(at, number).ok(),
        };
        done &= keep(nodes, added);
    }
    done
}

// All nodes, each with its number of children and the number above it.
fn sum_of_all(scene: &Trees) -> Sum {
    let mut sum = EMPTY;
    for (node, value) in scene.iter() {
        sum.add(*value);
        sum.add(scene.children(node).len() as u64);
        sum.add_found(scene.get(scene.parent(node).unwrap_or_default()));
    }
    sum
}

// The numbers of the nodes below a node, by links, and those of its children by steps.
fn sum_below(scene: &Trees, node: DefaultKey) -> Sum {
    let mut sum = EMPTY;
    for below in scene.keys_below(node) {
        if scene.contains_key(below) {
            sum.add(scene[below]);
        }
    }
    let mut child = scene.first_child(node).unwrap_or_default();
    for _ in 0..scene.children(node).len() {
        sum.add_found(scene.get(child));
        child = scene.next_sibling(child).unwrap_or_default();
    }
    sum
}

// The numbers of the nodes above a node, its depth, and what its own number folds to with theirs.
fn sum_above(scene: &Trees, node: DefaultKey) -> Sum {
    let mut sum = EMPTY;
    for above in scene.ancestors(node) {
        sum.add_found(scene.get(above));
    }
    sum.add(scene.depth(node).unwrap_or(usize::MAX) as u64);
    let folded = scene.fold_up(node, 0, |total: u64, value: &u64| total ^ *value);
    sum.add(folded.unwrap_or(u64::MAX));
    sum
}

// The numbers of the nodes on a walk where each is entered, and the greatest one where it is left.
fn sum_of_visits(scene: &Trees, node: DefaultKey) -> Sum {
    let mut sum = EMPTY;
    for visit in scene.walk(node) {
        match visit {
            Visit::Enter(key) => sum.add_found(scene.get(key)),
            Visit::Leave(_) => sum.add(u64::MAX),
        }
    }
    sum
}

// Moves nodes by chance in each way. Some moves are refused.
fn move_some(scene: &mut Trees, nodes: &[DefaultKey]) -> Sum {
    let mut sum = EMPTY;
    for turn in 0..SIZE {
        let (node, other) = (pick(nodes, turn), pick(nodes, turn + SIZE));
        let moved = match turn % 5 {
            0 => scene.reparent(node, other).is_ok(),
            1 => scene.move_before(node, other).is_ok(),
            2 => scene.move_after(node, other).is_ok(),
            3 => scene.move_to_front(node),
            _ => scene.move_to_back(node),
        };
        sum.add(u64::from(moved));
    }
    sum
}

// Adds 1 to the number of each node below a node, by steps.
fn write_below(scene: &mut Trees, node: DefaultKey) {
    let mut at = node;
    for _ in 0..scene.len() {
        at = scene.next_below(node, at).unwrap_or_default();
        if let Some(number) = scene.get_mut(at) {
            *number = number.wrapping_add(1);
        }
    }
}

// Makes roots of nodes by chance, and removes others, with what is below them.
fn remove_some(scene: &mut Trees, nodes: &[DefaultKey]) -> Sum {
    let mut sum = EMPTY;
    for turn in 0..SIZE / 10 {
        scene.make_root(pick(nodes, turn));
        sum.add(scene.remove(pick(nodes, turn + SIZE)).unwrap_or(u64::MAX));
    }
    for root in scene.roots() {
        sum.add_found(scene.get(root));
    }
    sum
}

// Prints the numbers of the nodes below a node.
fn tell_below(rt: &HostRuntime, scene: &Trees, node: DefaultKey) -> bool {
    match scene.descendants(node) {
        Ok(below) => {
            let mut sum = EMPTY;
            for node in below.as_slice() {
                sum.add_found(scene.get(*node));
            }
            tell(rt, "below", sum)
        }
        Err(_) => false,
    }
}

// Copies a scene, and removes all from the first one.
fn copy(rt: &HostRuntime, scene: &mut Trees, nodes: &[DefaultKey]) -> bool {
    match scene.clone() {
        Ok(copy) => {
            let removed = tell(rt, "removed", remove_some(scene, nodes));
            scene.clear();
            removed && scene.is_empty() && tell(rt, "copied", sum_of_all(&copy))
        }
        Err(_) => false,
    }
}

// The calls on an empty scene.
fn run_in(rt: &HostRuntime, scene: &mut Trees, nodes: &mut Vec<DefaultKey>) -> bool {
    let done = add_all(scene, nodes);
    let root = nodes.first().copied().unwrap_or_default();
    let last = nodes.last().copied().unwrap_or_default();
    let told = done
        && tell(rt, "by links", sum_below(scene, root))
        && tell_below(rt, scene, root)
        && tell(rt, "above", sum_above(scene, last))
        && tell(rt, "moves", move_some(scene, nodes.as_slice()))
        && tell(rt, "visits", sum_of_visits(scene, root));
    write_below(scene, root);
    told && copy(rt, scene, nodes.as_slice())
}

// Where offsets lie, each below the one before it: both coordinates of each without their signs.
fn run_offsets(rt: &HostRuntime, scene: &mut Scene<DefaultKey, Offset>) -> bool {
    let mut node = scene.add_root(Offset { x: 1, y: 2 }).unwrap_or_default();
    for _ in 0..SIZE {
        let child = scene.add_child(node, Offset { x: 3, y: -4 });
        node = child.unwrap_or_default();
    }
    match scene.world_transforms() {
        Ok(places) => {
            let mut sum = EMPTY;
            for (_, place) in places.as_slice() {
                sum.add(u64::from(place.x.unsigned_abs()));
                sum.add(u64::from(place.y.unsigned_abs()));
            }
            scene.world(node).is_some() && tell(rt, "places", sum)
        }
        Err(_) => false,
    }
}

/// Makes the calls, and returns whether those that may fail succeeded.
pub fn run(rt: &HostRuntime) -> bool {
    let mut nodes = Vec::new(rt.alloc());
    let made = Scene::with_capacity(rt.alloc(), SIZE as usize);
    match (made, Scene::new(rt.alloc())) {
        (Ok(mut scene), Ok(mut offsets)) => {
            run_in(rt, &mut scene, &mut nodes) && run_offsets(rt, &mut offsets)
        }
        _ => false,
    }
}
