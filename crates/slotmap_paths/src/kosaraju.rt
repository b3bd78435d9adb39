//! The strongly connected components of a graph.

ghost use Rattle.std.specs.Prelude.{◌≡◌, ◌<◌, [], IfOk, OnOk, true, false, if◌then◌else◌, map as list_map};
ghost use Rattle.std.specs.List.{All};
ghost use Rattle.std.specs.FinMap as map;
ghost use Rattle.slotmap.specs.Words.{Key as KeyOf, IsBeside, IsContent, IsLive, contains_key};
ghost use Rattle.slotmap_bounded.specs.KeyLists.{times};
ghost use Rattle.slotmap_graph.specs.Parts.{IsJoined};
ghost use Rattle.slotmap_paths.specs.Components.{IsComponent, LeadOnward, times_in};
ghost use Rattle.slotmap_paths.specs.Deepening.{Found};
ghost use Rattle.slotmap_paths.specs.Depth.{IsPostOrder};
ghost use Rattle.slotmap_paths.specs.Gathering.{MarksOne, AreAdded, Collecting, FindsMore, Gathers, HasPrevious, IsLast, StayMarked};

use crate::depth::{Marks, mark, no_marks, post_order};
use slotmap::Key;
use slotmap_graph::Graph;
use std::alloc::{AllocError, Global};

// Marks a node and adds it to those that were found, unless it is marked.
fn find<K: Key>(found: &mut Vec<K>, marks: &mut Marks<K>, node: K) -> Result<(), AllocError>
    ensures { OnOk result (MarksOne marks.old.pairs (list_map K.data_of found.old.items) (K.data_of node) marks.new.pairs (list_map K.data_of found.new.items)) }
{
    if marks.contains_key(node) {
        return Ok(());
    }
    mark(marks, node)?;
    found.push(node)?;
    Ok(())
}

// Finds the nodes from which an edge leads to this one.
fn find_sources<K: Key, N: Drop, E: Drop>(
    graph: &Graph<K, N, E>,
    found: &mut Vec<K>,
    marks: &mut Marks<K>,
    node: K,
) -> Result<(), AllocError>
    requires joined { IsJoined graph.now }
    requires valid { IsContent true graph.now.nodes }
    requires live { IsBeside graph.now.nodes marks.old.pairs }
    ensures extends { (before : Found) → AreAdded before marks.old.pairs (list_map K.data_of found.old.items)
        → OnOk result (FindsMore graph.now before marks.old.pairs (list_map K.data_of found.old.items) (K.data_of node) marks.new.pairs (list_map K.data_of found.new.items)) }
    ensures previous { (before : Found) → AreAdded before marks.old.pairs (list_map K.data_of found.old.items)
        → OnOk result (HasPrevious graph.now.edges.live (K.data_of node) marks.new.pairs) }
{
    for source in graph.neighbours_to(node) {
        find(found, marks, source)?;
    }
    Ok(())
}

// Finds the nodes from which a path leads to the root.
fn find_all<K: Key, N: Drop, E: Drop>(
    graph: &Graph<K, N, E>,
    found: &mut Vec<K>,
    marks: &mut Marks<K>,
    root: K,
) -> Result<(), AllocError>
    requires joined { IsJoined graph.now }
    requires valid { IsContent true graph.now.nodes }
    requires live { IsLive graph.now.nodes (K.data_of root) }
    requires beside { IsBeside graph.now.nodes marks.old.pairs }
    requires unmarked { contains_key marks.old.pairs (K.data_of root) ≡ false }
    requires none { found.old.items ≡ [] }
    ensures { OnOk result (Gathers graph.now marks.old.pairs (K.data_of root) marks.new.pairs (list_map K.data_of found.new.items)) }
{
    find(found, marks, root)?;
    let mut at = 0;
    while at < found.len() {
        let node = found[at];
        find_sources(graph, found, marks, node)?;
        at += 1;
    }
    Ok(())
}

// The component of a node: those that lead to it and aren't marked.
fn component<K: Key, N: Drop, E: Drop>(
    alloc: Global,
    graph: &Graph<K, N, E>,
    marks: &mut Marks<K>,
    root: K,
) -> Result<Vec<K>, AllocError>
    requires joined { IsJoined graph.now }
    requires valid { IsContent true graph.now.nodes }
    requires live { IsLive graph.now.nodes (K.data_of root) }
    requires beside { IsBeside graph.now.nodes marks.old.pairs }
    requires unmarked { contains_key marks.old.pairs (K.data_of root) ≡ false }
    ensures { IfOk result (λ found. Gathers graph.now marks.old.pairs (K.data_of root) marks.new.pairs (list_map K.data_of found.items)) }
{
    let mut found = Vec::new(alloc);
    find_all(graph, &mut found, marks, root)?;
    Ok(found)
}

// Adds the component of a node, unless it is one of those before.
fn add_component<K: Key, N: Drop, E: Drop>(
    alloc: Global,
    graph: &Graph<K, N, E>,
    marks: &mut Marks<K>,
    components: &mut Vec<Vec<K>>,
    node: K,
) -> Result<(), AllocError>
    requires joined { IsJoined graph.now }
    requires valid { IsContent true graph.now.nodes }
    requires live { IsLive graph.now.nodes (K.data_of node) }
    requires last { IsLast graph.now.edges.live marks.old.pairs (K.data_of node) }
    requires collecting { Collecting graph.now marks.old.pairs (list_map (λ c. list_map K.data_of c.items) components.old.items) }
    ensures collecting { OnOk result (Collecting graph.now marks.new.pairs (list_map (λ c. list_map K.data_of c.items) components.new.items)) }
    ensures there { OnOk result (contains_key marks.new.pairs (K.data_of node) ≡ true) }
    ensures kept { OnOk result (StayMarked marks.old.pairs marks.new.pairs) }
{
    if marks.contains_key(node) {
        return Ok(());
    }
    let found = component(alloc, graph, marks, node)?;
    components.push(found)?;
    Ok(())
}

// Adds the component of each node, from the end of the order.
fn add_components<K: Key, N: Drop, E: Drop>(
    alloc: Global,
    graph: &Graph<K, N, E>,
    order: &[K],
    marks: &mut Marks<K>,
    components: &mut Vec<Vec<K>>,
) -> Result<(), AllocError>
    requires once { (x : KeyOf) → times x (list_map K.data_of order.now) ≡ (if map.contains_key graph.now.nodes.live x then 1 else 0) }
    requires in_order { IsPostOrder graph.now.edges.live (list_map K.data_of order.now) }
    requires unmarked { marks.old.pairs ≡ map.empty }
    requires none { components.old.items ≡ [] }
    ensures collecting { OnOk result (Collecting graph.now marks.new.pairs (list_map (λ c. list_map K.data_of c.items) components.new.items)) }
    ensures all { OnOk result ((x : KeyOf) → IsLive graph.now.nodes x → contains_key marks.new.pairs x ≡ true) }
{
    // by the contracts of these calls, the graph is well formed
    let _ = graph.node_count();
    let _ = graph.node_capacity();
    let mut left = order.len();
    while left > 0 {
        left -= 1;
        add_component(alloc, graph, marks, components, order[left])?;
    }
    Ok(())
}

/// Returns the strongly connected components: two nodes are in one component if and only if a path
/// leads from each of them to the other.
///
/// Each node is in one component, once, and no component is empty. A node that is on no cycle is alone in
/// its component. No path leads from a component to one before it. This is the reverse of the order of
/// `petgraph`.
///
/// Its method is that of Kosaraju. It takes time linear in the number of slots of nodes, and in the
/// number of edges. It fails only if memory runs out.
///
/// ```
/// let mut graph: Graph<NodeKey, &str, u64> = Graph::new(alloc)?;
/// let a = graph.add_node("a")?;
/// let b = graph.add_node("b")?;
/// let c = graph.add_node("c")?;
/// graph.add_edge(a, b, 5)?;
/// graph.add_edge(b, a, 6)?;
/// graph.add_edge(c, a, 7)?;
/// let components = kosaraju_scc(alloc, &graph)?;
/// assert_eq!(rt; components.len(), 2);
/// assert_eq!(rt; components[0].as_slice(), [c].as_slice());
/// assert_eq!(rt; components[1].as_slice(), [a, b].as_slice());
/// ```
pub fn kosaraju_scc<K: Key, N: Drop, E: Drop>(
    alloc: Global,
    graph: &Graph<K, N, E>,
) -> Result<Vec<Vec<K>>, AllocError>
    ensures once { IfOk result (λ components. (x : KeyOf) → times_in x (list_map (λ c. list_map K.data_of c.items) components.items)
        ≡ (if map.contains_key graph.now.nodes.live x then 1 else 0)) }
    ensures each { IfOk result (λ components. All (IsComponent graph.now.edges.live) (list_map (λ c. list_map K.data_of c.items) components.items)) }
    ensures onward { IfOk result (λ components. LeadOnward graph.now.edges.live (list_map (λ c. list_map K.data_of c.items) components.items)) }
{
    let order = post_order(alloc, graph)?;
    let mut marks = no_marks(alloc)?;
    let mut components = Vec::new(alloc);
    add_components(alloc, graph, &order, &mut marks, &mut components)?;
    Ok(components)
}
