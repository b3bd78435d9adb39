//! Depth first search, which lists nodes in the order in which it leaves them.

ghost use Rattle.std.specs.Prelude.{◌≡◌, ◌<◌, ◌≤◌, Some, None, [], ◌∷◌, IfOk, OnOk, true, false, if◌then◌else◌, length, map as list_map};
ghost use Rattle.std.specs.FinMap as map;
ghost use Rattle.slotmap.specs.Words.{Key as KeyOf, IsContent, IsLive, contains_key, put};
ghost use Rattle.slotmap_bounded.specs.KeyLists.{last_or, times};
ghost use Rattle.slotmap_graph.specs.Parts.{IsJoined};
ghost use Rattle.slotmap_graph.specs.Search.{Leads};
ghost use Rattle.slotmap_graph.specs.TopologicalOrder.{HasCycle};
ghost use Rattle.slotmap_paths.specs.Depth.{GoesBackward, IsPostOrder};
ghost use Rattle.slotmap_paths.specs.Deepening.{Deepening, Enters, Found, SearchesFrom, open_node, opened_by, work_left};

use slotmap::{Key, SecondaryMap};
use slotmap_graph::{EdgeKey, Graph};
use std::alloc::{AllocError, Global};

// The nodes that were found.
pub(crate) type Marks<K> = SecondaryMap<K, ()>;

// No node was found.
pub(crate) fn no_marks<K: Key>(alloc: Global) -> Result<Marks<K>, AllocError>
    ensures { IfOk result (λ marks. marks.pairs ≡ map.empty) }
{
    match SecondaryMap::new(alloc) {
        Ok(marks) => Ok(marks),
        Err(_) => Err(AllocError),
    }
}

// Marks a node as found.
pub(crate) fn mark<K: Key>(marks: &mut Marks<K>, node: K) -> Result<(), AllocError>
    ensures { OnOk result (marks.new.pairs ≡ put marks.old.pairs (K.data_of node) tt) }
{
    match marks.insert(node, ()) {
        Ok(_) => Ok(()),
        Err(_) => Err(AllocError),
    }
}

// A node some of whose outgoing edges may be left to follow, and the first of these.
#[derive(Drop)]
pub(crate) struct Open<K> {
    node: K,
    next: Option<EdgeKey>,
}

// A search: the nodes that were found, and those of them that are open, each found from the one before
// it. The others were left, in this order.
pub(crate) struct Depth<K> {
    pub found: Marks<K>,
    pub opened: Vec<Open<K>>,
    pub order: Vec<K>,
}

impl<K: Drop> Drop for Depth<K> {
    fn drop(self) {
        let Depth {
            found: _found,
            opened: _opened,
            order: _order,
        } = self;
    }
}

impl<K: Key> Depth<K> {
    // The nodes that were left.
    fn into_order(self) -> Vec<K>
        ensures { result ≡ self.order }
    {
        let Depth {
            found: _found,
            opened: _opened,
            order,
        } = self;
        order
    }
}

// No node was found.
fn new_depth<K: Key>(alloc: Global) -> Result<Depth<K>, AllocError>
    ensures found { IfOk result (λ search. search.found.pairs ≡ map.empty) }
    ensures opened { IfOk result (λ search. search.opened.items ≡ []) }
    ensures order { IfOk result (λ search. search.order.items ≡ []) }
{
    let found = no_marks(alloc)?;
    Ok(Depth {
        found,
        opened: Vec::new(alloc),
        order: Vec::new(alloc),
    })
}

// Opens a node, unless it was found before.
fn enter<K: Key, N: Drop, E: Drop>(
    graph: &Graph<K, N, E>,
    search: &mut Depth<K>,
    node: K,
) -> Result<(), AllocError>
    ensures enters { OnOk result (Enters graph.now search.old.found.pairs (opened_by K.data_of search.old.opened.items) (K.data_of node)
        search.new.found.pairs (opened_by K.data_of search.new.opened.items)) }
    ensures order { search.new.order ≡ search.old.order }
{
    if search.found.contains_key(node) {
        return Ok(());
    }
    mark(&mut search.found, node)?;
    let next = graph.first_from(node);
    search.opened.push(Open { node, next })?;
    Ok(())
}

// Follows the next edge of a node that was open, which stays open; or leaves the node if there is none.
fn follow<K: Key, N: Drop, E: Drop>(
    graph: &Graph<K, N, E>,
    search: &mut Depth<K>,
    at: Open<K>,
) -> Result<(), AllocError>
    requires joined { IsJoined graph.now }
    requires valid { IsContent true graph.now.nodes }
    ensures visiting { (before : Found) (start : KeyOf)
        → SearchesFrom graph.now before start search.old.found.pairs (open_node K.data_of at ∷ opened_by K.data_of search.old.opened.items) (list_map K.data_of search.old.order.items)
        → OnOk result (SearchesFrom graph.now before start search.new.found.pairs (opened_by K.data_of search.new.opened.items) (list_map K.data_of search.new.order.items)) }
    ensures less { (before : Found) (start : KeyOf)
        → SearchesFrom graph.now before start search.old.found.pairs (open_node K.data_of at ∷ opened_by K.data_of search.old.opened.items) (list_map K.data_of search.old.order.items)
        → OnOk result (work_left graph.now search.new.found.pairs (opened_by K.data_of search.new.opened.items)
        < work_left graph.now search.old.found.pairs (open_node K.data_of at ∷ opened_by K.data_of search.old.opened.items)) }
{
    let Open { node, next } = at;
    let Some(edge) = next else {
        search.order.push(node)?;
        return Ok(());
    };
    let next = graph.next_from(edge);
    search.opened.push(Open { node, next })?;
    match graph.edge_ends(edge) {
        Some(ends) => enter(graph, search, ends.1),
        None => Ok(()),
    }
}

// Finds each node to which a path leads from this one, unless it was found before, and leaves it.
fn visit<K: Key, N: Drop, E: Drop>(
    graph: &Graph<K, N, E>,
    search: &mut Depth<K>,
    start: K,
) -> Result<(), AllocError>
    requires joined { IsJoined graph.now }
    requires valid { IsContent true graph.now.nodes }
    requires live { IsLive graph.now.nodes (K.data_of start) }
    requires closed { search.old.opened.items ≡ [] }
    requires deepening { Deepening graph.now search.old.found.pairs [] (list_map K.data_of search.old.order.items) }
    ensures closed { OnOk result (search.new.opened.items ≡ []) }
    ensures visited { OnOk result (SearchesFrom graph.now search.old.found.pairs (K.data_of start) search.new.found.pairs [] (list_map K.data_of search.new.order.items)) }
{
    enter(graph, search, start)?;
    while let Some(at) = search.opened.pop() {
        follow(graph, search, at)?;
    }
    Ok(())
}

// Finds each node, and leaves it.
fn visit_all<K: Key, N: Drop, E: Drop>(
    graph: &Graph<K, N, E>,
    search: &mut Depth<K>,
) -> Result<(), AllocError>
    requires found { search.old.found.pairs ≡ map.empty }
    requires closed { search.old.opened.items ≡ [] }
    requires order { search.old.order.items ≡ [] }
    ensures deepening { OnOk result (Deepening graph.now search.new.found.pairs [] (list_map K.data_of search.new.order.items)) }
    ensures all { OnOk result ((x : KeyOf) → IsLive graph.now.nodes x → contains_key search.new.found.pairs x ≡ true) }
    ensures joined { IsJoined graph.now }
{
    // by the contracts of these calls, the graph is well formed
    let _ = graph.node_count();
    let _ = graph.node_capacity();
    for node in graph.nodes() {
        visit(graph, search, node)?;
    }
    Ok(())
}

// Finds each node to which a path leads from this one, and leaves it.
fn visit_from<K: Key, N: Drop, E: Drop>(
    graph: &Graph<K, N, E>,
    search: &mut Depth<K>,
    start: K,
) -> Result<(), AllocError>
    requires found { search.old.found.pairs ≡ map.empty }
    requires closed { search.old.opened.items ≡ [] }
    requires order { search.old.order.items ≡ [] }
    ensures none { OnOk result (map.contains_key graph.now.nodes.live (K.data_of start) ≡ false → list_map K.data_of search.new.order.items ≡ []) }
    ensures visited { OnOk result (IsLive graph.now.nodes (K.data_of start)
        → SearchesFrom graph.now map.empty (K.data_of start) search.new.found.pairs [] (list_map K.data_of search.new.order.items)) }
{
    if !graph.contains_node(start) {
        return Ok(());
    }
    // by the contracts of these calls, the graph is well formed
    let _ = graph.node_count();
    let _ = graph.node_capacity();
    visit(graph, search, start)
}

/// Returns all nodes, each once, in the order in which a depth first search leaves them.
///
/// The search leaves a node once it has left each node that it found from there. No clause says so;
/// what follows from it is proved. Where a path leads from a node to one behind it, a path leads back,
/// or one leads to a node that is behind both. In a graph without a cycle each edge begins behind the
/// node where it ends: this is a topological order, reversed.
///
/// It takes time linear in the number of slots of nodes, and in the number of edges. It needs no stack:
/// the open nodes are in a vector. It fails only if memory runs out.
///
/// ```
/// let mut graph: Graph<NodeKey, &str, u64> = Graph::new(alloc)?;
/// let a = graph.add_node("a")?;
/// let b = graph.add_node("b")?;
/// let c = graph.add_node("c")?;
/// graph.add_edge(a, b, 5)?;
/// graph.add_edge(c, a, 6)?;
/// assert_eq!(rt; post_order(alloc, &graph)?.as_slice(), [b, a, c].as_slice());
/// ```
pub fn post_order<K: Key, N: Drop, E: Drop>(
    alloc: Global,
    graph: &Graph<K, N, E>,
) -> Result<Vec<K>, AllocError>
    ensures once { IfOk result (λ order. (x : KeyOf) → times x (list_map K.data_of order.items) ≡ (if map.contains_key graph.now.nodes.live x then 1 else 0)) }
    ensures count { IfOk result (λ order. length order.items ≡ map.len graph.now.nodes.live) }
    ensures in_order { IfOk result (λ order. IsPostOrder graph.now.edges.live (list_map K.data_of order.items)) }
    ensures backward { IfOk result (λ order. (HasCycle graph.now.edges.live → ⊥) → GoesBackward graph.now.edges.live (list_map K.data_of order.items)) }
{
    let mut search = new_depth(alloc)?;
    visit_all(graph, &mut search)?;
    Ok(search.into_order())
}

/// Returns the nodes that are reachable from this one, each once, in the order in which a depth first
/// search leaves them. If the node doesn't exist, there are none.
///
/// The order is like that of [`post_order`], with the same clause on paths. The node itself comes last.
/// It takes time linear in the number of these nodes and their outgoing edges, and in the largest index
/// of one of them: the marks are in a `SecondaryMap`. It fails only if memory runs out.
///
/// ```
/// let mut graph: Graph<NodeKey, &str, u64> = Graph::new(alloc)?;
/// let a = graph.add_node("a")?;
/// let b = graph.add_node("b")?;
/// let c = graph.add_node("c")?;
/// graph.add_edge(a, b, 5)?;
/// graph.add_edge(c, a, 6)?;
/// assert_eq!(rt; post_order_from(alloc, &graph, a)?.as_slice(), [b, a].as_slice());
/// ```
pub fn post_order_from<K: Key, N: Drop, E: Drop>(
    alloc: Global,
    graph: &Graph<K, N, E>,
    start: K,
) -> Result<Vec<K>, AllocError>
    ensures once { IfOk result (λ order. (x : KeyOf) → times x (list_map K.data_of order.items) ≤ 1) }
    ensures found_is_reachable { IfOk result (λ order. (x : KeyOf) → 0 < times x (list_map K.data_of order.items) → Leads graph.now.edges.live (K.data_of start) x) }
    ensures reachable_is_found { IfOk result (λ order. (x : KeyOf) → IsLive graph.now.nodes (K.data_of start)
        → Leads graph.now.edges.live (K.data_of start) x → 0 < times x (list_map K.data_of order.items)) }
    ensures live { IfOk result (λ order. (x : KeyOf) → 0 < times x (list_map K.data_of order.items)
        → IsLive graph.now.nodes (K.data_of start) × IsLive graph.now.nodes x) }
    ensures last { IfOk result (λ order. IsLive graph.now.nodes (K.data_of start) → last_or (list_map K.data_of order.items) None ≡ Some (K.data_of start)) }
    ensures in_order { IfOk result (λ order. IsPostOrder graph.now.edges.live (list_map K.data_of order.items)) }
{
    let mut search = new_depth(alloc)?;
    visit_from(graph, &mut search, start)?;
    Ok(search.into_order())
}
