//! Calls of each kind on graphs of numbers. Those that return a `bool` say whether all that may fail succeeded.

use callers_sums::{EMPTY, SIZE, Sum, keep, pick, tell};
use slotmap::NodeKey;
use slotmap_graph::{EdgeKey, Graph};

type Net = Graph<NodeKey, u64, u64>;

// Adds nodes of the numbers below `SIZE`, with an edge to each from the hub, a path through them, and edges by chance.
fn build(graph: &mut Net, hub: NodeKey, nodes: &mut Vec<NodeKey>) -> bool {
    let (mut done, mut last) = (graph.reserve_edges(SIZE as usize).is_ok(), hub);
    for number in 0..SIZE {
        done &= keep(nodes, graph.add_node(number).ok());
    }
    for (value, node) in nodes.iter().enumerate() {
        let (value, other) = (value as u64, pick(nodes.as_slice(), value as u64));
        done &= graph.add_edge(hub, *node, value).is_ok();
        done &= value == 0 || graph.add_edge(*node, last, value).is_ok();
        if graph.node(other) < graph.node(*node) {
            done &= graph.add_edge(*node, other, value).is_ok();
        }
        last = *node;
    }
    done
}

// Each of these nodes that is there, with its number of edges, and the numbers of the edges from it and to it.
fn sum_of(graph: &Net, nodes: &[NodeKey]) -> Sum {
    let mut sum = EMPTY;
    for node in nodes {
        if let Some(number) = graph.node(*node) {
            sum.add(*number);
            sum.add(graph.out_degree(*node) as u64);
            for edge in graph.edges_from(*node) {
                sum.add_found(graph.edge(edge));
            }
            for edge in graph.edges_to(*node) {
                sum.add_found(graph.edge(edge));
            }
        }
    }
    sum
}

// Each edge: the numbers of its ends, and its own, which is also found by its key. Then the number of each node.
fn sum_of_all(graph: &Net) -> Sum {
    let mut sum = EMPTY;
    for (edge, from, to, value) in graph.edge_references() {
        sum.add(graph[from]);
        sum.add(graph[to]);
        sum.add(*value);
        sum.add_found(graph.edge(edge));
    }
    for node in graph.nodes() {
        sum.add_found(graph.node(node));
    }
    sum
}

// The numbers of the nodes to which a node's edges lead, and those from which edges lead to it.
fn sum_beside(graph: &Net, node: NodeKey) -> Sum {
    let mut sum = EMPTY;
    for to in graph.neighbours_from(node) {
        sum.add(graph[to]);
    }
    for from in graph.neighbours_to(node) {
        sum.add(graph[from]);
    }
    sum
}

// Adds 1 to the number of each edge from a node, one after the other.
fn write_along(graph: &mut Net, node: NodeKey) {
    let mut edge = graph.first_from(node).unwrap_or_default();
    for _ in 0..graph.out_degree(node) {
        if let Some(number) = graph.edge_mut(edge) {
            *number = number.wrapping_add(1);
        }
        edge = graph.next_from(edge).unwrap_or_default();
    }
}

// Prints the numbers of nodes that a call listed, or says that it failed.
fn tell_nodes<E: Drop>(
    rt: &HostRuntime,
    what: &str,
    graph: &Net,
    nodes: Result<Vec<NodeKey>, E>,
) -> bool {
    match nodes {
        Ok(nodes) => {
            let mut sum = EMPTY;
            for node in nodes.as_slice() {
                sum.add_found(graph.node(*node));
            }
            tell(rt, what, sum)
        }
        Err(_) => false,
    }
}

// What the searches find.
fn search(rt: &HostRuntime, graph: &Net, hub: NodeKey, last: NodeKey) -> bool {
    tell(rt, "beside", sum_beside(graph, last))
        && tell_nodes(rt, "neighbours", graph, graph.neighbours(rt.alloc(), hub))
        && tell_nodes(rt, "reachable", graph, graph.reachable(rt.alloc(), last))
        && tell_nodes(rt, "in order", graph, graph.topological_order(rt.alloc()))
}

// The edge that stands in the way of an order.
fn closing(rt: &HostRuntime, graph: &Net) -> Option<EdgeKey> {
    graph.topological_order(rt.alloc()).err()?.edge()
}

// Adds an edge that closes a cycle, which is in the way of an order, and removes it.
fn close(rt: &HostRuntime, graph: &mut Net, from: NodeKey, to: NodeKey) -> bool {
    let back = graph.add_edge(from, to, 7).unwrap_or_default();
    let closing = closing(rt, graph).unwrap_or_default();
    graph.contains_edge(closing)
        && graph.find_edge(from, to) == Some(back)
        && graph.edge_ends(back) == Some((from, to))
        && graph.remove_edge(back) == Some(7)
}

// Doubles the number of each node, and removes edges and nodes by chance.
fn remove_some(graph: &mut Net, nodes: &[NodeKey]) -> Sum {
    let mut sum = EMPTY;
    for node in nodes {
        if let Some(number) = graph.node_mut(*node) {
            *number = number.wrapping_mul(2);
        }
    }
    for turn in 0..SIZE / 2 {
        let edge = graph.first_to(pick(nodes, turn)).unwrap_or_default();
        sum.add(graph.remove_edge(edge).unwrap_or(u64::MAX));
        let node = pick(nodes, turn + SIZE);
        sum.add(graph.remove_node(node).unwrap_or(u64::MAX));
    }
    sum.add(graph.edge_count() as u64);
    sum
}

// Copies a graph, and removes all from the first one.
fn copy(rt: &HostRuntime, graph: &mut Net, nodes: &[NodeKey], hub: NodeKey) -> bool {
    match graph.clone() {
        Ok(copy) => {
            graph.remove_edges_of(hub);
            let told = tell(rt, "without the hub", sum_of(graph, nodes));
            graph.clear();
            told && graph.is_empty() && tell(rt, "copied", sum_of(&copy, nodes))
        }
        Err(_) => false,
    }
}

// The calls on an empty graph.
fn run_in(rt: &HostRuntime, graph: &mut Net, nodes: &mut Vec<NodeKey>) -> bool {
    let hub = graph.add_node(SIZE).unwrap_or_default();
    let built = build(graph, hub, nodes) && tell(rt, "built", sum_of_all(graph));
    let last = nodes.last().copied().unwrap_or_default();
    write_along(graph, hub);
    built
        && search(rt, graph, hub, last)
        && close(rt, graph, last, hub)
        && tell(rt, "removed", remove_some(graph, nodes.as_slice()))
        && copy(rt, graph, nodes.as_slice(), hub)
}

/// Makes the calls, and returns whether those that may fail succeeded.
pub fn run(rt: &HostRuntime) -> bool {
    let mut nodes = Vec::new(rt.alloc());
    match Graph::with_capacity(rt.alloc(), SIZE as usize, SIZE as usize) {
        Ok(mut graph) => run_in(rt, &mut graph, &mut nodes),
        Err(_) => false,
    }
}
