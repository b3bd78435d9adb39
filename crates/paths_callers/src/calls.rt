//! Calls of each kind that search a graph of numbers. Those that return a `bool` say whether all that may fail succeeded.

use callers_sums::{EMPTY, SIZE, Sum, chance, keep, pick, tell};
use slotmap::{NodeKey, SecondaryMap};
use slotmap_graph::Graph;
use slotmap_paths::{
    Costs, Paths, kosaraju_scc, path_to, post_order, post_order_from, shortest_paths,
};
use std::alloc::AllocError;

type Roads = Graph<NodeKey, u64, u64>;

// Adds nodes of the numbers below `SIZE`, and edges between them by chance, with costs by chance.
fn build(roads: &mut Roads, costs: &mut Costs, nodes: &mut Vec<NodeKey>) -> bool {
    let mut done = true;
    for number in 0..SIZE {
        done &= keep(nodes, roads.add_node(number).ok());
    }
    for turn in 0..SIZE * 2 {
        let from = pick(nodes.as_slice(), turn);
        let to = pick(nodes.as_slice(), turn + SIZE * 2);
        let cost = chance(turn + SIZE * 4) % 1000;
        done &= match roads.add_edge(from, to, cost) {
            Ok(edge) => costs.insert(edge, cost).is_ok(),
            Err(_) => false,
        };
    }
    done
}

// Adds what the edges to a node cost in all. Where it wasn't found, it adds nothing.
fn add_route(
    rt: &HostRuntime,
    roads: &Roads,
    costs: &Costs,
    paths: &Paths<NodeKey>,
    node: NodeKey,
    sum: &mut Sum,
) -> bool {
    match path_to(rt.alloc(), roads, paths, node) {
        Ok(Some(edges)) => {
            let mut cost: u64 = 0;
            for edge in edges.as_slice() {
                cost = cost.wrapping_add(*costs.get(*edge).unwrap_or(&0));
            }
            sum.add(cost);
            true
        }
        Ok(None) => true,
        Err(_) => false,
    }
}

// Prints the distance of each node that is found from another one, and what the edges to it cost.
fn find(rt: &HostRuntime, roads: &Roads, costs: &Costs, nodes: &[NodeKey], from: NodeKey) -> bool {
    match shortest_paths(rt.alloc(), roads, from, costs) {
        Ok(paths) => {
            let (mut done, mut sum) = (true, EMPTY);
            for node in nodes {
                if let Some(reached) = paths.get(*node) {
                    sum.add(reached.distance);
                }
                done &= add_route(rt, roads, costs, &paths, *node, &mut sum);
            }
            done && tell(rt, "routes", sum)
        }
        Err(_) => false,
    }
}

// Prints the numbers of nodes in the order in which they are left.
fn tell_order(
    rt: &HostRuntime,
    what: &str,
    roads: &Roads,
    order: Result<Vec<NodeKey>, AllocError>,
) -> bool {
    match order {
        Ok(order) => {
            let mut sum = EMPTY;
            for node in order.as_slice() {
                sum.add_found(roads.node(*node));
            }
            tell(rt, what, sum)
        }
        Err(_) => false,
    }
}

// How many components there are, and the sum of the least numbers of all nodes' components.
fn tell_components(rt: &HostRuntime, roads: &Roads) -> bool {
    match kosaraju_scc(rt.alloc(), roads) {
        Ok(components) => {
            let mut leasts: u64 = 0;
            for component in components.as_slice() {
                let mut least = u64::MAX;
                for node in component.as_slice() {
                    least = least.min(*roads.node(*node).unwrap_or(&u64::MAX));
                }
                leasts = leasts.wrapping_add(least.wrapping_mul(component.len() as u64));
            }
            let mut sum = EMPTY;
            sum.add(components.len() as u64);
            sum.add(leasts);
            tell(rt, "components", sum)
        }
        Err(_) => false,
    }
}

// The calls on an empty graph and an empty table.
fn run_in(
    rt: &HostRuntime,
    roads: &mut Roads,
    costs: &mut Costs,
    nodes: &mut Vec<NodeKey>,
) -> bool {
    let done = build(roads, costs, nodes);
    let last = nodes.last().copied().unwrap_or_default();
    done && find(rt, roads, costs, nodes.as_slice(), last)
        && tell_order(rt, "left", roads, post_order(rt.alloc(), roads))
        && tell_order(rt, "below", roads, post_order_from(rt.alloc(), roads, last))
        && tell_components(rt, roads)
}

/// Makes the calls, and returns whether those that may fail succeeded.
pub fn run(rt: &HostRuntime) -> bool {
    let mut nodes = Vec::new(rt.alloc());
    match (Graph::new(rt.alloc()), SecondaryMap::new(rt.alloc())) {
        (Ok(mut roads), Ok(mut costs)) => run_in(rt, &mut roads, &mut costs, &mut nodes),
        _ => false,
    }
}
