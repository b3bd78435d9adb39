//! The iterator over the edges of a node.

ghost use Rattle.std.specs.Prelude.{◌≡◌, ◌≤◌, false, length, Some, IfSome, ⊤};
ghost use Rattle.std.specs.Iterator.{YieldsFirstBy, YieldsLastBy, item_count, at_most, UpTo};
ghost use Rattle.std.specs.FinMap as map;
ghost use Rattle.slotmap.specs.Words.{Key as KeyOf, IsLive};
ghost use Rattle.slotmap_graph.specs.Parts.{SeenEdge, edges_at};
ghost use Rattle.slotmap_graph.specs.Threads.{IsThreaded, by_node};

use crate::EdgeKey;
use crate::lists::Edges;
use slotmap::Key;
use slotmap_bounded::BoundedMap;
use slotmap_links::{Links, Members};
use std::alloc::AllocError;
use std::iter::FusedIterator;
use std::marker::Model;

/// An iterator over the keys of the edges from a node or to it, in the order in which they were added,
/// from both ends: see [`Graph::edges_from`] and [`Graph::edges_to`].
///
/// A contract sees it as the list of the keys that it will still yield. After its end it yields
/// nothing. A clone yields the same keys; cloning can't fail.
///
/// [`Graph::edges_from`]: crate::Graph::edges_from
/// [`Graph::edges_to`]: crate::Graph::edges_to
#[derive(Drop)]
pub struct EdgesAt<'a, E> {
    pub(crate) edges: &'a Edges<E>,
    pub(crate) members: Members<'a>,
}

impl<'a, E> Model for EdgesAt<'a, E> {
    ghost use Rattle.std.specs.Prelude.{List};
    ghost use Rattle.slotmap.specs.Words.{Key};

    ghost Value = { List Key };

    ghost use Rattle.slotmap_bounded.specs.Indices.{AreIndices, HaveIndices, keys_at};

    ghost view = { λ it. keys_at it.edges.now.live it.members };

    ghost invariant = { λ it. HaveIndices it.edges.now × AreIndices it.edges.now it.members };
}

impl<'a, E: Drop> Iterator for EdgesAt<'a, E> {
    type Item = EdgeKey;

    ghost next_gives = { YieldsFirstBy (λ item. item) (λ rest. rest) };

    ghost remaining = { item_count (λ rest. rest) };

    fn next(&mut self) -> Option<EdgeKey> {
        let index = self.members.next()?;
        Some(self.edges.live_key(index))
    }

    fn size_hint(&self) -> (usize, Option<usize>)
        ensures lower { result.0 ≤ length self.now }
        ensures upper { IfSome result.1 (UpTo (at_most (length self.now))) }
        ensures exact { result ≡ (length self.now, Some (length self.now)) }
    {
        let len = self.members.len();
        (len, Some(len))
    }
}

impl<'a, E: Drop> DoubleEndedIterator for EdgesAt<'a, E> {
    ghost next_back_gives = { YieldsLastBy (λ item. item) (λ rest. rest) };

    fn next_back(&mut self) -> Option<EdgeKey> {
        let index = self.members.next_back()?;
        Some(self.edges.live_key(index))
    }
}

impl<'a, E: Drop> ExactSizeIterator for EdgesAt<'a, E> {
    fn len(&self) -> usize {
        self.members.len()
    }
}

impl<'a, E: Drop> FusedIterator for EdgesAt<'a, E> {}

impl<'a, E> Clone for EdgesAt<'a, E> {
    ghost is_clone = { λ it copy. copy ≡ it };

    ghost is_infallible = { λ _. ⊤ };

    fn clone(&self) -> Result<Self, AllocError> {
        Ok(EdgesAt {
            edges: self.edges,
            members: self.members.clone()?,
        })
    }
}

// The edges of a node in its list. No node has the index 0, so its list is empty.
pub(crate) fn edges_of<'a, K: Key, N: Drop, E: Drop>(
    nodes: &BoundedMap<K, N>,
    edges: &'a Edges<E>,
    links: &'a Links,
    node: K,
) -> EdgesAt<'a, E>
    requires { (end : SeenEdge E → KeyOf) × IsThreaded end nodes.now edges.now links.now }
    ensures { result ≡ edges_at (by_node nodes.now.live edges.now.live links.now) (K.data_of node) }
{
    let owner = owner_of(nodes, node);
    EdgesAt {
        edges,
        members: links.iter(owner),
    }
}

// The index of a node, or 0 if the node doesn't exist.
pub(crate) fn owner_of<K: Key, N: Drop>(nodes: &BoundedMap<K, N>, node: K) -> u32
    ensures live { IsLive nodes.now (K.data_of node) → result ≡ (K.data_of node).index }
    ensures gone { map.contains_key nodes.now.live (K.data_of node) ≡ false → result ≡ 0 }
{
    if nodes.contains_key(node) {
        return node.data().idx();
    }
    0
}
