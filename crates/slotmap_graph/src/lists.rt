//! Edges, and the lists of their indices.

ghost use Rattle.std.specs.Prelude.{◌≡◌, ◌<◌, ◌≤◌, ◌++◌, ◌∷◌, [], OnOk, IsOk, length};
ghost use Rattle.std.specs.Borrow.{sem};
ghost use Rattle.slotmap.specs.Words.{most};
ghost use Rattle.slotmap_links.specs.Lists.{AreDisjoint, IsFree, IsIn, list_of, with_list, without};
ghost use Rattle.slotmap_graph.specs.Threads.{far_end};
ghost use Rattle.slotmap_links.specs.Lists.{CoversMore};

use crate::EdgeKey;
use slotmap::{DefaultKey, Key};
use slotmap_bounded::BoundedMap;
use slotmap_links::Links;
use std::alloc::AllocError;
use std::marker::Model;

// Which edges of a node a list has: those that begin there, or those that end there.
#[derive(Clone, Copy, Drop)]
pub(crate) enum Direction {
    Out,
    Into,
}

pub(crate) type Edges<E> = BoundedMap<EdgeKey, Edge<E>>;

/// An edge from one node to another, or to itself, with its value. It stands only in the type of
/// [`Graph::edges`](crate::Graph::edges). Read an edge by [`Graph::edge`](crate::Graph::edge) and
/// [`Graph::edge_ends`](crate::Graph::edge_ends).
#[derive(Drop)]
pub struct Edge<E> {
    from: DefaultKey,
    to: DefaultKey,
    value: E,
}

impl<E> Model for Edge<E> {
    ghost use Rattle.slotmap_graph.specs.Parts.{SeenEdge, edge_code};

    ghost Value = { SeenEdge E };

    ghost coded = { edge_code E.code };

    ghost view = { λ e. record { from = e.from; to = e.to; value = e.value } };
}

impl<E> Edge<E> {
    ghost use Rattle.slotmap_graph.specs.Lends.{lends_value};

    pub(crate) fn new(from: DefaultKey, to: DefaultKey, value: E) -> Edge<E>
        ensures { result ≡ record { from = from; to = to; value = value } }
    {
        Edge { from, to, value }
    }

    // Where it begins, and where it ends.
    pub(crate) fn ends(&self) -> (DefaultKey, DefaultKey)
        ensures { result ≡ (self.now.from, self.now.to) }
    {
        (self.from, self.to)
    }

    // Where it leads from a node in whose list of this direction it is.
    pub(crate) fn far_end(&self, direction: Direction) -> DefaultKey
        ensures { result ≡ far_end direction self.now }
    {
        match direction {
            Direction::Out => self.to,
            Direction::Into => self.from,
        }
    }

    pub(crate) fn value(&self) -> &E
        ensures { result.now ≡ self.now.value }
    {
        &self.value
    }

    pub(crate) fn value_mut(&mut self) -> &mut E
        ensures* writes_back { sem 𝓛 (lends_value E.row self.entry result) }
        ensures value { result.now ≡ self.old.value }
    {
        &mut self.value
    }

    pub(crate) fn into_value(self) -> E
        ensures { result ≡ self.value }
    {
        self.value
    }
}

// Lets the lists have an owner and a member for each index up to these.
fn cover(links: &mut Links, node: usize, edge: usize) -> Result<(), AllocError>
    requires node { node ≤ most }
    requires edge { edge ≤ most }
    ensures grows { CoversMore links.old links.new }
    ensures owners { OnOk result (node < length links.new.lists) }
    ensures members { OnOk result (edge < links.new.members) }
    ensures had_room { node < length links.old.lists → edge < links.old.members → IsOk result × (links.new ≡ links.old) }
{
    let _ = links.members();
    links.cover_owners(node + 1)?;
    links.cover_members(edge + 1)
}

// The same for the lists of both directions.
pub(crate) fn cover_both(
    out: &mut Links,
    into: &mut Links,
    node: usize,
    edge: usize,
) -> Result<(), AllocError>
    requires node { node ≤ most }
    requires edge { edge ≤ most }
    ensures out { CoversMore out.old out.new }
    ensures into { CoversMore into.old into.new }
    ensures out_covers { OnOk result ((node < length out.new.lists) × (edge < out.new.members)) }
    ensures into_covers { OnOk result ((node < length into.new.lists) × (edge < into.new.members)) }
    ensures had_room { node < length out.old.lists → edge < out.old.members → node < length into.old.lists → edge < into.old.members
        → IsOk result × (out.new ≡ out.old) × (into.new ≡ into.old) }
{
    let _ = into.members();
    cover(out, node, edge)?;
    cover(into, node, edge)
}

// Puts an edge behind the others in the list of a node.
pub(crate) fn put_last<K: Key>(links: &mut Links, node: K, edge: EdgeKey)
    requires node { (K.data_of node).index < length links.old.lists }
    requires free { IsFree links.old edge.index }
    ensures list { links.new ≡ with_list links.old (K.data_of node).index (list_of links.old (K.data_of node).index ++ edge.index ∷ []) }
    ensures disjoint { AreDisjoint links.new }
{
    links.put_last(node.data().idx(), edge.data().idx());
    let _ = links.members();
}

// Takes an edge out of the list of a node.
pub(crate) fn take_out(links: &mut Links, node: DefaultKey, edge: EdgeKey)
    requires node { node.index < length links.old.lists }
    requires listed { IsIn links.old node.index edge.index }
    ensures list { links.new ≡ with_list links.old node.index (without edge.index (list_of links.old node.index)) }
    ensures disjoint { AreDisjoint links.new }
{
    links.take_out(node.data().idx(), edge.data().idx());
    let _ = links.members();
}
