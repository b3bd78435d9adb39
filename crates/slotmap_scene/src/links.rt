//! What is kept beside the values of the nodes, by the indices of their keys: the parents and the
//! children.

ghost use Rattle.std.specs.Prelude.{◌≡◌, ◌<◌, ◌≤◌, IfSome, IsOk, OnOk, length, option_map};
ghost use Rattle.slotmap.specs.Words.{most};
ghost use Rattle.slotmap_bounded.specs.Indices.{HasKey, HaveIndices, key_at};
ghost use Rattle.slotmap_links.specs.Lists.{AreDisjoint, IsFree, IsIn, list_of, with_list, without};
ghost use Rattle.slotmap_links.specs.Lists.{CoversMore};
ghost use Rattle.slotmap_scene.specs.Kept.{AreCovered, HoldsMore, number_in_place, parent_at, parent_index};

use crate::tree::Side;
use slotmap::{DefaultKey, Key};
use slotmap_bounded::BoundedMap;
use slotmap_links::Links;
use std::alloc::AllocError;

// No key has this index. It stands for the parent of a root.
pub(crate) const NOBODY: u32 = 0;

// The index of a node.
pub(crate) fn index_of(node: DefaultKey) -> u32
    ensures { result ≡ node.index }
{
    node.data().idx()
}

// The index of a parent, or that of none.
pub(crate) fn parent_index(parent: Option<DefaultKey>) -> u32
    ensures { result ≡ parent_index parent }
{
    match parent {
        Some(parent) => index_of(parent),
        None => NOBODY,
    }
}

// The index of the parent of a node, or that of none.
#[inline(always)]
pub(crate) fn parent_number(parents: &[u32], node: DefaultKey) -> u32
    requires { node.index < length parents.now }
    ensures { result ≡ parent_at parents.now node.index }
{
    parents[index_of(node) as usize]
}

// The key of the node with an index, if there is one.
#[inline(always)]
pub(crate) fn key_of<T: Drop>(
    values: &BoundedMap<DefaultKey, T>,
    index: Option<u32>,
) -> Option<DefaultKey>
    requires indices { HaveIndices values.now }
    requires there { IfSome index (HasKey values.now) }
    ensures { result ≡ option_map (key_at values.now.live) index }
{
    let index = index?;
    Some(values.live_key(index))
}

// Makes a place for the children of each index up to this one.
fn cover_children(children: &mut Links, index: usize) -> Result<(), AllocError>
    requires { index ≤ most }
    ensures grows { CoversMore children.old children.new }
    ensures owners { OnOk result (index < length children.new.lists) }
    ensures members { OnOk result (index < children.new.members) }
    ensures had_room { index < length children.old.lists → index < children.old.members → IsOk result }
    ensures in_place { index < length children.old.lists → index < children.old.members → children.new ≡ children.old }
{
    let _ = children.members();
    children.cover_owners(index + 1)?;
    children.cover_members(index + 1)
}

// Makes a place for the parent of each index up to this one.
fn cover_parents(parents: &mut Vec<u32>, index: usize) -> Result<(), AllocError>
    requires { index ≤ most }
    ensures grows { HoldsMore parents.old.items parents.new.items }
    ensures covers { OnOk result (index < length parents.new.items) }
    ensures had_room { index < length parents.old.items → IsOk result }
    ensures in_place { index < length parents.old.items → parents.new ≡ parents.old }
{
    if index < parents.len() {
        return Ok(());
    }
    parents.resize(index + 1, NOBODY)
}

// Makes a place for the parent and for the children of each index up to this one.
pub(crate) fn cover(
    parents: &mut Vec<u32>,
    children: &mut Links,
    index: usize,
) -> Result<(), AllocError>
    requires { index ≤ most }
    ensures parents { HoldsMore parents.old.items parents.new.items }
    ensures children { CoversMore children.old children.new }
    ensures covers { OnOk result (AreCovered index parents.new.items children.new) }
    ensures had_room { AreCovered index parents.old.items children.old → IsOk result }
    ensures in_place { AreCovered index parents.old.items children.old → (parents.new ≡ parents.old) × (children.new ≡ children.old) }
{
    let _ = children.members();
    cover_parents(parents, index)?;
    cover_children(children, index)
}

// Puts a node at a place among the children of a parent.
#[inline(always)]
pub(crate) fn put(
    children: &mut Links,
    parent: DefaultKey,
    side: Side,
    sibling: Option<DefaultKey>,
    node: DefaultKey,
)
    requires parent { parent.index < length children.old.lists }
    requires sibling { IfSome sibling (λ s. IsIn children.old parent.index s.index) }
    requires free { IsFree children.old node.index }
    ensures list { children.new ≡ with_list children.old parent.index (number_in_place side sibling node.index (list_of children.old parent.index)) }
    ensures disjoint { AreDisjoint children.new }
{
    let owner = index_of(parent);
    let member = index_of(node);
    match side {
        Side::Before => match sibling {
            Some(sibling) => children.put_before(owner, index_of(sibling), member),
            None => children.put_last(owner, member),
        },
        Side::After => match sibling {
            Some(sibling) => children.put_behind(owner, index_of(sibling), member),
            None => children.put_first(owner, member),
        },
    }
    let _ = children.members();
}

// Takes a node out of the children of the parent with an index.
pub(crate) fn take_out(children: &mut Links, parent: u32, node: DefaultKey)
    requires parent { parent < length children.old.lists }
    requires child { IsIn children.old parent node.index }
    ensures list { children.new ≡ with_list children.old parent (without node.index (list_of children.old parent)) }
    ensures disjoint { AreDisjoint children.new }
{
    children.take_out(parent, index_of(node));
    let _ = children.members();
}
