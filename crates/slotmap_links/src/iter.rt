//! The iterators over the members of a list.

ghost use Rattle.std.specs.Prelude.{◌≡◌, ◌<◌, ◌≤◌, length, Some, IfSome, slice_index_or, ⊤};
ghost use Rattle.std.specs.Iterator.{YieldsFirstBy, YieldsLastBy, item_count, at_most, UpTo};
ghost use Rattle.slotmap_links.specs.Kept.{no_link};

use crate::Link;
use crate::between::option_of;
use std::alloc::AllocError;
use std::iter::FusedIterator;
use std::marker::Model;

// The link of a member.
#[inline(always)]
fn link_of(links: &[Link], member: u32) -> Link
    requires { member < length links.now }
    ensures { result ≡ slice_index_or links.now member no_link }
{
    links[member as usize]
}

/// An iterator over the members of an owner's list, from both ends: see [`Links::iter`].
///
/// A contract sees it as the list of the members that it will still yield. After its end it yields
/// nothing. A clone yields the same members; cloning can't fail.
///
/// [`Links::iter`]: crate::Links::iter
#[derive(Drop)]
pub struct Members<'a> {
    pub(crate) links: &'a [Link],
    pub(crate) first: u32,
    pub(crate) last: u32,
    pub(crate) left: usize,
}

impl<'a> Model for Members<'a> {
    ghost use Rattle.std.specs.Prelude.{List, ℕ, length};

    ghost Value = { List ℕ };

    ghost use Rattle.slotmap_links.specs.Linked.{follow};
    ghost use Rattle.slotmap_links.specs.Kept.{link_at, unless_nobody};
    ghost use Rattle.slotmap_links.specs.Segment.{IsSegment};

    ghost view = { λ it. follow (link_at it.links.now) it.left (unless_nobody it.first) };

    ghost invariant = { λ it. IsSegment it.links.now it.left it.first it.last };
}

impl<'a> Iterator for Members<'a> {
    type Item = u32;

    ghost next_gives = { YieldsFirstBy (λ item. item) (λ rest. rest) };

    ghost remaining = { item_count (λ rest. rest) };

    fn next(&mut self) -> Option<u32> {
        if self.left == 0 {
            return None;
        }
        let member = self.first;
        self.left -= 1;
        self.first = link_of(self.links, member).next;
        Some(member)
    }

    fn size_hint(&self) -> (usize, Option<usize>)
        ensures lower { result.0 ≤ length self.now }
        ensures upper { IfSome result.1 (UpTo (at_most (length self.now))) }
        ensures exact { result ≡ (length self.now, Some (length self.now)) }
    {
        (self.left, Some(self.left))
    }
}

impl<'a> DoubleEndedIterator for Members<'a> {
    ghost next_back_gives = { YieldsLastBy (λ item. item) (λ rest. rest) };

    fn next_back(&mut self) -> Option<u32> {
        if self.left == 0 {
            return None;
        }
        let member = self.last;
        self.left -= 1;
        self.last = link_of(self.links, member).prev;
        Some(member)
    }
}

impl<'a> ExactSizeIterator for Members<'a> {
    fn len(&self) -> usize {
        self.left
    }
}

impl<'a> FusedIterator for Members<'a> {}

impl<'a> Clone for Members<'a> {
    ghost is_clone = { λ it copy. copy ≡ it };

    ghost is_infallible = { λ _. ⊤ };

    fn clone(&self) -> Result<Self, AllocError> {
        Ok(Members {
            links: self.links,
            first: self.first,
            last: self.last,
            left: self.left,
        })
    }
}

/// An iterator over the members of a list from one of them on: see [`Links::iter_from`].
///
/// A contract sees it as the list of the members that it will still yield. After its end it yields
/// nothing. It goes forward only, and doesn't know how many are left.
///
/// [`Links::iter_from`]: crate::Links::iter_from
#[derive(Drop)]
pub struct MembersFrom<'a> {
    pub(crate) links: &'a [Link],
    pub(crate) at: u32,
}

impl<'a> Model for MembersFrom<'a> {
    ghost use Rattle.std.specs.Prelude.{List, ℕ, length};

    ghost Value = { List ℕ };

    ghost use Rattle.slotmap_links.specs.Linked.{follow};
    ghost use Rattle.slotmap_links.specs.Kept.{link_at, unless_nobody};
    ghost use Rattle.slotmap_links.specs.Segment.{IsTail};

    ghost view = { λ it. follow (link_at it.links.now) (length it.links.now) (unless_nobody it.at) };

    ghost invariant = { λ it. IsTail it.links.now it.at };
}

impl<'a> Iterator for MembersFrom<'a> {
    type Item = u32;

    ghost next_gives = { YieldsFirstBy (λ item. item) (λ rest. rest) };

    ghost remaining = { item_count (λ rest. rest) };

    fn next(&mut self) -> Option<u32> {
        let member = option_of(self.at)?;
        self.at = link_of(self.links, member).next;
        Some(member)
    }

    fn size_hint(&self) -> (usize, Option<usize>)
        ensures lower { result.0 ≤ length self.now }
        ensures upper { IfSome result.1 (UpTo (at_most (length self.now))) }
    {
        (0, Some(self.links.len()))
    }
}

impl<'a> FusedIterator for MembersFrom<'a> {}
