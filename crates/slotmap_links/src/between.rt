//! The links of one member, and of the two beside it.

ghost use Rattle.std.specs.Prelude.{◌≡◌, ℕ, ◌+◌, ◌-◌, ◌<◌, ◌≤◌, ◌≢◌, ◌++◌, ◌∷◌, None, cond, nat_eq, length, IfSome};
ghost use Rattle.slotmap_links.specs.Kept.{AreKept, IsGap, Relists, bounds_at, link_at, listed, unless_nobody};
ghost use Rattle.slotmap_links.specs.Lists.{times, without};
ghost use Rattle.slotmap_links.specs.Splice.{own, with_next, with_prev};

use crate::{Ends, Link};

// Stands for no member.
pub(crate) const NOBODY: u32 = u32::MAX;

// The ends of a list with no members.
pub(crate) const NO_ENDS: Ends = Ends {
    first: NOBODY,
    last: NOBODY,
    len: 0,
};

// The link of a number that is in no list.
pub(crate) const NO_LINK: Link = Link {
    prev: NOBODY,
    next: NOBODY,
};

// The member with this number, or none.
pub(crate) fn option_of(number: u32) -> Option<u32>
    ensures { result ≡ unless_nobody number }
{
    if number == NOBODY {
        return None;
    }
    Some(number)
}

// Lets the member `at` lead on to `to`. Without a member, the owner's list begins there.
fn set_next(ends: &mut [Ends], links: &mut [Link], owner: u32, at: u32, to: u32)
    requires owner { owner < length ends.old }
    requires at { IfSome (unless_nobody at) (λ k. k < length links.old) }
    ensures links { (q : ℕ) → link_at links.new q ≡ with_next (unless_nobody at) (unless_nobody to) (link_at links.old) q }
    ensures ends { (q : ℕ) → bounds_at ends.new q
        ≡ cond (nat_eq q owner) (record (bounds_at ends.old q) { first = own (unless_nobody at) (bounds_at ends.old q).first (unless_nobody to) }) (bounds_at ends.old q) }
{
    if at == NOBODY {
        ends[owner as usize].first = to;
    } else {
        links[at as usize].next = to;
    }
}

// Lets the member `at` lead back to `to`. Without a member, the owner's list ends there.
fn set_prev(ends: &mut [Ends], links: &mut [Link], owner: u32, at: u32, to: u32)
    requires owner { owner < length ends.old }
    requires at { IfSome (unless_nobody at) (λ k. k < length links.old) }
    ensures links { (q : ℕ) → link_at links.new q ≡ with_prev (unless_nobody at) (unless_nobody to) (link_at links.old) q }
    ensures ends { (q : ℕ) → bounds_at ends.new q
        ≡ cond (nat_eq q owner) (record (bounds_at ends.old q) { last = own (unless_nobody at) (bounds_at ends.old q).last (unless_nobody to) }) (bounds_at ends.old q) }
{
    if at == NOBODY {
        ends[owner as usize].last = to;
    } else {
        links[at as usize].prev = to;
    }
}

// Puts a number that is in no list between two members of an owner's list, or at an end of it.
pub(crate) fn put_between(
    ends: &mut [Ends],
    links: &mut [Link],
    owner: u32,
    member: u32,
    prev: u32,
    next: u32,
)
    requires kept { AreKept ends.old links.old }
    requires owner { owner < length ends.old }
    requires member { member < length links.old }
    requires free { (p : ℕ) → times member (listed ends.old links.old p) ≡ 0 }
    requires place { IsGap (listed ends.old links.old owner) (unless_nobody prev) (unless_nobody next) }
    ensures { (place : IsGap (listed ends.old links.old owner) (unless_nobody prev) (unless_nobody next))
        → Relists ends.old links.old owner (place.before ++ member ∷ place.after) ends.new links.new }
{
    links[member as usize] = Link { prev, next };
    set_next(ends, links, owner, prev, member);
    set_prev(ends, links, owner, next, member);
    ends[owner as usize].len += 1;
}

// Takes a member out of an owner's list. Its two neighbours lead to each other then.
pub(crate) fn take_between(ends: &mut [Ends], links: &mut [Link], owner: u32, member: u32)
    requires kept { AreKept ends.old links.old }
    requires owner { owner < length ends.old }
    requires listed { 0 < times member (listed ends.old links.old owner) }
    ensures { Relists ends.old links.old owner (without member (listed ends.old links.old owner)) ends.new links.new }
{
    let link = links[member as usize];
    set_next(ends, links, owner, link.prev, link.next);
    set_prev(ends, links, owner, link.next, link.prev);
    ends[owner as usize].len -= 1;
}
