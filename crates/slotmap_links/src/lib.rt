//! Lists of numbers that are kept as links, beside whatever the numbers name.
//!
//! [`Links`] has a list for each *owner*. The owners are the numbers below [`Links::owners`]. The
//! numbers below [`Links::members`] may be *members* of a list, each of one at most, and once. What
//! the numbers name is the caller's: slots of a map, say, or rows of a table. The caller proves that
//! each owner that it passes is one, and that each number that it passes may be a member.
//!
//! Each number that may be a member has 8 bytes in one vector, for the member before it and the one
//! after it. Each owner has 12 bytes in another, for the two ends of its list, and its length. So a
//! step along a list reads 8 bytes, and no value lies between two links.
//!
//! Each call takes constant time, with these exceptions:
//!
//! - [`Links::cover_owners`] and [`Links::cover_members`] take time linear in what they add, and may
//!   move what is there.
//! - [`Links::clear`] takes time linear in [`Links::owners`], and [`Links::clone`] in [`Links::owners`]
//!   and [`Links::members`].
//!
//! Only the two covers and `clone` can fail. A clause sees for how many owners and members there is
//! memory, and the other calls leave that as it is. That they ask for no memory is tested, not proved.
//!
//! ```
//! let mut links = Links::new(alloc);
//! links.cover_owners(2)?;
//! links.cover_members(10)?;
//! links.put_last(0, 7);
//! links.put_last(0, 3);
//! links.put_before(0, 3, 5);
//! links.put_first(1, 4);
//! let mut members = links.iter(0);
//! assert_eq!(rt; members.next(), Some(7));
//! assert_eq!(rt; members.next(), Some(5));
//! assert_eq!(rt; members.next_back(), Some(3));
//! assert_eq!(rt; members.next(), None);
//! links.take_out(0, 5);
//! assert_eq!(rt; links.next(7), Some(3));
//! ```
#![tactic(auto)]

ghost use Rattle.std.specs.Prelude.{◌≡◌, ℕ, ◌+◌, ◌-◌, ◌<◌, ◌≤◌, ◌≢◌, ◌^◌, ◌++◌, ◌∷◌, [], IfOk, OnOk, OnErr, IsOk, IsTrue};
ghost use Rattle.std.specs.Prelude.{◌↔◌, None, length, replicate};
ghost use Rattle.slotmap_links.specs.Kept.{IsGap, unless_nobody};
ghost use Rattle.slotmap_links.specs.Lists.{AreDisjoint, IsFree, IsIn, first_or, last_or, list_of, number_after, number_before, numbers_from, put_before, put_behind};
ghost use Rattle.slotmap_links.specs.Lists.{cleared, with_capacity, with_list, with_members, with_owners, without};

use std::alloc::{AllocError, Global};
use std::marker::Model;

mod between;
mod iter;

use between::{NO_ENDS, NO_LINK, NOBODY, option_of, put_between, take_between};
pub use iter::{Members, MembersFrom};

// The two ends of an owner's list, and how many members it has.
#[derive(Clone, Copy, Debug, Drop)]
struct Ends {
    first: u32,
    last: u32,
    len: u32,
}

// The members before and after another one.
#[derive(Clone, Copy, Debug, Drop)]
struct Link {
    prev: u32,
    next: u32,
}

/// Lists of numbers, one for each owner.
///
/// A clause sees `lists`, the list of each owner, `members`, below which a number may be in one, and
/// `capacity`: there is memory for so many owners and members.
pub struct Links {
    ends: Vec<Ends>,
    links: Vec<Link>,
}

impl Drop for Links {
    fn drop(self) {
        let Links {
            ends: _ends,
            links: _links,
        } = self;
    }
}

impl Model for Links {
    ghost use Rattle.slotmap_links.specs.Lists.{Lists, lists_code};

    ghost Value = { Lists };

    ghost coded = { lists_code };

    ghost use Rattle.slotmap_links.specs.Kept.{lists_by, AreKept};
    ghost use Rattle.std.specs.Prelude.{vec_capacity};

    ghost view = { λ l. lists_by l.ends.items l.links.items (vec_capacity l.ends, vec_capacity l.links) };

    ghost invariant = { λ l. AreKept l.ends.items l.links.items };
}

impl Links {
    /// Makes lists with no owner and no members. It can't fail.
    ///
    /// ```
    /// let links = Links::new(alloc);
    /// assert_eq!(rt; (links.owners(), links.members()), (0, 0));
    /// ```
    pub fn new(alloc: Global) -> Links
        ensures { result ≡ record { lists = []; members = 0; capacity = (0, 0) } }
    {
        Links {
            ends: Vec::new(alloc),
            links: Vec::new(alloc),
        }
    }

    /// Lets all numbers below `owners` be owners. Those that are new have an empty list.
    ///
    /// If there are so many already, it changes nothing. It fails only if memory runs out, and has
    /// changed nothing then.
    ///
    /// ```
    /// let mut links = Links::new(alloc);
    /// links.cover_owners(2)?;
    /// assert_eq!(rt; links.owners(), 2);
    /// assert_eq!(rt; links.first(1), None);
    /// ```
    pub fn cover_owners(&mut self, owners: usize) -> Result<(), AllocError>
        ensures ok { OnOk result (self.new ≡ with_capacity (with_owners self.old owners) self.new.capacity) }
        ensures err { OnErr result (self.new ≡ self.old) }
        ensures had_room { owners ≤ length self.old.lists → IsOk result }
        ensures unchanged { owners ≤ length self.old.lists → self.new ≡ self.old }
    {
        let before = self.ends.len();
        if owners <= before {
            return Ok(());
        }
        self.ends.reserve(owners - before)?;
        self.ends.resize(owners, NO_ENDS)
    }

    /// Lets all numbers below `members` be members of a list. Those that are new are in none. The caller
    /// proves that `members` is below 4294967296.
    ///
    /// If there are so many already, it changes nothing. It fails only if memory runs out, and has
    /// changed nothing then.
    ///
    /// ```
    /// let mut links = Links::new(alloc);
    /// links.cover_members(8)?;
    /// assert_eq!(rt; links.members(), 8);
    /// ```
    pub fn cover_members(&mut self, members: usize) -> Result<(), AllocError>
        requires { members < 2 ^ 32 }
        ensures ok { OnOk result (self.new ≡ with_capacity (with_members self.old members) self.new.capacity) }
        ensures err { OnErr result (self.new ≡ self.old) }
        ensures had_room { members ≤ self.old.members → IsOk result }
        ensures unchanged { members ≤ self.old.members → self.new ≡ self.old }
    {
        let before = self.links.len();
        if members <= before {
            return Ok(());
        }
        self.links.reserve(members - before)?;
        self.links.resize(members, NO_LINK)
    }

    /// Empties all lists. The owners stay, and so do the numbers that may be members.
    ///
    /// ```
    /// let mut links = Links::new(alloc);
    /// links.cover_owners(1)?;
    /// links.cover_members(8)?;
    /// links.put_last(0, 5);
    /// links.clear();
    /// assert!(rt; links.is_empty(0));
    /// assert_eq!(rt; links.members(), 8);
    /// ```
    pub fn clear(&mut self)
        ensures { self.new ≡ cleared self.old }
    {
        self.ends.fill(NO_ENDS);
    }

    /// Returns a copy, with the same lists. It fails only if memory runs out.
    ///
    /// ```
    /// let mut links = Links::new(alloc);
    /// links.cover_owners(1)?;
    /// links.cover_members(8)?;
    /// links.put_last(0, 5);
    /// let copy = links.clone()?;
    /// assert_eq!(rt; copy.first(0), Some(5));
    /// ```
    pub fn clone(&self) -> Result<Links, AllocError>
        ensures { IfOk result (λ copy. copy ≡ with_capacity self.now copy.capacity) }
    {
        Ok(Links {
            ends: self.ends.clone()?,
            links: self.links.clone()?,
        })
    }

    /// Returns the number of owners: they are the numbers below it.
    ///
    /// ```
    /// let mut links = Links::new(alloc);
    /// links.cover_owners(1)?;
    /// links.cover_members(8)?;
    /// assert_eq!(rt; links.owners(), 1);
    /// ```
    pub fn owners(&self) -> usize
        ensures value { result ≡ length self.now.lists }
        ensures disjoint { AreDisjoint self.now }
    {
        self.ends.len()
    }

    /// Returns the number below which all members are.
    ///
    /// ```
    /// let mut links = Links::new(alloc);
    /// links.cover_owners(1)?;
    /// links.cover_members(8)?;
    /// assert_eq!(rt; links.members(), 8);
    /// ```
    pub fn members(&self) -> usize
        ensures value { result ≡ self.now.members }
        ensures limit { result < 2 ^ 32 }
        ensures disjoint { AreDisjoint self.now }
    {
        self.links.len()
    }

    /// Returns the number of members in an owner's list.
    ///
    /// ```
    /// let mut links = Links::new(alloc);
    /// links.cover_owners(1)?;
    /// links.cover_members(8)?;
    /// links.put_last(0, 5);
    /// assert_eq!(rt; links.len(0), 1);
    /// ```
    pub fn len(&self, owner: u32) -> usize
        requires { owner < length self.now.lists }
        ensures { result ≡ length (list_of self.now owner) }
    {
        self.ends[owner as usize].len as usize
    }

    /// Returns whether an owner's list has no members.
    ///
    /// ```
    /// let mut links = Links::new(alloc);
    /// links.cover_owners(1)?;
    /// links.cover_members(8)?;
    /// assert!(rt; links.is_empty(0));
    /// links.put_last(0, 5);
    /// assert!(rt; !links.is_empty(0));
    /// ```
    pub fn is_empty(&self, owner: u32) -> bool
        requires { owner < length self.now.lists }
        ensures { IsTrue result ↔ (length (list_of self.now owner) ≡ 0) }
    {
        self.len(owner) == 0
    }

    /// Returns the first member of an owner's list, or `None` if it has none.
    ///
    /// ```
    /// let mut links = Links::new(alloc);
    /// links.cover_owners(1)?;
    /// links.cover_members(8)?;
    /// links.put_last(0, 5);
    /// links.put_last(0, 2);
    /// assert_eq!(rt; links.first(0), Some(5));
    /// ```
    pub fn first(&self, owner: u32) -> Option<u32>
        requires { owner < length self.now.lists }
        ensures { result ≡ first_or (list_of self.now owner) None }
    {
        option_of(self.ends[owner as usize].first)
    }

    /// Returns the last member of an owner's list, or `None` if it has none.
    ///
    /// ```
    /// let mut links = Links::new(alloc);
    /// links.cover_owners(1)?;
    /// links.cover_members(8)?;
    /// links.put_last(0, 5);
    /// links.put_last(0, 2);
    /// assert_eq!(rt; links.last(0), Some(2));
    /// ```
    pub fn last(&self, owner: u32) -> Option<u32>
        requires { owner < length self.now.lists }
        ensures { result ≡ last_or (list_of self.now owner) None }
    {
        option_of(self.ends[owner as usize].last)
    }

    /// Returns the member after this one in its list, or `None` if it is the last. For a number that is
    /// in no list the result may be anything.
    ///
    /// ```
    /// let mut links = Links::new(alloc);
    /// links.cover_owners(1)?;
    /// links.cover_members(8)?;
    /// links.put_last(0, 5);
    /// links.put_last(0, 2);
    /// assert_eq!(rt; links.next(5), Some(2));
    /// assert_eq!(rt; links.next(2), None);
    /// ```
    pub fn next(&self, member: u32) -> Option<u32>
        requires { member < self.now.members }
        ensures { (p : ℕ) → IsIn self.now p member → result ≡ number_after member (list_of self.now p) }
    {
        option_of(self.links[member as usize].next)
    }

    /// Returns the member before this one in its list, or `None` if it is the first. For a number that
    /// is in no list the result may be anything.
    ///
    /// ```
    /// let mut links = Links::new(alloc);
    /// links.cover_owners(1)?;
    /// links.cover_members(8)?;
    /// links.put_last(0, 5);
    /// links.put_last(0, 2);
    /// assert_eq!(rt; links.prev(2), Some(5));
    /// assert_eq!(rt; links.prev(5), None);
    /// ```
    pub fn prev(&self, member: u32) -> Option<u32>
        requires { member < self.now.members }
        ensures { (p : ℕ) → IsIn self.now p member → result ≡ number_before None member (list_of self.now p) }
    {
        option_of(self.links[member as usize].prev)
    }

    // Puts a number that is in no list between two members of an owner's list, or at an end of it.
    fn put(&mut self, owner: u32, member: u32, prev: u32, next: u32)
        requires owner { owner < length self.old.lists }
        requires free { IsFree self.old member }
        requires place { IsGap (list_of self.old owner) (unless_nobody prev) (unless_nobody next) }
        ensures { (place : IsGap (list_of self.old owner) (unless_nobody prev) (unless_nobody next)) → self.new ≡ with_list self.old owner (place.before ++ member ∷ place.after) }
    {
        put_between(&mut self.ends, &mut self.links, owner, member, prev, next);
    }

    /// Puts a number that is in no list before the members of an owner's list.
    ///
    /// ```
    /// let mut links = Links::new(alloc);
    /// links.cover_owners(1)?;
    /// links.cover_members(8)?;
    /// links.put_first(0, 5);
    /// links.put_first(0, 2);
    /// assert_eq!(rt; (links.first(0), links.last(0)), (Some(2), Some(5)));
    /// ```
    pub fn put_first(&mut self, owner: u32, member: u32)
        requires owner { owner < length self.old.lists }
        requires free { IsFree self.old member }
        ensures { self.new ≡ with_list self.old owner (member ∷ list_of self.old owner) }
    {
        let next = self.ends[owner as usize].first;
        self.put(owner, member, NOBODY, next);
    }

    /// Puts a number that is in no list behind the members of an owner's list.
    ///
    /// ```
    /// let mut links = Links::new(alloc);
    /// links.cover_owners(1)?;
    /// links.cover_members(8)?;
    /// links.put_last(0, 5);
    /// links.put_last(0, 2);
    /// assert_eq!(rt; (links.first(0), links.last(0)), (Some(5), Some(2)));
    /// ```
    pub fn put_last(&mut self, owner: u32, member: u32)
        requires owner { owner < length self.old.lists }
        requires free { IsFree self.old member }
        ensures { self.new ≡ with_list self.old owner (list_of self.old owner ++ member ∷ []) }
    {
        let prev = self.ends[owner as usize].last;
        self.put(owner, member, prev, NOBODY);
    }

    /// Puts a number that is in no list right before a member of an owner's list.
    ///
    /// ```
    /// let mut links = Links::new(alloc);
    /// links.cover_owners(1)?;
    /// links.cover_members(8)?;
    /// links.put_last(0, 5);
    /// links.put_before(0, 5, 2);
    /// assert_eq!(rt; links.prev(5), Some(2));
    /// ```
    pub fn put_before(&mut self, owner: u32, at: u32, member: u32)
        requires owner { owner < length self.old.lists }
        requires at { IsIn self.old owner at }
        requires free { IsFree self.old member }
        ensures { self.new ≡ with_list self.old owner (put_before at member (list_of self.old owner)) }
    {
        let prev = self.links[at as usize].prev;
        self.put(owner, member, prev, at);
    }

    /// Puts a number that is in no list right behind a member of an owner's list.
    ///
    /// ```
    /// let mut links = Links::new(alloc);
    /// links.cover_owners(1)?;
    /// links.cover_members(8)?;
    /// links.put_last(0, 5);
    /// links.put_behind(0, 5, 2);
    /// assert_eq!(rt; links.next(5), Some(2));
    /// ```
    pub fn put_behind(&mut self, owner: u32, at: u32, member: u32)
        requires owner { owner < length self.old.lists }
        requires at { IsIn self.old owner at }
        requires free { IsFree self.old member }
        ensures { self.new ≡ with_list self.old owner (put_behind at member (list_of self.old owner)) }
    {
        let next = self.links[at as usize].next;
        self.put(owner, member, at, next);
    }

    /// Takes a member out of its owner's list.
    ///
    /// ```
    /// let mut links = Links::new(alloc);
    /// links.cover_owners(1)?;
    /// links.cover_members(8)?;
    /// links.put_last(0, 5);
    /// links.take_out(0, 5);
    /// assert!(rt; links.is_empty(0));
    /// ```
    pub fn take_out(&mut self, owner: u32, member: u32)
        requires owner { owner < length self.old.lists }
        requires member { IsIn self.old owner member }
        ensures { self.new ≡ with_list self.old owner (without member (list_of self.old owner)) }
    {
        take_between(&mut self.ends, &mut self.links, owner, member);
    }

    /// Returns an iterator over an owner's list, from both ends. It knows how many members are left.
    ///
    /// ```
    /// let mut links = Links::new(alloc);
    /// links.cover_owners(1)?;
    /// links.cover_members(8)?;
    /// links.put_last(0, 5);
    /// links.put_last(0, 2);
    /// let mut members = links.iter(0);
    /// assert_eq!(rt; members.len(), 2);
    /// assert_eq!(rt; members.next_back(), Some(2));
    /// assert_eq!(rt; members.next(), Some(5));
    /// assert_eq!(rt; members.next(), None);
    /// ```
    pub fn iter(&self, owner: u32) -> Members<'_>
        requires { owner < length self.now.lists }
        ensures { result ≡ list_of self.now owner }
    {
        let ends = self.ends[owner as usize];
        Members {
            links: &self.links,
            first: ends.first,
            last: ends.last,
            left: ends.len as usize,
        }
    }

    /// Returns an iterator over an owner's list from a member on, forward only. It doesn't know how
    /// many members are left.
    ///
    /// ```
    /// let mut links = Links::new(alloc);
    /// links.cover_owners(1)?;
    /// links.cover_members(8)?;
    /// links.put_last(0, 5);
    /// links.put_last(0, 2);
    /// links.put_last(0, 7);
    /// let mut members = links.iter_from(2);
    /// assert_eq!(rt; members.next(), Some(2));
    /// assert_eq!(rt; members.next(), Some(7));
    /// assert_eq!(rt; members.next(), None);
    /// ```
    pub fn iter_from(&self, member: u32) -> MembersFrom<'_>
        requires { (p : ℕ) × IsIn self.now p member }
        ensures { (p : ℕ) → IsIn self.now p member → result ≡ numbers_from member (list_of self.now p) }
    {
        MembersFrom {
            links: &self.links,
            at: member,
        }
    }
}
