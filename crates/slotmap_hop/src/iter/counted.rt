//! A walk over slots that counts its reads.
//!
//! No clause says that no read of a slot goes uncounted. That follows from what is in this file. Its two
//! types have no `Clone`, and no other file can name their fields. So other files see only those slots
//! that these functions return. A place is copied only where an iterator is cloned, at the end of the file.

ghost use Rattle.std.specs.Prelude.{◌≡◌, ◌+◌, ◌<◌, ◌≤◌, ◌^◌, [], length, Some, None, slice_get, IfSome, IfNone, ⊤};
ghost use Rattle.slotmap_hop.specs.Iter.{pairs_left, retired_left, CanGoOn, FindsSlot, IsIter, IsRead, GoesTo, ReadsOnTheWay, StepsOn};
ghost use Rattle.slotmap_hop.specs.Slots.{value_in, hop_in};

use super::Iter;
use crate::links::Slot;
use slotmap_core::keys::{Key, KeyData};
use slotmap_core::sure::rule_out;
use std::alloc::AllocError;
use std::marker::{Model, PhantomData};

/// A place among slots. The slot there may be read, and each read adds 1 to the count. No other call
/// shows a slot that its caller hasn't read.
#[derive(Drop)]
pub(crate) struct CountedSlots<'a, V> {
    slots: &'a [Slot<V>],
    // The place before, and the slots from there on. So a step to the next place multiplies no index,
    // and a hop over a block goes to its back.
    last: usize,
    rest: &'a [Slot<V>],
    reads: usize,
}

impl<'a, V> Model for CountedSlots<'a, V> {
    ghost use Rattle.std.specs.Prelude.{◌≡◌, ◌+◌, ◌<◌, drop, length};
    ghost use Rattle.slotmap_hop.specs.Iter.{Counted};

    ghost Value = { Counted V };

    ghost view = { λ c. record { slots = c.slots.now; index = c.last + 1; reads = c.reads } };

    ghost invariant = { λ c. (c.last < length c.slots.now) × (c.rest.now ≡ drop c.last c.slots.now) };
}

impl<'a, V> CountedSlots<'a, V> {
    // Begins at the place after this one.
    pub(crate) fn new(slots: &'a [Slot<V>], last: usize) -> Self
        requires { last < length slots.now }
        ensures slots { result.slots ≡ slots.now }
        ensures index { result.index ≡ last + 1 }
        ensures reads { result.reads ≡ 0 }
    {
        CountedSlots {
            slots,
            last,
            rest: &slots[last..],
            reads: 0,
        }
    }

    fn copy(&self) -> Self
        ensures { result ≡ self.now }
    {
        CountedSlots {
            slots: self.slots,
            last: self.last,
            rest: self.rest,
            reads: self.reads,
        }
    }

    pub(crate) fn index(&self) -> usize
        ensures { result ≡ self.now.index }
    {
        self.last + 1
    }

    fn reads(&self) -> usize
        ensures { result ≡ self.now.reads }
    {
        self.reads
    }

    fn read(&mut self) -> &'a Slot<V>
        requires inside { self.old.index < length self.old.slots }
        requires room { self.old.reads + 1 < 2 ^ 64 }
        ensures { IsRead self.old result.now self.new }
    {
        self.reads += 1;
        let rest = self.rest;
        &rest[1]
    }

    // This slot, which its caller has read at this place, once more by the place. It counts nothing, and
    // shows nothing that wasn't counted. So its caller keeps no register for where the slot is.
    pub(crate) fn again(&self, _slot: &Slot<V>) -> &'a Slot<V>
        requires { slice_get self.now.slots self.now.index ≡ Some _slot.now }
        ensures { result.now ≡ _slot.now }
    {
        let rest = self.rest;
        &rest[1]
    }

    // Goes on to the next place.
    fn pass(&mut self)
        requires { self.old.index < length self.old.slots }
        ensures { GoesTo self.old (self.old.index + 1) self.new }
    {
        self.last += 1;
        self.rest = &self.rest[1..];
    }

    // Leaves the slot here, which isn't live. A vacant one is the front of a block, which is skipped.
    fn hop(&mut self, slot: &Slot<V>)
        requires not_live { value_in slot.now ≡ None }
        requires inside { hop_in self.old.index slot.now < length self.old.slots }
        ensures { GoesTo self.old (hop_in self.old.index slot.now + 1) self.new }
    {
        match slot.block_back() {
            Some(back) => {
                self.last = back as usize;
                self.rest = &self.slots[back as usize..];
            }
            None => {
                self.last += 1;
                self.rest = &self.rest[1..];
            }
        }
    }
}

// Goes to the next live slot from the place on, and returns it. All iterators but `Drain` find their slots here.
// Since there is one, no place is compared with the end. Unless a slot is retired, the loop ends in
// its first round.
pub(crate) fn next_live<'a, V>(counted: &mut CountedSlots<'a, V>) -> &'a Slot<V>
    requires can { CanGoOn counted.old.slots counted.old.reads counted.old.index }
    requires some { 0 < length (pairs_left counted.old.slots counted.old.index) }
    ensures found { FindsSlot counted.old.slots counted.old.index counted.new.index }
    ensures slot { slice_get counted.old.slots counted.new.index ≡ Some result.now }
    ensures slots { counted.new.slots ≡ counted.old.slots }
    ensures reads { ReadsOnTheWay counted.old.slots counted.old.reads counted.old.index counted.new.reads counted.new.index }
{
    let first = counted.read();
    if first.is_live() {
        return first;
    }
    counted.hop(first);
    loop {
        let slot = counted.read();
        if slot.is_live() {
            return slot;
        }
        counted.hop(slot);
    }
    rule_out(true);
    unreachable!()
}

/// The place of an iterator, and how many values are still to come. A step takes this and no `Iter`,
/// which has a `Clone`.
#[derive(Drop)]
pub(crate) struct Walk<'a, V> {
    // At the slot to read next: a live or retired one, the first one of a block, or the end.
    counted: CountedSlots<'a, V>,
    // How many values are still to come.
    left: usize,
}

impl<'a, V> Model for Walk<'a, V> {
    ghost use Rattle.slotmap_core.specs.Words.{Key};
    ghost use Rattle.slotmap_hop.specs.Iter.{HopIter, pairs_left, retired_left, IsIter};

    ghost Value = { HopIter (Key × V) };

    ghost view = { λ it. record { rest = pairs_left it.counted.slots it.counted.index; retired = retired_left it.counted.slots it.counted.index; reads = it.counted.reads } };

    ghost invariant = { λ it. IsIter it.counted.slots it.counted.reads it.counted.index it.left };
}

impl<'a, V> Walk<'a, V> {
    // Begins at the place after this one.
    pub(super) fn new(slots: &'a [Slot<V>], last: usize, left: usize) -> Self
        requires inside { last < length slots.now }
        requires iterates { IsIter slots.now 0 (last + 1) left }
        ensures rest { result.rest ≡ pairs_left slots.now (last + 1) }
        ensures retired { result.retired ≡ retired_left slots.now (last + 1) }
        ensures reads { result.reads ≡ 0 }
    {
        Walk {
            counted: CountedSlots::new(slots, last),
            left,
        }
    }

    pub(super) fn len(&self) -> usize
        ensures { result ≡ length self.now.rest }
    {
        self.left
    }

    pub(super) fn reads(&self) -> usize
        ensures { result ≡ self.now.reads }
    {
        self.counted.reads()
    }

    // The next live key, and its slot.
    pub(super) fn step<K: Key>(&mut self) -> Option<(K, &'a Slot<V>)>
        ensures some { IfSome result (λ r. StepsOn self.old self.new (K.data_of r.0) r.1.now) }
        ensures none { IfNone result (self.old.rest ≡ []) }
        ensures unchanged { IfNone result (self.new ≡ self.old) }
    {
        if self.left == 0 {
            return None;
        }
        let slot = next_live(&mut self.counted);
        let slot = self.counted.again(slot);
        let index = self.counted.index();
        self.counted.pass();
        self.left -= 1;
        let key = K::from(KeyData::exact(index as u32, slot.version()));
        Some((key, slot))
    }
}

// Here, since no other file may copy the place of an iteration: who reads through a copy leaves the count
// of the original as it is.
impl<'a, K, V> Clone for Iter<'a, K, V> {
    ghost is_clone = { λ it copy. copy ≡ it };

    ghost is_infallible = { λ _. ⊤ };

    fn clone(&self) -> Result<Self, AllocError> {
        Ok(Iter {
            walk: Walk {
                counted: self.walk.counted.copy(),
                left: self.walk.left,
            },
            keys: PhantomData,
        })
    }
}
