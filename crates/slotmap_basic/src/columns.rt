//! The layout of the slots: three vectors of one length.

ghost use Rattle.std.specs.Prelude.{◌≡◌, ◌+◌, ◌<◌, ◌≤◌, ◌^◌, ℕ, List, length, slice_get, Some, IfSome, IfNone, IsSome, refl, vec_capacity};
ghost use Rattle.slotmap_basic.specs.Columns.{zip_slots, uses_of};
ghost use Rattle.slotmap_slots.specs.declared.layout.Use.{Use as UseOf};

use slotmap_core::limits::NULL_INDEX;
use slotmap_core::sure::{sure, sure_mut};
use slotmap_slots::layout::{CopyLayout, Layout, Use, marks_detached, number_for};
use std::alloc::{AllocError, Global};
use std::marker::Model;

mod odds;

pub use odds::OddCursor;

/// Versions, uses and payloads, each in a vector of its own. A use takes 4 bytes.
///
/// An iterator reads only the versions, and a look-up a version and a payload.
#[derive(Drop)]
pub struct Columns<P> {
    versions: Vec<u32>,
    // At an even version what `number_for` returns, and at an odd one any number.
    numbers: Vec<u32>,
    payloads: Vec<Option<P>>,
    // This many slots fit in each of the three.
    capacity: usize,
}

impl<P> Model for Columns<P> {
    ghost use Rattle.slotmap_core.specs.Words.{vec_capacity};
    ghost use Rattle.slotmap_slots.specs.Slot.{SlotList};
    ghost use Rattle.slotmap_basic.specs.Columns.{zip_slots, IsColumns, uses_of};

    ghost Value = { SlotList P };

    ghost view = { λ m. record { slots = zip_slots m.versions.items (uses_of m.versions.items m.numbers.items) m.payloads.items; capacity = m.capacity } };

    ghost invariant = { λ m. IsColumns m.versions.items m.numbers.items m.payloads.items m.capacity (vec_capacity m.versions) (vec_capacity m.numbers) (vec_capacity m.payloads) };
}

// With fewer slots than this the three vectors grow to four times their length, with more to twice.
const FEW: usize = 512;

// Returns the version at an index.
pub(crate) fn version_in(versions: &[u32], index: usize) -> u32
    requires { index < length versions.now }
    ensures { slice_get versions.now index ≡ Some result }
{
    versions[index]
}

// Returns how many more slots to allocate if `additional` are needed. Each growth moves three
// vectors, so it pays to have few of them.
fn growth(len: usize, additional: usize) -> usize
    ensures { additional ≤ result }
{
    if len < FEW && additional < 3 * len {
        3 * len
    } else {
        additional
    }
}

impl<P> Columns<P> {
    // Returns how many slots fit in each of these. None has the index of the null key.
    fn fit_count(versions: &Vec<u32>, numbers: &Vec<u32>, payloads: &Vec<Option<P>>) -> usize
        ensures limit { result < 2 ^ 32 }
        ensures versions_fit { result ≤ vec_capacity versions.now }
        ensures numbers_fit { result ≤ vec_capacity numbers.now }
        ensures payloads_fit { result ≤ vec_capacity payloads.now }
        ensures greatest { (n : ℕ) → n < 2 ^ 32 → n ≤ vec_capacity versions.now → n ≤ vec_capacity numbers.now → n ≤ vec_capacity payloads.now → n ≤ result }
    {
        let others = numbers.capacity().min(payloads.capacity());
        versions.capacity().min(others).min(NULL_INDEX)
    }

    // Returns the versions and the payloads.
    pub(crate) fn as_slices(&self) -> (&[u32], &[Option<P>])
        ensures { (uses : List UseOf) × (length uses ≡ length result.0.now) × (length result.1.now ≡ length result.0.now) × (zip_slots result.0.now uses result.1.now ≡ self.now.slots) }
    {
        (self.versions.as_slice(), self.payloads.as_slice())
    }
}

impl<P> Columns<P> {
    // Returns the slots in these, with room for all that fit.
    fn with_room(versions: Vec<u32>, numbers: Vec<u32>, payloads: Vec<Option<P>>) -> Columns<P>
        requires numbers_length { length numbers.items ≡ length versions.items }
        requires payloads_length { length payloads.items ≡ length versions.items }
        ensures slots { result.slots ≡ zip_slots versions.items (uses_of versions.items numbers.items) payloads.items }
        ensures room { (n : ℕ) → n < 2 ^ 32 → n ≤ vec_capacity versions → n ≤ vec_capacity numbers → n ≤ vec_capacity payloads → n ≤ result.capacity }
    {
        let capacity = Columns::fit_count(&versions, &numbers, &payloads);
        Columns {
            versions,
            numbers,
            payloads,
            capacity,
        }
    }

    // Returns the versions and the payloads, and drops the numbers.
    pub(crate) fn into_parts(self) -> (Vec<u32>, Vec<Option<P>>)
        ensures { (uses : List UseOf) × (length uses ≡ length result.0.items) × (length result.1.items ≡ length result.0.items) × (zip_slots result.0.items uses result.1.items ≡ self.slots) }
    {
        let Columns {
            versions,
            numbers: _,
            payloads,
            capacity: _,
        } = self;
        (versions, payloads)
    }
}

#[tactic(auto, using(crate::proofs::ColumnLemmas::slot_list))]
impl<P> Columns<P> {
    ghost use Rattle.slotmap_basic.specs.Columns.{versions_of, AllEven, IsNextOdd};
    ghost use Rattle.slotmap_basic.specs.Odds.{IsAhead};
    ghost use Rattle.slotmap_core.specs.Words.{slice_set};
    ghost use Rattle.slotmap_slots.specs.Slot.{FitsEmpty, payload_at, empty};
    ghost use Rattle.slotmap_slots.specs.declared.layout.Use.TheVariants.{Detached};

    // Takes out the payload of a slot whose key is detached, and leaves this version there. The version
    // last: so a `reattach` right after it has no version to test.
    fn set_aside(&mut self, index: usize, version: u32) -> P
        requires there { IsSome (payload_at self.old.slots index) }
        requires out { FitsEmpty version Detached }
        ensures value { payload_at self.old.slots index ≡ Some result }
        ensures left { self.new ≡ record { slots = slice_set self.old.slots index (empty version Detached); capacity = self.old.capacity } }
    {
        let payload = sure(self.payloads[index].take());
        self.numbers[index] = number_for(Use::Detached);
        self.versions[index] = version;
        payload
    }

    // Returns the next index with an odd version, or `None` if there is none.
    #[inline(always)]
    pub(crate) fn next_odd(&self, cursor: &mut OddCursor) -> Option<usize>
        requires { IsAhead (versions_of self.now.slots) cursor.old.run_end cursor.old.end cursor.old.index cursor.old.bits }
        ensures next { IfSome result (IsNextOdd (versions_of self.now.slots) cursor.old.index) }
        ensures on { IfSome result (λ found. cursor.new.index ≡ found + 1) }
        ensures none { IfNone result (AllEven (versions_of self.now.slots) cursor.old.index (length (versions_of self.now.slots))) }
        ensures ahead { IsAhead (versions_of self.now.slots) cursor.new.run_end cursor.new.end cursor.new.index cursor.new.bits }
    {
        cursor.step(&self.versions)
    }
}

#[tactic(auto, using(crate::proofs::ColumnLemmas::slot_list))]
impl<P> Layout<P> for Columns<P> {
    ghost use Rattle.slotmap_core.specs.Words.{ℕ, List};
    ghost use Rattle.slotmap_slots.specs.Slot.{Slot, SlotList, with_payload};

    ghost slots = { λ m. m.slots };

    ghost fits = { λ m. m.capacity };

    ghost with_payload_at = { λ m i p. record m { slots = with_payload m.slots i p } };

    fn with_capacity(alloc: Global, count: usize) -> Result<Self, AllocError> {
        let versions = Vec::with_capacity(alloc, count)?;
        let numbers = Vec::with_capacity(alloc, count)?;
        let payloads = Vec::with_capacity(alloc, count)?;
        Ok(Columns::with_room(versions, numbers, payloads))
    }

    fn allocator(&self) -> Global {
        *self.versions.allocator()
    }

    fn len(&self) -> usize {
        self.versions.len()
    }

    fn capacity(&self) -> usize {
        self.capacity
    }

    fn reserve(&mut self, additional: usize) -> Result<(), AllocError> {
        let more = growth(self.versions.len(), additional);
        // The largest vector first: the memory that it leaves can hold the others.
        self.payloads.reserve(more)?;
        self.numbers.reserve(more)?;
        self.versions.reserve(more)?;
        self.capacity = Columns::fit_count(&self.versions, &self.numbers, &self.payloads);
        Ok(())
    }

    fn version(&self, index: usize) -> u32 {
        self.versions[index]
    }

    fn is_detached(&self, index: usize) -> bool {
        marks_detached(self.numbers[index])
    }

    fn next_free(&self, index: usize) -> u32 {
        self.numbers[index]
    }

    fn payload(&self, index: usize) -> &P {
        sure(self.payloads[index].as_ref())
    }

    fn payload_mut(&mut self, index: usize) -> &mut P {
        sure_mut(&mut self.payloads[index])
    }

    fn take(&mut self, index: usize, version: u32, usage: Use) -> P {
        if let Use::Detached = usage {
            return self.set_aside(index, version);
        }
        // The version first: a look-up before has read it, and read where it lies.
        self.versions[index] = version;
        self.numbers[index] = number_for(usage);
        sure(self.payloads[index].take())
    }

    fn put(&mut self, index: usize, version: u32, payload: P)
    where
        P: Drop,
    {
        self.versions[index] = version;
        self.payloads[index] = Some(payload);
    }

    fn push(&mut self, version: u32, payload: P) {
        self.versions.push_reserved(version);
        self.numbers.push_reserved(0);
        self.payloads.push_reserved(Some(payload));
    }

    fn push_empty(&mut self, version: u32, usage: Use) {
        self.versions.push_reserved(version);
        self.numbers.push_reserved(number_for(usage));
        self.payloads.push_reserved(None);
    }

    ghost slots_with = { λ m i p. refl };

    ghost fits_with = { λ m i p. refl };
}

#[tactic(auto, using(crate::proofs::ColumnLemmas::slot_list))]
impl<P: Clone> CopyLayout<P> for Columns<P> {
    fn copy(&self) -> Result<Self, AllocError> {
        let alloc = self.allocator();
        let versions = Vec::from_slice(alloc, &self.versions)?;
        let numbers = Vec::from_slice(alloc, &self.numbers)?;
        let payloads = self.payloads.clone()?;
        Ok(Columns::with_room(versions, numbers, payloads))
    }
}
