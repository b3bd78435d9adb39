//! The layout of the slots: one vector.

ghost use Rattle.std.specs.Prelude.{◌≡◌, ◌<◌, ◌≤◌, ◌^◌, ℕ, refl, vec_capacity};
ghost use Rattle.slotmap_slots.specs.Slot.{FitsEmpty, empty};
ghost use Rattle.slotmap_dense.specs.Rows.{slot_of_row};

use slotmap_core::limits::NULL_INDEX;
use slotmap_slots::layout::{CopyLayout, Layout, Use, marks_detached, number_for};
use std::alloc::{AllocError, Global};
use std::marker::Model;

#[derive(Clone, Copy)]
struct Row {
    version: u32,
    // The position if the version is odd, else what `number_for` returns.
    number: u32,
}

/// Versions, uses and positions side by side in one vector.
///
/// A look-up reads one spot of memory. The position of a pair lies where a vacant slot names the
/// next. So a slot takes 8 bytes.
#[derive(Drop)]
pub(crate) struct Rows {
    rows: Vec<Row>,
    // This many slots fit.
    capacity: usize,
}

impl Model for Rows {
    ghost use Rattle.std.specs.Prelude.{◌<◌, ◌≤◌, ◌^◌, ℕ, vec_capacity};
    ghost use Rattle.slotmap_slots.specs.Slot.{SlotList};
    ghost use Rattle.slotmap_dense.specs.Rows.{slots_of_rows};

    ghost Value = { SlotList ℕ };

    ghost view = { λ m. record { slots = slots_of_rows m.rows.items; capacity = m.capacity } };

    ghost invariant = { λ m. (m.capacity < 2 ^ 32) × (m.capacity ≤ vec_capacity m.rows) };
}

// Returns how many slots fit. None has the index of the null key.
fn fit_count(rows: &Vec<Row>) -> usize
    ensures limit { result < 2 ^ 32 }
    ensures fits { result ≤ vec_capacity rows.now }
    ensures greatest { (n : ℕ) → n < 2 ^ 32 → n ≤ vec_capacity rows.now → n ≤ result }
{
    rows.capacity().min(NULL_INDEX)
}

// Returns a row with no payload.
#[inline(always)]
fn vacant(version: u32, usage: Use) -> Row
    requires { FitsEmpty version usage }
    ensures { slot_of_row result ≡ empty version usage }
{
    Row {
        version,
        number: number_for(usage),
    }
}

#[tactic(auto, using(crate::proofs::RowLemmas::slot_list))]
impl Layout<u32> for Rows {
    ghost use Rattle.slotmap_core.specs.Words.{ℕ, List};
    ghost use Rattle.slotmap_slots.specs.Slot.{Slot, SlotList, with_payload};

    ghost slots = { λ m. m.slots };

    ghost fits = { λ m. m.capacity };

    ghost with_payload_at = { λ m i p. record m { slots = with_payload m.slots i p } };

    fn with_capacity(alloc: Global, count: usize) -> Result<Self, AllocError> {
        let rows = Vec::with_capacity(alloc, count)?;
        let capacity = fit_count(&rows);
        Ok(Rows { rows, capacity })
    }

    fn allocator(&self) -> Global {
        *self.rows.allocator()
    }

    fn len(&self) -> usize {
        self.rows.len()
    }

    fn capacity(&self) -> usize {
        self.capacity
    }

    fn reserve(&mut self, additional: usize) -> Result<(), AllocError> {
        self.rows.reserve(additional)?;
        self.capacity = fit_count(&self.rows);
        Ok(())
    }

    fn version(&self, index: usize) -> u32 {
        self.rows[index].version
    }

    fn is_detached(&self, index: usize) -> bool {
        marks_detached(self.rows[index].number)
    }

    fn next_free(&self, index: usize) -> u32 {
        self.rows[index].number
    }

    fn payload(&self, index: usize) -> &u32 {
        &self.rows[index].number
    }

    fn payload_mut(&mut self, index: usize) -> &mut u32 {
        &mut self.rows[index].number
    }

    fn take(&mut self, index: usize, version: u32, usage: Use) -> u32 {
        let payload = self.rows[index].number;
        self.rows[index] = vacant(version, usage);
        payload
    }

    fn put(&mut self, index: usize, version: u32, payload: u32) {
        self.rows[index] = Row {
            version,
            number: payload,
        };
    }

    fn push(&mut self, version: u32, payload: u32) {
        self.rows.push_reserved(Row {
            version,
            number: payload,
        });
    }

    fn push_empty(&mut self, version: u32, usage: Use) {
        self.rows.push_reserved(vacant(version, usage));
    }

    ghost slots_with = { λ m i p. refl };

    ghost fits_with = { λ m i p. refl };
}

#[tactic(auto, using(crate::proofs::RowLemmas::slot_list))]
impl CopyLayout<u32> for Rows {
    fn copy(&self) -> Result<Self, AllocError> {
        let rows = Vec::from_slice(self.allocator(), &self.rows)?;
        let capacity = fit_count(&rows);
        Ok(Rows { rows, capacity })
    }
}
