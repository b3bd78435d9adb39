//! A side table whose keys a stranger chooses: its hasher has a seed that the stranger can't know.

ghost use Rattle.std.specs.Prelude.{◌≡◌, IfOk};
ghost use Rattle.std.specs.FinMap as map;
ghost use Rattle.slotmap.specs.Words.{keyed, start_live};

use slotmap::{DefaultKey, SlotRecord, SlotsError, SparseSecondaryMap};
use std::alloc::Global;
use std::hash::RandomState;
use std::io;
use std::random::RandomSource;

/// Marks under keys from an untrusted source.
pub type Marks = SparseSecondaryMap<DefaultKey, u32, RandomState>;

/// An empty table with a seed of its own.
pub fn seeded(rt: &impl RandomSource, alloc: Global) -> io::Result<Marks>
    ensures { IfOk result (λ made. made.pairs ≡ map.empty) }
{
    match SparseSecondaryMap::with_hasher(alloc, RandomState::new(rt)?) {
        Ok(made) => Ok(made),
        Err(_) => unreachable!(),
    }
}

/// The table that a stranger's list describes.
pub fn read_marks(
    alloc: Global,
    list: Vec<SlotRecord<u32>>,
    hasher: RandomState,
) -> Result<Marks, SlotsError>
    ensures { IfOk result (λ made. keyed made.pairs ≡ start_live list.items) }
{
    SparseSecondaryMap::from_slots_with_hasher(alloc, list, hasher)
}

/// The table of a stranger's pairs, or the pair for which memory ran out.
pub fn collect_marks(
    alloc: Global,
    pairs: Vec<(DefaultKey, u32)>,
    hasher: RandomState,
) -> Result<Marks, Option<(DefaultKey, u32)>> {
    SparseSecondaryMap::from_iter_with_hasher(alloc, pairs, hasher)
}
