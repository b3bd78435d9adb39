//! Maps whose values are cloned. The clone of a string has the same bytes, that of a number is equal.

ghost use Rattle.std.specs.Prelude.{◌≡◌, ◌≢◌, IfOk, OnOk, None, true, option_map, string_bytes};
ghost use Rattle.std.specs.FinMap as map;
ghost use Rattle.slotmap.specs.Words.{Key as KeyOf, IsCopy, AreClones, KeepsSpent, get};

use slotmap::basic::IntoIter;
use slotmap::{
    DefaultKey, DenseSlotMap, HopSlotMap, Key, OutOfMemory, SecondaryMap, SlotMap,
    SparseSecondaryMap,
};
use std::alloc::AllocError;

/// Copies a map of names: under each key is the same name.
pub fn copy_names<K: Key>(names: &SlotMap<K, String>) -> Result<SlotMap<K, String>, AllocError>
    ensures { IfOk result (λ copy. (k : KeyOf) → option_map string_bytes (map.get copy.live k) ≡ option_map string_bytes (map.get names.now.live k)) }
{
    names.clone()
}

/// Whether a key has the same name in a map and in its copy: it has.
pub fn is_same_name<K: Key>(names: &SlotMap<K, String>, key: K) -> Result<bool, AllocError>
    ensures { IfOk result (λ same. same ≡ true) }
{
    let copy = names.clone()?;
    match (names.get(key), copy.get(key)) {
        (Some(name), Some(copied)) => Ok(name.as_str() == copied.as_str()),
        (None, None) => Ok(true),
        _ => Ok(false),
    }
}

/// Copies a map of numbers: the copy holds the same.
pub fn copy_numbers<K: Key>(numbers: &SlotMap<K, u64>) -> Result<SlotMap<K, u64>, AllocError>
    ensures { IfOk result (IsCopy numbers.now) }
{
    numbers.clone()
}

/// Makes a map a copy of another one: what is spent in that one is spent in the map then. What was
/// spent in the map before may be returned again.
pub fn take_over<K: Key>(
    names: &mut SlotMap<K, String>,
    source: &SlotMap<K, String>,
) -> Result<(), AllocError>
    ensures { OnOk result (KeepsSpent source.now names.new) }
{
    names.clone_from(source)
}

/// Copies a packed map of names: the same keys in the same order, each with the same name.
pub fn copy_packed<K: Key>(
    names: &DenseSlotMap<K, String>,
) -> Result<DenseSlotMap<K, String>, OutOfMemory>
    ensures keys { IfOk result (λ copy. copy.keys ≡ names.now.keys) }
    ensures names { IfOk result (λ copy. (k : KeyOf) → option_map string_bytes (map.get copy.content.live k) ≡ option_map string_bytes (map.get names.now.content.live k)) }
{
    Ok(names.clone()?)
}

/// Copies a map that keeps its vacant slots in blocks: the same blocks, and under each key the same
/// name.
pub fn copy_with_blocks<K: Key>(
    names: &HopSlotMap<K, String>,
) -> Result<HopSlotMap<K, String>, OutOfMemory>
    ensures blocks { IfOk result (λ copy. copy.blocks ≡ names.now.blocks) }
    ensures names { IfOk result (λ copy. (k : KeyOf) → option_map string_bytes (map.get copy.content.live k) ≡ option_map string_bytes (map.get names.now.content.live k)) }
{
    Ok(names.clone()?)
}

/// Copies the names beside the keys of another map.
pub fn copy_beside<K: Key>(
    names: &SecondaryMap<K, String>,
) -> Result<SecondaryMap<K, String>, AllocError>
    ensures { IfOk result (λ copy. (k : KeyOf) → option_map string_bytes (get copy.pairs k) ≡ option_map string_bytes (get names.now.pairs k)) }
{
    names.clone()
}

/// Copies the names beside a few keys of another map.
pub fn copy_few_beside<K: Key>(
    names: &SparseSecondaryMap<K, String>,
) -> Result<SparseSecondaryMap<K, String>, AllocError>
    ensures { IfOk result (λ copy. (k : KeyOf) → option_map string_bytes (get copy.pairs k) ≡ option_map string_bytes (get names.now.pairs k)) }
{
    names.clone()
}

/// Copies an iterator that owns its names: it yields the same keys in the same order, each with the
/// same name.
pub fn copy_rest<K: Key>(names: &IntoIter<K, String>) -> Result<IntoIter<K, String>, AllocError>
    ensures { IfOk result (AreClones (λ name copy. string_bytes copy ≡ string_bytes name) names.now) }
{
    names.clone()
}

/// Who comes to a dinner, and where it is. It holds a map, and can be cloned.
#[derive(Clone, Drop)]
pub struct Dinner {
    pub guests: SlotMap<DefaultKey, String>,
    pub place: String,
}

/// The same dinner without one guest. All others come, and the dinner itself stays as it is.
pub fn without(dinner: &Dinner, guest: DefaultKey) -> Result<Dinner, AllocError>
    ensures gone { IfOk result (λ other. map.get other.guests.live guest ≡ None) }
    ensures others { IfOk result (λ other. (k : KeyOf) → k ≢ guest → option_map string_bytes (map.get other.guests.live k) ≡ option_map string_bytes (map.get dinner.now.guests.live k)) }
    ensures place { IfOk result (λ other. string_bytes other.place ≡ string_bytes dinner.now.place) }
{
    let mut other = dinner.clone()?;
    other.guests.remove(guest);
    Ok(other)
}
